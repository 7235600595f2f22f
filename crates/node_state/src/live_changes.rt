//! What the rules make of one live branch. Its id stays, and it keeps to the most children that a branch may have.
ghost use Rattle.std.specs.Prelude.{◌≡◌};
ghost use Rattle.prepare_phase.specs.Acts.{prepare_act};
ghost use Rattle.node_rules.specs.Prepare.{with_comment, ready};
ghost use Rattle.tran_ids.specs.Listed.{numbered};
ghost use Rattle.node_state.specs.Lives.{HasRoom, prepared, changed_by, with_changes, advised, as_told, told, heard};

use dtx_values::{Advice, Bytes, Listing};
use prepare_phase::on_prepare;
use session_tree::{Act, Edge, Live, Phase};
use std::alloc::Global;
use std::mem;

/// COMMIT or Prepare comes, with the comment of the COMMIT. No memory is taken.
#[tactic(auto, unfolding(prepare_phase::specs::Acts::prepare_act))]
pub(crate) fn prepare(alloc: Global, live: &mut Live, site_below: bool, comment: Bytes) -> Act
    requires { HasRoom live.old }
    ensures act { result ≡ prepare_act (with_comment live.old comment) site_below }
    ensures after { live.new ≡ prepared site_below comment live.old }
{
    match live.phase {
        Phase::Working => {
            live.comment = comment;
            on_prepare(alloc, live, site_below)
        }
        _ => Act::Rest,
    }
}

/// It has made changes, or has not.
pub(crate) fn note_changes(live: &mut Live, changes: bool)
    ensures { live.new ≡ changed_by changes live.old }
{
    live.changed = live.changed || changes;
}

/// From now on it has made changes, or has not.
pub(crate) fn set_changed(live: &mut Live, changed: bool)
    ensures { live.new ≡ with_changes changed live.old }
{
    live.changed = changed;
}

/// It takes a call, with the advice that came with it.
pub(crate) fn take_advice(live: &mut Live, advice: Option<Advice>)
    ensures { live.new ≡ advised advice live.old }
{
    live.advice = advice;
}

/// A child's Reply tells its weight and the branches of its subtree. No memory is taken.
pub(crate) fn hear(alloc: Global, live: &mut Live, number: u8, weight: Option<u8>, count: u16)
    ensures { live.new ≡ heard number weight count live.old }
{
    let mut edges = mem::replace(&mut live.edges, Listing::new(alloc)).into_vec();
    tell(&mut edges, number, weight, count);
    live.edges = Listing::of(edges);
}

fn tell(edges: &mut Vec<Edge>, number: u8, weight: Option<u8>, count: u16)
    ensures { edges.new.items ≡ told number weight count edges.old.items (numbered edges.old.items number) }
{
    let Some(place) = usize::from(number).checked_sub(1) else {
        return;
    };
    if place < edges.len() {
        tell_edge(&mut edges[place], weight, count);
    }
}

fn tell_edge(edge: &mut Edge, weight: Option<u8>, count: u16)
    ensures { edge.new ≡ as_told weight count edge.old }
{
    edge.weight = weight;
    edge.count = count;
}

/// It waits for CommitPoint.
pub(crate) fn make_ready(live: &mut Live)
    ensures { live.new ≡ ready live.old }
{
    live.phase = Phase::Ready;
}
