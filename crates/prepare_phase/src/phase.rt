//! What a live branch does next in its prepare phase.
ghost use Rattle.std.specs.Prelude.{◌≡◌, ◌≤◌, length, map};
ghost use Rattle.std.specs.List.{list_any};
ghost use Rattle.dtx_values.specs.Limits.{link_limit};
ghost use Rattle.prepare_phase.specs.Acts.{root_act as root_act_of, collected_act, after_act, with_prepare_sent, collecting, first_act as first_act_of, prepare_act, after_prepare, is_awaited as is_awaited_of, all_answered as all_answered_of, answer_act as answer_act_of, answers_first as answers_first_of, is_first_answer as is_first_answer_of, has_voted, voted, heard_act, after_answer};

use dtx_values::Listing;
use session_tree::{Act, Edge, Live, Phase, Vote, Walk, step, weight};
use std::alloc::Global;
use std::mem;
use tran_ids::BranchId;

/// What a live branch does about COMMIT, at a root, and about Prepare, at any other branch. From then on it waits for its
/// children, or has all answers where it has none. A Prepare that comes again changes nothing. `site_below` tells whether
/// the walk to the commit point site comes to the branch, as it does to every root. No memory is taken.
#[tactic(auto, unfolding(crate::specs::Acts::prepare_act, crate::specs::Acts::after_prepare))]
pub fn on_prepare(alloc: Global, live: &mut Live, site_below: bool) -> Act
    requires { length live.old.edges ≤ link_limit }
    ensures act { result ≡ prepare_act live.old site_below }
    ensures after { live.new ≡ after_prepare live.old site_below }
{
    match live.phase {
        Phase::Working => {
            collect(alloc, live, site_below);
            let act = first_act(live, site_below);
            follow(live, act);
            act
        }
        _ => Act::Rest,
    }
}

/// What a live branch does about a child's answer. Each child's first answer counts, and only while the branch collects;
/// any other changes nothing. An Abort ends the collect at once, else the last answer completes it. No memory is taken.
#[tactic(auto, unfolding(crate::specs::Acts::heard_act, crate::specs::Acts::after_answer))]
pub fn on_answer(alloc: Global, live: &mut Live, from: &BranchId, vote: Vote) -> Act
    requires { length live.old.edges ≤ link_limit }
    ensures act { result ≡ heard_act live.old from.now vote }
    ensures after { live.new ≡ after_answer live.old from.now vote }
{
    match live.phase {
        Phase::Collecting { site_below } if is_first_answer(live, from) => {
            take_vote(alloc, live, from, vote);
            let act = answer_act(live, site_below, vote);
            follow(live, act);
            act
        }
        _ => Act::Rest,
    }
}

// All children have answered at a root.
fn root_act(walk: Walk) -> Act
    ensures { result ≡ root_act_of walk }
{
    match walk {
        Walk::Here => Act::Decide,
        Walk::Down(number) => Act::SealAndPass(number),
        Walk::Nowhere => Act::Finish,
    }
}

// All children have answered.
fn all_collected(live: &Live, site_below: bool) -> Act
    requires { length live.now.edges ≤ link_limit }
    ensures { result ≡ collected_act live.now site_below }
{
    if site_below {
        if live.parent.is_none() {
            root_act(step(live))
        } else {
            Act::SayReady
        }
    } else if weight(live).is_none() {
        Act::SayReadOnly
    } else {
        Act::Seal
    }
}

// A branch that says Ready waits for CommitPoint.
fn follow(live: &mut Live, act: Act)
    ensures { live.new ≡ after_act live.old act }
{
    match act {
        Act::SayReady => live.phase = Phase::Ready,
        _ => {}
    }
}

fn ask(edge: &mut Edge)
    ensures { edge.new ≡ with_prepare_sent edge.old }
{
    edge.vote = Vote::Asked;
}

fn ask_all(edges: &mut Vec<Edge>)
    ensures { edges.new.items ≡ map with_prepare_sent edges.old.items }
{
    for edge in edges.iter_mut() {
        ask(edge);
    }
}

// The collect begins.
fn collect(alloc: Global, live: &mut Live, site_below: bool)
    ensures { live.new ≡ collecting live.old site_below }
{
    let mut edges = mem::replace(&mut live.edges, Listing::new(alloc)).into_vec();
    ask_all(&mut edges);
    live.edges = Listing::of(edges);
    live.phase = Phase::Collecting { site_below };
}

fn first_act(live: &Live, site_below: bool) -> Act
    requires { length live.now.edges ≤ link_limit }
    ensures { result ≡ first_act_of live.now site_below }
{
    match live.edges.as_slice() {
        [] => all_collected(live, site_below),
        _ => Act::AskDown,
    }
}

fn is_awaited(vote: Vote) -> bool
    ensures { result ≡ is_awaited_of vote }
{
    matches!(vote, Vote::Asked)
}

// Whether a child has got to answer.
fn is_waiting(live: &Live) -> bool
    ensures { result ≡ list_any (λ e. is_awaited_of e.vote) live.now.edges }
{
    live.edges
        .as_slice()
        .iter()
        .any(|edge| is_awaited(edge.vote))
}

fn all_answered(live: &Live) -> bool
    ensures { result ≡ all_answered_of live.now }
{
    !is_waiting(live)
}

fn answer_act(live: &Live, site_below: bool, vote: Vote) -> Act
    requires { length live.now.edges ≤ link_limit }
    ensures { result ≡ answer_act_of live.now site_below vote }
{
    match vote {
        Vote::Abort => Act::Abandon,
        _ => {
            if all_answered(live) {
                all_collected(live, site_below)
            } else {
                Act::Rest
            }
        }
    }
}

fn answers_first(edge: &Edge, from: &BranchId) -> bool
    ensures { result ≡ answers_first_of from.now edge.now }
{
    edge.peer.is(from) && is_awaited(edge.vote)
}

fn is_first_answer(live: &Live, from: &BranchId) -> bool
    ensures { result ≡ is_first_answer_of live.now from.now }
{
    live.edges
        .as_slice()
        .iter()
        .any(|edge| answers_first(edge, from))
}

fn vote_if_first(edge: &mut Edge, from: &BranchId, vote: Vote)
    ensures { edge.new ≡ has_voted from.now vote edge.old }
{
    if answers_first(edge, from) {
        edge.vote = vote;
    }
}

fn vote_in(edges: &mut Vec<Edge>, from: &BranchId, vote: Vote)
    ensures { edges.new.items ≡ map (has_voted from.now vote) edges.old.items }
{
    for edge in edges.iter_mut() {
        vote_if_first(edge, from, vote);
    }
}

// The child has answered.
fn take_vote(alloc: Global, live: &mut Live, from: &BranchId, vote: Vote)
    ensures { live.new ≡ voted live.old from.now vote }
{
    let mut edges = mem::replace(&mut live.edges, Listing::new(alloc)).into_vec();
    vote_in(&mut edges, from, vote);
    live.edges = Listing::of(edges);
}
