//! A turn of a node in a test: what it may meet is tested before it.
ghost use Rattle.std.specs.Prelude.{◌≡◌, ◌<◌, ◌+◌, true, OnOk};
ghost use Rattle.std.specs.List.{AllByRecursion};
ghost use Rattle.node_disk.specs.OnDisk.{disk_of, kept_of};
ghost use Rattle.node_disk.specs.Starts.{CanBeStarted};
ghost use Rattle.lone_node.specs.Played.{commits as commits_by, works as works_by, IsWorking, HasParent, IsComing, MeetsLives, undo_extents, bytes_of, images_of, IsAlone};

use crate::coming::{Comes, incoming};
use block_disk::MemDisk;
use node_disk::{CutAt, DurableTurn, Incoming, Node, TurnErr};
use node_points::Point;
use node_ready_laws::turns_stay_ready;
use node_spell_laws::{messages_fit, records_fit};
use session_tree::{Live, Phase};
use sql_statement::Stmt;
use std::alloc::Global;

/// How many turns a node takes in a test at most, beside the greatest SCN in a message.
const TURN_LIMIT: u64 = 1_000_000;

/// Whether what comes is a COMMIT.
fn commits(incoming: &Incoming) -> bool
    ensures { result ≡ commits_by incoming.now }
{
    match incoming {
        Incoming::Call {
            statement: Some(Stmt::Commit { .. }),
            ..
        } => true,
        _ => false,
    }
}

/// Whether a live branch works.
fn works(live: &Live) -> bool
    ensures { result ≡ works_by live.now }
{
    matches!(live.phase, Phase::Working)
}

/// Whether each live branch works: a COMMIT finds its root so.
#[tactic(auto, using(crate::proofs::TurnLemmas::all_work))]
fn all_work(lives: &[Live]) -> bool
    ensures { result ≡ true → AllByRecursion IsWorking lives.now }
{
    lives.iter().all(|live| works(live))
}

/// Whether each live branch has a parent: a Prepare finds its branch so.
#[tactic(auto, using(crate::proofs::TurnLemmas::all_have_parents))]
fn all_have_parents(lives: &[Live]) -> bool
    ensures { result ≡ true → AllByRecursion HasParent lives.now }
{
    lives.iter().all(|live| live.parent.is_some())
}

/// Whether live branches may meet this.
fn may_meet(lives: &[Live], incoming: &Incoming, asks: bool) -> bool
    ensures { result ≡ true → MeetsLives asks incoming.now lives.now }
{
    (!commits(incoming) || all_work(lives)) && (!asks || all_have_parents(lives))
}

/// Whether a node with these live branches, whose numbers are within this bound, may take this.
fn may_take(bound: u64, lives: &[Live], incoming: &Incoming, asks: bool) -> bool
    ensures few { result ≡ true → bound < 1000000 }
    ensures meets { result ≡ true → MeetsLives asks incoming.now lives.now }
{
    bound < TURN_LIMIT && may_meet(lives, incoming, asks)
}

/// Where a turn was cut; none where memory ran out.
fn cut_of(err: TurnErr) -> Option<CutAt> {
    match err {
        TurnErr::Cut(cut) => {
            let at = cut.at;
            drop(cut);
            Some(at)
        }
        TurnErr::NoMemory => None,
    }
}

/// A turn of a node that may take this.
#[tactic(auto, using(crate::proofs::TurnLemmas::reads))]
fn turn(
    node: &mut Node<MemDisk>,
    bound: u64,
    incoming: Incoming,
    asks: bool,
    points: &[Point],
) -> Result<DurableTurn, Option<CutAt>>
    requires alone { IsAlone bound node.old }
    requires few { bound < 1000000 }
    requires coming { IsComing asks incoming }
    requires meets { MeetsLives asks incoming (kept_of node.old).lives }
    ensures alone { OnOk result (IsAlone (bound + 1) node.new) }
    ensures starts { CanBeStarted undo_extents bytes_of images_of (disk_of node.new) }
{
    messages_fit();
    records_fit();
    turns_stay_ready();
    match node.turn(incoming, points) {
        Ok(effects) => Ok(effects),
        Err(err) => Err(cut_of(err)),
    }
}

/// The node takes this, where it may.
fn take_this(
    node: &mut Node<MemDisk>,
    bound: u64,
    incoming: Incoming,
    asks: bool,
    points: &[Point],
) -> Result<DurableTurn, Option<CutAt>>
    requires alone { IsAlone bound node.old }
    requires coming { IsComing asks incoming }
    ensures alone { OnOk result (IsAlone (bound + 1) node.new) }
    ensures few { OnOk result (bound < 1000000) }
    ensures starts { CanBeStarted undo_extents bytes_of images_of (disk_of node.new) }
{
    if may_take(bound, node.lives(), &incoming, asks) {
        turn(node, bound, incoming, asks, points)
    } else {
        drop(incoming);
        Err(None)
    }
}

/// The node takes a turn. The error is the place where it is cut, and none where a condition of the turn does not hold, or memory
/// runs out.
pub(crate) fn take(
    alloc: Global,
    node: &mut Node<MemDisk>,
    bound: u64,
    comes: &Comes,
    points: &[Point],
) -> Result<DurableTurn, Option<CutAt>>
    requires alone { IsAlone bound node.old }
    ensures alone { OnOk result (IsAlone (bound + 1) node.new) }
    ensures few { OnOk result (bound < 1000000) }
    ensures starts { CanBeStarted undo_extents bytes_of images_of (disk_of node.new) }
{
    match incoming(alloc, comes) {
        Some((incoming, asks)) => take_this(node, bound, incoming, asks, points),
        None => Err(None),
    }
}
