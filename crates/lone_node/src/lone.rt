//! A node whose clients and neighbours a test plays.
ghost use Rattle.std.specs.Prelude.{IfSome};
ghost use Rattle.node_disk.specs.OnDisk.{disk_of};
ghost use Rattle.node_disk.specs.Starts.{CanBeStarted};
ghost use Rattle.lone_node.specs.Played.{undo_extents, bytes_of, images_of, IsAlone};

use crate::coming::Comes;
use crate::places::place;
use crate::starting::{makes, starts};
use crate::turns::take;
use block_disk::{Armable, DiskFault, MemDisk};
use node_disk::{CutAt, DurableTurn, Node};
use node_points::Point;
use redo_record::KeptRow;
use std::alloc::Global;
use std::marker::Model;

/// A node whose clients and neighbours a test plays. It goes by `end` alone.
pub struct LoneNode {
    node: Node<MemDisk>,
    /// Its number.
    number: u8,
    /// No number that it keeps is greater.
    bound: u64,
    /// Whether it takes turns: each was whole since it started.
    is_up: bool,
}

impl Model for LoneNode {
    ghost use Rattle.std.specs.Prelude.{Bool};
    ghost use Rattle.lone_node.specs.Played.{IsInPlay};

    ghost Value = { Bool };

    ghost view = { λ x. x.is_up };

    ghost invariant = { λ x. IsInPlay x.is_up x.bound x.node };
}

/// The disk of a node that stops, with the power on again.
#[tactic(auto, using(crate::proofs::PlayLemmas::powered))]
fn fallen(node: Node<MemDisk>) -> MemDisk
    requires { CanBeStarted undo_extents bytes_of images_of (disk_of node) }
    ensures { CanBeStarted undo_extents bytes_of images_of result }
{
    let mut disk = node.into_disk();
    disk.power_on();
    disk
}

/// The node of a number as it was made or started, if it was.
#[tactic(auto, using(crate::proofs::PlayLemmas::up_at))]
fn up(node: Option<Node<MemDisk>>, number: u8) -> Option<LoneNode>
    requires { IfSome node (IsAlone 1000) }
{
    match node {
        Some(node) => Some(LoneNode {
            node,
            number,
            bound: 1000,
            is_up: true,
        }),
        None => None,
    }
}

impl LoneNode {
    /// Makes the node of a number. None where memory runs out.
    pub fn make(alloc: Global, number: u8) -> Option<LoneNode> {
        match place(alloc, number) {
            Some(place) => up(makes(alloc, place), number),
            None => None,
        }
    }

    /// The node takes a turn. The error is the place where it is cut, and none where the node is down, a condition of the turn does
    /// not hold, or memory runs out.
    #[tactic(auto, using(crate::proofs::PlayLemmas::alone_up, crate::proofs::PlayLemmas::up_at, crate::proofs::PlayLemmas::down_at))]
    pub(crate) fn take(
        &mut self,
        alloc: Global,
        comes: &Comes,
        points: &[Point],
    ) -> Result<DurableTurn, Option<CutAt>> {
        if self.is_up {
            let bound = self.bound;
            match take(alloc, &mut self.node, bound, comes, points) {
                Ok(effects) => {
                    self.bound = bound + 1;
                    Ok(effects)
                }
                Err(cut) => {
                    self.is_up = false;
                    Err(cut)
                }
            }
        } else {
            Err(None)
        }
    }

    /// Where a turn is cut; none where it is whole, or is not taken.
    pub fn cut(&mut self, alloc: Global, comes: &Comes, points: &[Point]) -> Option<CutAt> {
        match self.take(alloc, comes, points) {
            Ok(effects) => {
                drop(effects);
                None
            }
            Err(cut) => cut,
        }
    }

    /// Gives its disk an order to stop or to fail.
    #[tactic(auto, using(crate::proofs::PlayLemmas::armed))]
    pub fn arm(&mut self, order: DiskFault) {
        self.node.arm(order);
    }

    // Stops the node: its disk, and its number.
    fn stop(self) -> (MemDisk, u8)
        ensures { CanBeStarted undo_extents bytes_of images_of result.0 }
    {
        let LoneNode {
            node,
            number,
            bound: _bound,
            is_up: _is_up,
        } = self;
        (fallen(node), number)
    }

    /// Stops the node, and starts it from its disk. None where a condition of the start does not hold, or memory runs out.
    pub fn restart(self, alloc: Global) -> Option<LoneNode> {
        let (disk, number) = self.stop();
        match place(alloc, number) {
            Some(place) => up(starts(alloc, disk, place), number),
            None => {
                drop(disk);
                None
            }
        }
    }

    /// Stops the node, which is not needed any more.
    pub fn end(self) {
        let (disk, _number) = self.stop();
        drop(disk);
    }

    /// The bytes of its disk.
    pub fn bytes(&self) -> &[u8] {
        self.node.disk().bytes()
    }

    /// The rows of the branches that it keeps.
    pub fn kept(&self) -> &[KeptRow] {
        self.node.kept()
    }
}
