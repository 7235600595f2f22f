//! A node of a run: up, or down with its disk alone.
ghost use Rattle.std.specs.Prelude.{◌≡◌, ◌≤◌, ℕ, ◌∷◌, [], Some, None, is_some, option_map, IfOk, OnOk};
ghost use Rattle.block_disk.specs.Orders.{ordered, plan_of, powered};
ghost use Rattle.redo_record.specs.declared.place.Place.{Place as PlaceBy};
ghost use Rattle.redo_record.specs.declared.record.RedoRecord.TheVariants as records;
ghost use Rattle.record_log.specs.Held.{HoldRecords};
ghost use Rattle.node_rules.specs.Turn.{made as made_by};
ghost use Rattle.node_disk.specs.Starts.{CanBeStarted};
ghost use Rattle.run_rules.specs.Commands.{has_transaction, is_enabled as is_enabled_by};
ghost use Rattle.std.specs.Option.{option_copied};
ghost use Rattle.node_disk.specs.OnDisk.{kept_of};
ghost use Rattle.world.specs.declared.slot.NodeSlot.TheVariants.{Up, Down};
ghost use Rattle.run_rules.specs.Disks.{no_orders};
ghost use Rattle.world_parts.specs.Orders.{HasOrders};
ghost use Rattle.world.specs.Started.{CanStart, TriedFrom};
ghost use Rattle.world.specs.NodeSlot.{site_kept, site_disk, bytes_of, images_of, RunsAt};

use block_disk::{Armable, DiskFault, MemDisk};
use node_disk::{MakeErr, MakeWhy, Node};
use redo_record::Place;
use std::alloc::{AllocError, Global};
use std::mem;

/// A node that is up, or the disk of one that is down.
#[derive(Drop)]
pub enum NodeSlot {
    /// The node runs. Its disk is a part of it.
    Up(Node<MemDisk>),
    /// The node is stopped: of it there is the disk alone.
    Down(MemDisk),
}

impl NodeSlot {
    /// The node's disk.
    pub fn disk(&self) -> &MemDisk
        ensures { result.now ≡ site_disk self.now }
    {
        match self {
            NodeSlot::Up(node) => node.disk(),
            NodeSlot::Down(disk) => disk,
        }
    }

    /// The node, where it is up.
    pub fn node(&self) -> Option<&Node<MemDisk>>
        ensures { option_map kept_of (option_copied result) ≡ site_kept self.now }
    {
        match self {
            NodeSlot::Up(node) => Some(node),
            NodeSlot::Down(_disk) => None,
        }
    }

    /// Whether the node is up.
    pub fn is_up(&self) -> bool
        ensures { result ≡ is_some (site_kept self.now) }
    {
        matches!(self, NodeSlot::Up(_))
    }

    /// Whether a session of the node has a transaction.
    pub fn has_transaction(&self, session: u32) -> bool
        ensures { result ≡ has_transaction (site_kept self.now) session }
    {
        match self {
            NodeSlot::Up(node) => node.session(session).root.is_some(),
            NodeSlot::Down(_disk) => false,
        }
    }

    /// Whether distributed recovery is enabled at a node that is up.
    pub fn is_enabled(&self) -> bool
        ensures { result ≡ is_enabled_by (site_kept self.now) }
    {
        match self {
            NodeSlot::Up(node) => node.is_enabled(),
            NodeSlot::Down(_disk) => false,
        }
    }

    /// Gives the disk an order, in place of an earlier one of its kind.
    pub fn arm(&mut self, order: DiskFault)
        ensures kept { site_kept self.new ≡ site_kept self.old }
        ensures runs { (place : PlaceBy) → RunsAt place self.old → RunsAt place self.new }
        ensures bytes { bytes_of (site_disk self.new) ≡ bytes_of (site_disk self.old) }
        ensures starts { (undo : ℕ) → CanBeStarted undo bytes_of images_of (site_disk self.old) → CanBeStarted undo bytes_of images_of (site_disk self.new) }
        ensures plan { Some (plan_of (site_disk self.new).orders) ≡ ordered (Some (plan_of (site_disk self.old).orders)) order }
    {
        match self {
            NodeSlot::Up(node) => node.arm(order),
            NodeSlot::Down(disk) => disk.arm(order),
        }
    }

    /// Stops the node: its disk is left, with the power on again, and the orders that have not struck.
    pub fn stop(&mut self, alloc: Global)
        ensures kept { site_kept self.new ≡ None }
        ensures bytes { bytes_of (site_disk self.new) ≡ bytes_of (site_disk self.old) }
        ensures starts { (undo : ℕ) → CanBeStarted undo bytes_of images_of (site_disk self.old) → CanBeStarted undo bytes_of images_of (site_disk self.new) }
        ensures power { (site_disk self.new).orders ≡ powered (site_disk self.old).orders }
    {
        let running = mem::replace(self, NodeSlot::Down(MemDisk::new(alloc)));
        // What stood in for the node goes by a call.
        drop(mem::replace(self, stopped(running)));
    }

    /// Starts the node of this place, which is down, from its disk. An order may strike its start, and then the disk is left, with
    /// the power on again. Fails where memory runs out.
    pub fn start(&mut self, alloc: Global, place: Place) -> Result<(), AllocError>
        requires ready { CanStart place self.old }
        ensures tried { OnOk result (TriedFrom place self.old self.new) }
    {
        let resting = mem::replace(self, NodeSlot::Down(MemDisk::new(alloc)));
        let tried = started(alloc, place, resting)?;
        drop(mem::replace(self, tried));
        Ok(())
    }
}

/// A node of this place, just made on an empty disk. Fails where memory runs out.
#[tactic(auto, using(crate::proofs::StartedLemmas::made_without))]
pub fn made(alloc: Global, place: Place) -> Result<NodeSlot, AllocError>
    requires { place.undo ≤ 1024 }
    ensures kept { IfOk result (λ slot. site_kept slot ≡ Some made_by) }
    ensures runs { IfOk result (RunsAt place) }
    ensures holds { IfOk result (λ slot. HoldRecords (records.Boot 1 ∷ []) (bytes_of (site_disk slot))) }
    ensures starts { IfOk result (λ slot. CanBeStarted place.undo bytes_of images_of (site_disk slot)) }
    ensures orders { IfOk result (λ slot. HasOrders no_orders (site_disk slot)) }
{
    match Node::make(alloc, MemDisk::new(alloc), place) {
        Ok(node) => Ok(NodeSlot::Up(node)),
        Err(
            MakeErr {
                disk: _disk,
                why: _why,
            },
        ) => Err(AllocError),
    }
}

// What a stop leaves of a node: its disk.
fn stopped(slot: NodeSlot) -> NodeSlot
    ensures kept { site_kept result ≡ None }
    ensures bytes { bytes_of (site_disk result) ≡ bytes_of (site_disk slot) }
    ensures starts { (undo : ℕ) → CanBeStarted undo bytes_of images_of (site_disk slot) → CanBeStarted undo bytes_of images_of (site_disk result) }
    ensures power { (site_disk result).orders ≡ powered (site_disk slot).orders }
{
    match slot {
        NodeSlot::Up(node) => rested(node.into_disk()),
        NodeSlot::Down(disk) => rested(disk),
    }
}

// A disk that is no more stopped.
fn rested(disk: MemDisk) -> NodeSlot
    ensures kept { site_kept result ≡ None }
    ensures bytes { bytes_of (site_disk result) ≡ bytes_of disk }
    ensures starts { (undo : ℕ) → CanBeStarted undo bytes_of images_of disk → CanBeStarted undo bytes_of images_of (site_disk result) }
    ensures power { (site_disk result).orders ≡ powered disk.orders }
{
    let mut disk = disk;
    disk.power_on();
    NodeSlot::Down(disk)
}

// The node started from its disk, or the disk where an order struck the start.
fn started(alloc: Global, place: Place, slot: NodeSlot) -> Result<NodeSlot, AllocError>
    requires ready { CanStart place slot }
    ensures tried { IfOk result (TriedFrom place slot) }
{
    match slot {
        NodeSlot::Down(disk) => start_disk(alloc, place, disk),
        NodeSlot::Up(_node) => unreachable!(),
    }
}

// The node started from this disk, or the disk where an order struck the start.
#[tactic(auto, using(crate::proofs::StartedLemmas::start_leaves))]
fn start_disk(alloc: Global, place: Place, disk: MemDisk) -> Result<NodeSlot, AllocError>
    requires ready { CanStart place (Down disk) }
    ensures tried { IfOk result (TriedFrom place (Down disk)) }
{
    // Only for the proof: the disk's bytes are those of a slice, so they are fewer than 2^63.
    let _bytes = disk.bytes().len();
    match Node::start(alloc, disk, place) {
        Ok(node) => Ok(NodeSlot::Up(node)),
        Err(
            MakeErr {
                disk,
                why: MakeWhy::Fault,
            },
        ) => Ok(rested(disk)),
        Err(
            MakeErr {
                disk: _disk,
                why: MakeWhy::NoMemory,
            },
        ) => Err(AllocError),
    }
}
