//! The nodes of a run, by their numbers, from 1.
ghost use Rattle.std.specs.Prelude.{◌≡◌, ◌≤◌, ℕ, length, Some, None, is_some, option_map, IfOk};
ghost use Rattle.std.specs.Option.{option_copied};
ghost use Rattle.tran_ids.specs.Listed.{numbered};
ghost use Rattle.redo_record.specs.declared.place.Place.{Place as PlaceBy};
ghost use Rattle.run_rules.specs.Commands.{has_transaction as has_transaction_by, is_enabled as is_enabled_by};
ghost use Rattle.node_disk.specs.OnDisk.{kept_of};
ghost use Rattle.world.specs.Slots.{kept_at, AreMade};

use crate::slot::{NodeSlot, made};
use block_disk::MemDisk;
use dtx_values::Duplicate;
use node_disk::Node;
use redo_record::Place;
use std::alloc::{AllocError, Global};

/// The node of a number.
pub fn site_at(slots: &[NodeSlot], node: u8) -> Option<&NodeSlot>
    ensures { option_copied result ≡ numbered slots.now node }
{
    match node.checked_sub(1) {
        None => None,
        Some(place) => slots.get(usize::from(place)),
    }
}

/// The node of a number, where it is up.
pub fn node_at(slots: &[NodeSlot], node: u8) -> Option<&Node<MemDisk>>
    ensures { option_map kept_of (option_copied result) ≡ kept_at slots.now node }
{
    match site_at(slots, node) {
        None => None,
        Some(slot) => slot.node(),
    }
}

/// Whether the node of a number is up.
pub fn is_up(slots: &[NodeSlot], node: u8) -> bool
    ensures { result ≡ is_some (kept_at slots.now node) }
{
    match site_at(slots, node) {
        None => false,
        Some(slot) => slot.is_up(),
    }
}

/// Whether a session of the node of a number has a transaction.
pub fn has_transaction(slots: &[NodeSlot], node: u8, session: u32) -> bool
    ensures { result ≡ has_transaction_by (kept_at slots.now node) session }
{
    match site_at(slots, node) {
        None => false,
        Some(slot) => slot.has_transaction(session),
    }
}

/// Whether distributed recovery is enabled at the node of a number, and it is up.
pub fn is_enabled(slots: &[NodeSlot], node: u8) -> bool
    ensures { result ≡ is_enabled_by (kept_at slots.now node) }
{
    match site_at(slots, node) {
        None => false,
        Some(slot) => slot.is_enabled(),
    }
}

/// Nodes of these places, each just made on an empty disk. Fails where memory runs out.
pub fn made_all(alloc: Global, places: &[Place]) -> Result<Vec<NodeSlot>, AllocError>
    requires { (n : ℕ) (p : PlaceBy) → numbered places.now n ≡ Some p → p.undo ≤ 1024 }
    ensures count { IfOk result (λ slots. length slots.items ≡ length places.now) }
    ensures made { IfOk result (λ slots. AreMade places.now slots.items) }
{
    let mut slots = Vec::with_capacity(alloc, places.len())?;
    for place in places {
        let place = place.copy(alloc)?;
        slots.push(made(alloc, place)?)?;
    }
    Ok(slots)
}
