//! The undo of branches, as changes in a pool of extents.
//!
//! The undo of a change is the change with the row from before it (Database Concepts: undo is what takes a change back). It
//! is kept as bytes, in the spelling of changes, one after the other: a branch's undo is one stream in the pool, over extents
//! that no other branch shares. Here the pool is seen as a list of changes for each owner, so that whoever keeps the changes
//! of branches sees no bytes. No call takes memory but those that make a pool, spell a change, or copy a branch's bytes.
#![tactic(auto)]

mod spelling;
mod undo_book;
mod undo_set;

pub use undo_book::UndoBook;
pub use undo_set::UndoSet;
