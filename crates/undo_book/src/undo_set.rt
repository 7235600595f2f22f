//! The undo of the changes of one statement.
ghost use Rattle.std.specs.Prelude.{◌≡◌, [], ◌∷◌, ◌++◌, length, IsTrue, IfSome, OnOk, OnErr};
ghost use Rattle.std.specs.Option.{option_copied};
ghost use Rattle.field_codec.specs.Change.{is_key};
ghost use Rattle.field_codec.specs.Fits.{HasCount};
ghost use Rattle.undo_book.specs.Undo.{with_row, undo_text, IsUndo, changes_in};

use crate::spelling::{put_undo, undo_fits};
use dtx_values::{Change, Row};
use std::alloc::{AllocError, Global};
use std::marker::Model;

/// The undo of changes, before it comes into a pool: each change with the row from before it, as bytes.
#[derive(Drop)]
pub struct UndoSet {
    bytes: Vec<u8>,
}

impl Model for UndoSet {
    ghost use Rattle.std.specs.Prelude.{List};
    ghost use Rattle.dtx_values.specs.declared.row.Change.{Change};
    ghost use Rattle.undo_book.specs.Undo.{IsUndo, changes_in};

    ghost Value = { List Change };

    ghost view = { λ s. changes_in s.bytes.items };

    // The bytes are those of the changes that they say.
    ghost invariant = { λ s. IsUndo s.bytes.items };
}

impl UndoSet {
    /// No undo.
    pub fn new(alloc: Global) -> UndoSet
        ensures { result ≡ [] }
    {
        UndoSet {
            bytes: Vec::new(alloc),
        }
    }

    /// Adds the undo of a change: its table and key, with the row from before it, or that there was none. The key is not
    /// NULL, and the row has at most 255 cells. Fails where memory runs out, and all is as before then.
    pub fn push(&mut self, change: &Change, before: Option<&Row>) -> Result<(), AllocError>
        requires key { IsTrue (is_key change.now.key) }
        requires few { IfSome (option_copied before) HasCount }
        ensures ok { OnOk result (self.new ≡ self.old ++ with_row change.now (option_copied before.entry) ∷ []) }
        ensures err { OnErr result (self.new ≡ self.old) }
    {
        undo_fits(change, before);
        let len = self.bytes.len();
        match put_undo(&mut self.bytes, change, before) {
            Ok(()) => Ok(()),
            Err(error) => {
                self.bytes.truncate(len);
                Err(error)
            }
        }
    }

    /// The bytes.
    pub(crate) fn bytes(&self) -> &[u8]
        ensures bytes { result.now ≡ undo_text self.now }
        ensures changes { changes_in result.now ≡ self.now }
        ensures undo { IsUndo result.now }
    {
        self.bytes.as_slice()
    }

    /// How many bytes it takes.
    pub fn len(&self) -> usize
        ensures { result ≡ length (undo_text self.now) }
    {
        self.bytes().len()
    }
}
