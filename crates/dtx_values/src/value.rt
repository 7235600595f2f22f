//! What a cell holds.
ghost use Rattle.std.specs.Prelude.{◌≡◌};

use crate::{Duplicate, Listing, Str};
use std::alloc::{AllocError, Global};

/// Bytes in order.
pub type Bytes = Listing<u8>;

/// Texts in order.
pub type Texts = Listing<Bytes>;

/// What a cell of a row holds. NULL comes first in order, then the numbers by value, and then the texts by their bytes.
#[derive(Drop, PartialEq, Eq, PartialOrd, Ord, Hash)]
pub enum Value {
    /// NULL.
    Null,
    /// A number of the type NUMBER.
    Number(i64),
    /// A text of the type VARCHAR2.
    Text(Str),
}

/// The cells of a row, in the order of the table's columns.
pub type Cells = Listing<Value>;

impl Duplicate for Value {
    fn copy(&self, alloc: Global) -> Result<Value, AllocError> {
        match self {
            Value::Null => Ok(Value::Null),
            Value::Number(number) => Ok(Value::Number(*number)),
            Value::Text(text) => Ok(Value::Text(text.copy(alloc)?)),
        }
    }
}
