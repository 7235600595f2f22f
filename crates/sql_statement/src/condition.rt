//! The conditions of a WHERE (SQL Language Reference, "Conditions").
ghost use Rattle.std.specs.Prelude.{◌≡◌};

use dtx_values::{Duplicate, Listing, Name, Value};
use std::alloc::{AllocError, Global};

/// The sign of a comparison.
#[derive(Clone, Copy, Debug, PartialEq, Eq)]
pub enum Sign {
    /// `=`
    Eq,
    /// `<>` or `!=`
    Ne,
    /// `<`
    Lt,
    /// `<=`
    Le,
    /// `>`
    Gt,
    /// `>=`
    Ge,
}

impl Duplicate for Sign {
    fn copy(&self, _alloc: Global) -> Result<Sign, AllocError> {
        Ok(*self)
    }
}

/// One condition on a row.
pub enum Cond {
    /// `column sign literal`
    Compare {
        /// The column that is compared.
        column: Name,
        /// How it is compared.
        sign: Sign,
        /// What it is compared with.
        literal: Value,
    },
    /// `column IS NULL`, or `column IS NOT NULL` where it is negated.
    IsNull {
        /// The column that is tested.
        column: Name,
        /// Whether NOT stands.
        negated: bool,
    },
}

impl Drop for Cond {
    fn drop(self) {
        match self {
            Cond::Compare {
                column,
                sign: _sign,
                literal,
            } => {
                drop(column);
                drop(literal);
            }
            Cond::IsNull {
                column,
                negated: _negated,
            } => drop(column),
        }
    }
}

/// The conditions of a WHERE, joined by AND; none where a statement has no WHERE.
pub type Conds = Listing<Cond>;

impl Duplicate for Cond {
    fn copy(&self, alloc: Global) -> Result<Cond, AllocError> {
        match self {
            Cond::Compare {
                column,
                sign,
                literal,
            } => {
                let column = column.copy(alloc)?;
                let literal = literal.copy(alloc)?;
                Ok(Cond::Compare {
                    column,
                    sign: *sign,
                    literal,
                })
            }
            Cond::IsNull { column, negated } => {
                let column = column.copy(alloc)?;
                Ok(Cond::IsNull {
                    column,
                    negated: *negated,
                })
            }
        }
    }
}
