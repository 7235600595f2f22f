//! Sums: the expressions of the subset (SQL Language Reference, "Expressions").
ghost use Rattle.std.specs.Prelude.{◌≡◌};

use dtx_values::{Duplicate, Listing, Name, Value};
use std::alloc::{AllocError, Global};

/// One term of a sum.
pub enum Term {
    /// What the row has in this column.
    Column(Name),
    /// A literal.
    Literal(Value),
}

impl Drop for Term {
    fn drop(self) {
        match self {
            Term::Column(name) => drop(name),
            Term::Literal(value) => drop(value),
        }
    }
}

impl Duplicate for Term {
    fn copy(&self, alloc: Global) -> Result<Term, AllocError> {
        match self {
            Term::Column(name) => Ok(Term::Column(name.copy(alloc)?)),
            Term::Literal(value) => Ok(Term::Literal(value.copy(alloc)?)),
        }
    }
}

/// A further term, added or subtracted.
pub struct Step {
    /// Whether the term is subtracted.
    pub minus: bool,
    /// The term.
    pub term: Term,
}

impl Drop for Step {
    fn drop(self) {
        let Step {
            minus: _minus,
            term,
        } = self;
        drop(term);
    }
}

/// The terms after the first, from left to right.
pub type Steps = Listing<Step>;

impl Duplicate for Step {
    fn copy(&self, alloc: Global) -> Result<Step, AllocError> {
        let term = self.term.copy(alloc)?;
        Ok(Step {
            minus: self.minus,
            term,
        })
    }
}

/// A term, or several terms that are added up from left to right.
pub struct Sum {
    /// The first term.
    pub first: Term,
    /// The terms after it, with their signs.
    pub rest: Steps,
}

impl Drop for Sum {
    fn drop(self) {
        let Sum { first, rest } = self;
        drop(first);
        drop(rest);
    }
}

/// Sums in order.
pub type Sums = Listing<Sum>;

impl Duplicate for Sum {
    fn copy(&self, alloc: Global) -> Result<Sum, AllocError> {
        Ok(Sum {
            first: self.first.copy(alloc)?,
            rest: self.rest.copy(alloc)?,
        })
    }
}
