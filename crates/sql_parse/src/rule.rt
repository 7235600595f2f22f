//! The constraints of a column.
ghost use Rattle.std.specs.Prelude.{◌≡◌};

/// A constraint of a column (SQL Language Reference, "constraint").
#[derive(Clone, Copy, Debug, PartialEq, Eq)]
pub enum Rule {
    /// NOT NULL
    NotNull,
    /// PRIMARY KEY
    PrimaryKey,
}
