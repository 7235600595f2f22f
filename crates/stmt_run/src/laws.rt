//! The laws of a statement over the store of a node, each the contract of a function that does nothing. By them the store can
//! test the space of a statement's changes in place of the statement.
ghost use Rattle.stmt_run.specs.Stored.{StoreRefusesAlike, StoreTakesOneSet};

/// A store refuses the changes of a statement exactly where the rules of space do, and by the same refusal.
pub fn store_refuses_alike()
    ensures { StoreRefusesAlike }
{}

/// The changes of a statement that a store takes are one more set of its branch, over the rows that the branch saw.
pub fn store_takes_one_set()
    ensures { StoreTakesOneSet }
{}
