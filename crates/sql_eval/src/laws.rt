//! The laws of statements over the rows of one table, each the contract of a function that does nothing.
//!
//! Those of statements that fix a key let a node look at the one row of the key in place of all rows of the table. Those of
//! the changes that a statement makes let it keep them without a look at them: each is one of the statement's table, and
//! leaves rows of that table.
ghost use Rattle.sql_eval.specs.Laws.{ChangesAreOfTable, ChangesAreOfWritten, CountIsLength, FoundAtKey, MeantAtKey, RowsAreKeyed, RowsStay, StaysKeyed, TablesHaveOneKey, WholeTablesHaveOneKey, WrittenAtKey};

/// In a table with one key column and columns of different names, a name is that of the key exactly where it stands at
/// the key's place.
pub fn tables_have_one_key()
    ensures { TablesHaveOneKey }
{}

/// Each table that a text creates has one key column and columns of different names.
pub fn whole_tables_have_one_key()
    ensures { WholeTablesHaveOneKey }
{}

/// A WHERE that fixes a key finds only rows at it.
pub fn found_at_key()
    ensures { FoundAtKey }
{}

/// A statement that fixes a key writes what it would write if there were no other rows.
pub fn written_at_key()
    ensures { WrittenAtKey }
{}

/// A statement that fixes a key means what it would mean if there were no other rows.
pub fn meant_at_key()
    ensures { MeantAtKey }
{}

/// What the changes of an accepted statement leave has its keys in the key column, as the rows before.
pub fn stays_keyed()
    ensures { StaysKeyed }
{}

/// Each change of an accepted statement is of its table: under the table's name, at a key that is not NULL, and to no row or
/// to one that has a cell for each column and that key in the key column, as each row had before.
pub fn changes_are_of_table()
    ensures { ChangesAreOfTable }
{}

/// Changes leave rows of a table, each at its key, where those under the table's name are of the table.
pub fn rows_stay()
    ensures { RowsStay }
{}

/// Rows of a table have their keys in the key column.
pub fn rows_are_keyed()
    ensures { RowsAreKeyed }
{}

/// A statement tells how many changes it makes.
pub fn count_is_length()
    ensures { CountIsLength }
{}

/// A statement changes the keys that it writes, in their order.
pub fn changes_are_of_written()
    ensures { ChangesAreOfWritten }
{}
