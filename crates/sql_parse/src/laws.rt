//! What holds of all texts. These functions do nothing: their contracts are the theorems.
ghost use Rattle.std.specs.Prelude.{◌≡◌, ℕ, List, Some};
ghost use Rattle.dtx_values.specs.declared.table.Table.{Table};
ghost use Rattle.sql_statement.specs.declared.statement.Stmt.{Stmt};
ghost use Rattle.sql_statement.specs.declared.statement.Stmt.TheVariants.{CreateTable};
ghost use Rattle.sql_parse.specs.Statement.{IsStatement, statement_of};
ghost use Rattle.sql_statement.specs.Whole.{IsWhole, IsWholeTable};

/// No text spells two statements.
pub fn one_reading()
    ensures { (text : List ℕ) (a b : Stmt) → IsStatement a text → IsStatement b text → a ≡ b }
{}

/// The statement that is found is the one that is spelled.
pub fn spelled_statements_are_found()
    ensures found { (text : List ℕ) (s : Stmt) → IsStatement s text → statement_of text ≡ Some s }
    ensures spelled { (text : List ℕ) (s : Stmt) → statement_of text ≡ Some s → IsStatement s text }
{}

/// A table that is created has 1 to 32 columns of different names, exactly one of them is the key, and each column of texts has
/// a width of 1 to 2,000 bytes.
pub fn created_tables_are_whole()
    ensures { (t : Table) (text : List ℕ) → IsStatement (CreateTable t) text → IsWholeTable t }
{}

/// What a node may store of a statement that is spelled is whole: a table as above, names in upper case, literals that are
/// numbers of 64 bits or UTF-8 of 1 to 2,000 bytes, a comment of UTF-8 of at most 255 bytes, and ids of UTF-8 of at most 2,000
/// bytes.
pub fn spelled_statements_are_whole()
    ensures { (s : Stmt) (text : List ℕ) → IsStatement s text → IsWhole s }
{}
