//! What holds of the printed texts. These functions do nothing: their contracts are the theorems.
ghost use Rattle.std.specs.Prelude.{◌≡◌, ℕ, List, Some};
ghost use Rattle.sql_statement.specs.declared.statement.Stmt.{Stmt};
ghost use Rattle.sql_parse.specs.Statement.{IsStatement, statement_of};
ghost use Rattle.sql_print.specs.Printing.{printed, IsPrintable};

/// The printed text of a statement spells it, if any text does, and is read as it.
pub fn printed_statements_are_read()
    // A statement that some text spells is spelled by its printed text.
    ensures spelled { (text : List ℕ) (s : Stmt) → IsStatement s text → IsPrintable s }
    // The statement that a text is read as is printed so that it is read again.
    ensures again { (text : List ℕ) (s : Stmt) → statement_of text ≡ Some s → IsPrintable s }
    // The printed text is read as the statement.
    ensures found { (s : Stmt) → IsPrintable s → statement_of (printed s) ≡ Some s }
{}

/// Different statements are printed differently.
pub fn printed_statements_differ()
    ensures { (s t : Stmt) → IsPrintable s → IsPrintable t → printed s ≡ printed t → s ≡ t }
{}
