//! Laws of lengths: a printed statement is at most three times as long as its text.
//!
//! A statement goes to another node as its printed text (sql_print), while a script's limit is on the text that it is read from
//! (sql_parse). Here the printed text is bounded by the text that was read.
#![tactic(auto)]

ghost use Rattle.std.specs.Prelude.{◌≡◌, ◌≤◌, ◌<◌, ◌+◌, ◌*◌, ◌^◌, ℕ, Bool, List, length, Option, Some, codes};
ghost use Rattle.std.specs.Option.{option_map};
ghost use Rattle.dtx_values.specs.Limits.{name_limit, script_limit};
ghost use Rattle.sql_statement.specs.declared.condition.Cond.{Cond};
ghost use Rattle.sql_statement.specs.declared.query.Picked.{Picked};
ghost use Rattle.sql_statement.specs.declared.statement.Set.{Set};
ghost use Rattle.sql_statement.specs.declared.statement.Stmt.{Stmt};
ghost use Rattle.sql_statement.specs.declared.statement.Stmt.TheVariants.{Insert, Update, Delete, Select};
ghost use Rattle.sql_statement.specs.declared.statement.TableRef.{TableRef};
ghost use Rattle.sql_statement.specs.declared.sum.Sum.{Sum};
ghost use Rattle.sql_parse.specs.Statement.{IsStatement, statement_of};
ghost use Rattle.sql_print.specs.Printing.{table_text, printed};

/// The printed text of a statement has at most seven bytes for each three of a text that spells it, so at most three for each.
/// Nearest to seven comes a sum of empty texts, where `+''` is printed as ` + NULL`. So a statement of a script is printed in
/// fewer than 4 MiB, with any name beside it.
pub fn printed_statements_are_bounded()
    ensures sevenths { (s : Stmt) (text : List ℕ) → IsStatement s text → 3 * length (printed s) ≤ 7 * length text }
    ensures thrice { (s : Stmt) (text : List ℕ) → IsStatement s text → length (printed s) ≤ 3 * length text }
    ensures of_scripts { (s : Stmt) (text : List ℕ) → IsStatement s text → length text ≤ script_limit → length (printed s) + name_limit < 2 ^ 22 }
{}

/// Where another table is put into a statement, as for a synonym, its printed text changes by the length of the table alone.
pub fn another_table_adds_its_own_length()
    ensures insert { (t u : TableRef) (columns : Option (List (List ℕ))) (values : List Sum)
        → length (printed (Insert t columns values)) + length (table_text u) ≡ length (printed (Insert u columns values)) + length (table_text t) }
    ensures update { (t u : TableRef) (sets : List Set) (conds : List Cond)
        → length (printed (Update t sets conds)) + length (table_text u) ≡ length (printed (Update u sets conds)) + length (table_text t) }
    ensures delete { (t u : TableRef) (conds : List Cond)
        → length (printed (Delete t conds)) + length (table_text u) ≡ length (printed (Delete u conds)) + length (table_text t) }
    ensures select { (list : Picked) (t u : TableRef) (conds : List Cond) (for_update : Bool)
        → length (printed (Select list t conds for_update)) + length (table_text u) ≡ length (printed (Select list u conds for_update)) + length (table_text t) }
{}

/// Two statements, read and printed: FROM and blanks are put in, `!=` is printed as `<>`, and an empty text as NULL. Twice the
/// text would not do as a bound, since the 59 bytes of the second are printed in 119.
pub fn two_statements_are_printed()
    ensures longer { option_map printed (statement_of (codes "delete t where a!=''and b is null")) ≡ Some (codes "DELETE FROM T WHERE A <> NULL AND B IS NULL") }
    ensures doubled { option_map (λ s. length (printed s)) (statement_of (codes "UPDATE T SET A=''+''+''+''+''+''+''+''+''+''+''+''+''+''+''")) ≡ Some 119 }
{}
