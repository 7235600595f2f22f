//! Laws of lengths: those by which values, rows and changes are counted are those of their bytes.
//!
//! How large the changes of a branch may be, and how much undo they need, is said of lengths that are computed from values
//! (sql_eval). The bytes themselves stand in records and in undo (field_codec). Here both are shown to be one.
#![tactic(auto)]

ghost use Rattle.std.specs.Prelude.{◌≡◌, List, length, flat_map, sum_by, Option};
ghost use Rattle.dtx_values.specs.declared.value.Value.{Value};
ghost use Rattle.dtx_values.specs.declared.row.Row.{Row};
ghost use Rattle.dtx_values.specs.declared.row.Change.{Change};
ghost use Rattle.byte_format.specs.Part.{optional};
ghost use Rattle.field_codec.specs.Value.{value_format, row_format};
ghost use Rattle.field_codec.specs.Change.{change_format};
ghost use Rattle.sql_eval.specs.Rows.{value_length, row_length, change_length};

/// The length of a value, of a row or of none, of a change, and of changes one after the other is the number of bytes that
/// spell it.
pub fn lengths_are_those_of_bytes()
    ensures values { (v : Value) → value_length v ≡ length (value_format.text v) }
    ensures rows { (row : Option Row) → row_length row ≡ length ((optional row_format).text row) }
    ensures changes { (c : Change) → change_length c ≡ length (change_format.text c) }
    ensures lists { (cs : List Change) → sum_by change_length cs ≡ length (flat_map change_format.text cs) }
{}
