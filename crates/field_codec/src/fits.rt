//! That values have a spelling.
//!
//! `put_into` asks for a value that has a spelling. What names, values and the like are made of is an invariant of their
//! types, which is known where they are read: these functions read them, and say it in the words of the formats.
ghost use Rattle.std.specs.Prelude.{IsTrue, IfSome};
ghost use Rattle.std.specs.List.{All, AllByRecursion};
ghost use Rattle.field_codec.specs.Branch.{branch_format};
ghost use Rattle.field_codec.specs.Name.{name_format};
ghost use Rattle.field_codec.specs.Text.{text_format};
ghost use Rattle.field_codec.specs.Value.{value_format, row_format};
ghost use Rattle.field_codec.specs.Change.{is_key, change_format};
ghost use Rattle.field_codec.specs.Table.{is_columns, column_format, table_format};
ghost use Rattle.field_codec.specs.Fits.{HasCount};
ghost use Rattle.dtx_values.specs.Widths.{HasWidth};

use dtx_values::{Change, Column, Name, Row, Str, Table, Value};
use tran_ids::BranchId;

/// Each name has a spelling.
pub fn name_fits(name: &Name)
    ensures { name_format.Fits name.now }
{
    let _bytes = name.as_bytes();
}

/// Each text has a spelling.
fn text_fits(text: &Str)
    ensures { text_format.Fits text.now }
{
    let _bytes = text.as_bytes();
}

/// Each value has a spelling.
pub fn value_fits(value: &Value)
    ensures { value_format.Fits value.now }
{
    match value {
        Value::Null => {}
        Value::Number(number) => {
            let _number = *number;
        }
        Value::Text(text) => text_fits(text),
    }
}

/// Each branch has a spelling.
pub fn branch_fits(branch: &BranchId)
    ensures { branch_format.Fits branch.now }
{
    let _node = branch.node;
    let _boot = branch.boot;
    let _session = branch.session;
    let _seq = branch.seq;
}

/// Each of these values has a spelling.
fn values_fit(values: &[Value])
    ensures { AllByRecursion value_format.Fits values.now }
{
    for value in values {
        value_fits(value);
    }
}

/// A row has a spelling if one byte is enough to count its cells.
pub fn row_fits(row: &Row)
    requires { HasCount row.now }
    ensures { row_format.Fits row.now }
{
    values_fit(row.cells.as_slice());
}

/// A change has a spelling if its key is not NULL, and one byte is enough to count the cells of the row after it, if
/// there is one.
pub fn change_fits(change: &Change)
    requires key { IsTrue (is_key change.now.key) }
    requires few { IfSome change.now.after HasCount }
    ensures { change_format.Fits change.now }
{
    name_fits(&change.table);
    value_fits(&change.key);
    if let Some(row) = &change.after {
        row_fits(row);
    }
}

/// A column has a spelling if it has a width that columns may have.
fn column_fits(column: &Column)
    requires { HasWidth column.now }
    ensures { column_format.Fits column.now }
{
    name_fits(&column.name);
    let _text_max = column.text_max;
}

/// Each of these columns has a spelling if its width is one that columns may have.
fn columns_fit(columns: &[Column])
    requires { All HasWidth columns.now }
    ensures { AllByRecursion column_format.Fits columns.now }
{
    for column in columns {
        column_fits(column);
    }
}

/// A table has a spelling if it may have these columns, and each has a width that columns may have.
pub fn table_fits(table: &Table)
    requires columns { IsTrue (is_columns table.now.columns) }
    requires widths { All HasWidth table.now.columns }
    ensures { table_format.Fits table.now }
{
    name_fits(&table.name);
    columns_fit(table.columns.as_slice());
}
