//! The bytes of tables, links and synonyms.
ghost use Rattle.std.specs.Prelude.{◌≡◌, ◌++◌, OnOk};
ghost use Rattle.std.specs.Io.{StartsWith};
ghost use Rattle.byte_format.specs.Reads.{Reads};
ghost use Rattle.dtx_values.specs.Widths.{is_width};
ghost use Rattle.field_codec.specs.Table.{type_format, column_format, is_columns, table_format, link_format, synonym_format};

use crate::name::{NameField, put_name};
use byte_format::{
    Field, NoSpelling, TakeErr, put_flag, put_list_u8, put_u8, put_u16, take_constant, take_flag,
    take_list_u8, take_u8, take_u16,
};
use dtx_values::{COLUMN_LIMIT, Column, Columns, Link, Synonym, TEXT_LIMIT, Table};
use std::alloc::{AllocError, Global};

/// Whether a column's texts may have so many bytes.
fn is_width(bytes: u16) -> bool
    ensures { result ≡ is_width bytes }
{
    1 <= bytes && usize::from(bytes) <= TEXT_LIMIT
}

/// Writes the spelling of a column's type at the end.
fn put_type(out: &mut Vec<u8>, text_max: Option<u16>) -> Result<(), AllocError>
    requires { type_format.Fits text_max }
    ensures written { OnOk result (out.new.items ≡ out.old.items ++ type_format.text text_max) }
    ensures kept { StartsWith out.new.items out.old.items }
{
    match text_max {
        None => {
            put_u8(out, 1)?;
            out.extend_from_slice(&[0, 0])
        }
        Some(width) => {
            put_u8(out, 2)?;
            put_u16(out, width)
        }
    }
}

/// The type of a column whose spelling is at the front, and the bytes after it. Fails exactly where none is there.
fn take_type(bytes: &[u8]) -> Result<(Option<u16>, &[u8]), NoSpelling>
    ensures { Reads (λ x. (x.0, x.1.now)) result (type_format.read bytes.now) }
{
    let (kind, rest) = take_u8(bytes)?;
    match kind {
        1 => {
            let rest = take_constant(rest, &[0, 0])?;
            Ok((None, rest))
        }
        2 => {
            let (width, rest) = take_u16(rest)?;
            if !is_width(width) {
                return Err(NoSpelling);
            }
            Ok((Some(width), rest))
        }
        _ => Err(NoSpelling),
    }
}

/// A column: its name, its type and width, whether it is not null, and whether it is the key.
pub struct ColumnField;

impl Field for ColumnField {
    type Value = Column;

    ghost format = { column_format };

    fn put_into(out: &mut Vec<u8>, column: &Column) -> Result<(), AllocError> {
        put_name(out, &column.name)?;
        put_type(out, column.text_max)?;
        put_flag(out, column.not_null)?;
        put_flag(out, column.key)
    }

    fn take_from(alloc: Global, bytes: &[u8]) -> Result<(Column, &[u8]), TakeErr> {
        let (name, rest) = NameField::take_from(alloc, bytes)?;
        let (text_max, rest) = take_type(rest)?;
        let (not_null, rest) = take_flag(rest)?;
        let (key, rest) = take_flag(rest)?;
        let column = Column {
            name,
            text_max,
            not_null,
            key,
        };
        Ok((column, rest))
    }
}

/// Whether a table may have these columns.
fn is_columns(columns: &[Column]) -> bool
    ensures { result ≡ is_columns columns.now }
{
    1 <= columns.len()
        && columns.len() <= COLUMN_LIMIT
        && columns.iter().filter(|column| column.key).count() == 1
}

/// A table: its name, and its columns after their count of one byte. Exactly one column is the key.
pub struct TableField;

impl Field for TableField {
    type Value = Table;

    ghost format = { table_format };

    fn put_into(out: &mut Vec<u8>, table: &Table) -> Result<(), AllocError> {
        put_name(out, &table.name)?;
        put_list_u8::<ColumnField>(out, table.columns.as_slice())
    }

    fn take_from(alloc: Global, bytes: &[u8]) -> Result<(Table, &[u8]), TakeErr> {
        let (name, rest) = NameField::take_from(alloc, bytes)?;
        let (columns, rest) = take_list_u8::<ColumnField>(alloc, rest)?;
        if !is_columns(&columns) {
            return Err(TakeErr::NoSpelling);
        }
        let columns = Columns::of(columns);
        Ok((Table { name, columns }, rest))
    }
}

/// A database link: its name, and the node that it leads to.
pub struct LinkField;

impl Field for LinkField {
    type Value = Link;

    ghost format = { link_format };

    fn put_into(out: &mut Vec<u8>, link: &Link) -> Result<(), AllocError> {
        put_name(out, &link.name)?;
        put_name(out, &link.target)
    }

    fn take_from(alloc: Global, bytes: &[u8]) -> Result<(Link, &[u8]), TakeErr> {
        let (name, rest) = NameField::take_from(alloc, bytes)?;
        let (target, rest) = NameField::take_from(alloc, rest)?;
        Ok((Link { name, target }, rest))
    }
}

/// A synonym: its name, the table, and the link.
pub struct SynonymField;

impl Field for SynonymField {
    type Value = Synonym;

    ghost format = { synonym_format };

    fn put_into(out: &mut Vec<u8>, synonym: &Synonym) -> Result<(), AllocError> {
        put_name(out, &synonym.name)?;
        put_name(out, &synonym.table)?;
        put_name(out, &synonym.link)
    }

    fn take_from(alloc: Global, bytes: &[u8]) -> Result<(Synonym, &[u8]), TakeErr> {
        let (name, rest) = NameField::take_from(alloc, bytes)?;
        let (table, rest) = NameField::take_from(alloc, rest)?;
        let (link, rest) = NameField::take_from(alloc, rest)?;
        Ok((Synonym { name, table, link }, rest))
    }
}
