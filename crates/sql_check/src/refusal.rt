//! Refusals.
ghost use Rattle.std.specs.Prelude.{◌≡◌, [], ◌∷◌, IfOk};
ghost use Rattle.sql_check.specs.Refusals.{ora};
ghost use Rattle.sql_check.specs.Checks.{column_refusal};
ghost use Rattle.tran_ids.specs.Numbers.{decimal};

use dtx_values::{Bytes, Column, Listing, Name, Refusal, Table};
use std::alloc::{AllocError, Global};
use tran_ids::put_decimal;

/// A refusal whose text names nothing.
pub fn plain(alloc: Global, code: u16) -> Refusal
    ensures { result ≡ ora code [] }
{
    Refusal {
        code,
        args: Listing::new(alloc),
    }
}

fn text_of(alloc: Global, name: &Name) -> Result<Bytes, AllocError>
    ensures { IfOk result (λ text. text ≡ name.now) }
{
    Ok(Listing::of(Vec::from_slice(alloc, name.as_bytes())?))
}

fn number_text(alloc: Global, number: usize) -> Result<Bytes, AllocError>
    ensures { IfOk result (λ text. text ≡ decimal number) }
{
    let mut text = Vec::new(alloc);
    put_decimal(&mut text, number as u64)?;
    Ok(Listing::of(text))
}

/// A refusal that names a table or a column.
pub fn of_name(alloc: Global, code: u16, name: &Name) -> Result<Refusal, AllocError>
    ensures { IfOk result (λ refusal. refusal ≡ ora code (name.now ∷ [])) }
{
    let text = text_of(alloc, name)?;
    Ok(Refusal {
        code,
        args: Listing::of(vec![in alloc; text]?),
    })
}

/// A refusal that names a column of a table.
pub fn of_column(
    alloc: Global,
    code: u16,
    table: &Table,
    column: &Column,
) -> Result<Refusal, AllocError>
    ensures { IfOk result (λ refusal. refusal ≡ column_refusal code table.now column.now) }
{
    let table = text_of(alloc, &table.name)?;
    let column = text_of(alloc, &column.name)?;
    Ok(Refusal {
        code,
        args: Listing::of(vec![in alloc; table, column]?),
    })
}

/// ORA-12899: a text of so many bytes in a column of at most so many.
pub fn of_width(
    alloc: Global,
    table: &Table,
    column: &Column,
    length: usize,
    width: u16,
) -> Result<Refusal, AllocError>
    ensures { IfOk result (λ refusal. refusal ≡ ora 12899 (table.now.name ∷ column.now.name ∷ decimal length ∷ decimal width ∷ [])) }
{
    let table = text_of(alloc, &table.name)?;
    let column = text_of(alloc, &column.name)?;
    let length = number_text(alloc, length)?;
    let width = number_text(alloc, usize::from(width))?;
    Ok(Refusal {
        code: 12899,
        args: Listing::of(vec![in alloc; table, column, length, width]?),
    })
}
