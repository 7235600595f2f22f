//! In which row of the picture each happening stands.
ghost use Rattle.std.specs.Prelude.{◌≡◌, ◌+◌, ◌≤◌, ◌^◌, max, length, IfOk, OnErr};
ghost use Rattle.std.specs.Option.{option_copied};
ghost use Rattle.tran_ids.specs.Listed.{numbered};
ghost use Rattle.chart_marks.specs.Rows.{height_of, height_at, start, free_row, row_of, begun, next_row, cursor_after, rows_of};

use crate::mark::Told;
use book::Happening;
use std::alloc::{AllocError, Global};

/// Where the next happening stands.
#[derive(Clone, Copy, Debug)]
pub(crate) struct Cursor {
    /// The next row.
    pub(crate) row: u32,
    /// The first row below the texts of the commands so far.
    pub(crate) floor: u32,
}

/// A row so much further down. It is an error where the picture would have too many rows.
pub(crate) fn below(row: u32, count: u32) -> Result<u32, AllocError>
    ensures below { IfOk result (λ below. below ≡ row + count) }
    ensures many { OnErr result (2 ^ 32 ≤ row + count) }
{
    match row.checked_add(count) {
        Some(below) => Ok(below),
        None => Err(AllocError),
    }
}

/// A number of lines. It is an error where there are too many.
pub(crate) fn count(lines: usize) -> Result<u32, AllocError>
    ensures count { IfOk result (λ count. count ≡ lines) }
    ensures many { OnErr result (2 ^ 32 ≤ lines) }
{
    match u32::try_from(lines) {
        Ok(count) => Ok(count),
        Err(_) => Err(AllocError),
    }
}

fn height(told: &Told) -> Result<u32, AllocError>
    ensures { IfOk result (λ height. height ≡ height_of told.now) }
{
    let text = count(told.text.as_slice().len())?;
    let answer = count(told.answer.as_slice().len())?;
    Ok(1u32.max(text.max(answer)))
}

/// What was told of a command.
pub(crate) fn told_at(tale: &[Told], command: u32) -> Option<&Told>
    ensures { option_copied result ≡ numbered tale.now command }
{
    tale.get(command.checked_sub(1)? as usize)
}

fn height_told(tale: &[Told], command: u32) -> Result<u32, AllocError>
    ensures { IfOk result (λ height. height ≡ height_at (numbered tale.now command)) }
{
    match told_at(tale, command) {
        None => Ok(1),
        Some(told) => height(told),
    }
}

impl Cursor {
    /// Before any happening.
    pub(crate) fn start() -> Cursor
        ensures { result ≡ start }
    {
        Cursor { row: 0, floor: 0 }
    }

    /// The first row that no earlier command needs.
    pub(crate) fn free_row(self) -> u32
        ensures { result ≡ free_row self }
    {
        self.row.max(self.floor)
    }

    /// The row of a happening.
    pub(crate) fn row_of(self, happening: &Happening) -> u32
        ensures { result ≡ row_of self happening.now }
    {
        match happening {
            Happening::Begun { command: _command } => self.free_row(),
            _ => self.row,
        }
    }

    fn next_row(self) -> Result<Cursor, AllocError>
        ensures { IfOk result (λ next. next ≡ next_row self) }
    {
        let row = below(self.row, 1)?;
        Ok(Cursor {
            row,
            floor: self.floor,
        })
    }

    fn begun(self, tale: &[Told], command: u32) -> Result<Cursor, AllocError>
        ensures { IfOk result (λ next. next ≡ begun tale.now self command) }
    {
        let row = self.free_row();
        let floor = below(row, height_told(tale, command)?)?;
        Ok(Cursor { row, floor })
    }

    /// Behind a happening. It is an error where the picture would have too many rows.
    pub(crate) fn after(self, tale: &[Told], happening: &Happening) -> Result<Cursor, AllocError>
        ensures { IfOk result (λ next. next ≡ cursor_after tale.now self happening.now) }
    {
        match happening {
            Happening::Begun { command } => self.begun(tale, *command),
            _ => self.next_row(),
        }
    }
}

/// How many rows the picture has. It is an error where it would have too many.
pub(crate) fn rows(tale: &[Told], trace: &[Happening]) -> Result<u32, AllocError>
    ensures { IfOk result (λ rows. rows ≡ rows_of tale.now trace.now) }
{
    let mut cursor = Cursor::start();
    for happening in trace {
        cursor = cursor.after(tale, happening)?;
    }
    Ok(cursor.free_row())
}
