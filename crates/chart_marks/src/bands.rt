//! The bands of commands.
ghost use Rattle.std.specs.Prelude.{◌≡◌, [], ◌∷◌, ◌++◌, IfOk, OnOk};
ghost use Rattle.tran_ids.specs.Listed.{numbered};
ghost use Rattle.chart_marks.specs.Rows.{start, along};
ghost use Rattle.chart_marks.specs.Marks.{band_of, bands_after};

use crate::cursor::{Cursor, told_at};
use crate::mark::{Band, Told};
use book::Happening;
use dtx_values::{Duplicate, Listing};
use std::alloc::{AllocError, Global};

fn band(alloc: Global, tale: &[Told], row: u32, command: u32) -> Result<Band, AllocError>
    ensures { IfOk result (λ band. band ≡ band_of row command (numbered tale.now command)) }
{
    match told_at(tale, command) {
        None => Ok(Band {
            command,
            row,
            text: Listing::new(alloc),
            answer: Listing::new(alloc),
        }),
        Some(told) => told_band(alloc, told, row, command),
    }
}

fn told_band(alloc: Global, told: &Told, row: u32, command: u32) -> Result<Band, AllocError>
    ensures { IfOk result (λ band. band ≡ record { command = command; row = row; text = told.now.text; answer = told.now.answer }) }
{
    let text = told.text.copy(alloc)?;
    let answer = told.answer.copy(alloc)?;
    Ok(Band {
        command,
        row,
        text,
        answer,
    })
}

fn add(
    bands: &mut Vec<Band>,
    alloc: Global,
    tale: &[Told],
    row: u32,
    happening: &Happening,
) -> Result<(), AllocError>
    ensures { OnOk result (bands.new.items ≡ bands_after tale.now bands.old.items row happening.now) }
{
    if let Happening::Begun { command } = happening {
        bands.push(band(alloc, tale, row, *command)?)?;
    }
    Ok(())
}

/// The bands of the commands that began. Fails where memory runs out, or where there would be too many rows.
pub(crate) fn bands(
    alloc: Global,
    tale: &[Told],
    trace: &[Happening],
) -> Result<Vec<Band>, AllocError>
    ensures { IfOk result (λ bands. bands.items ≡ along (bands_after tale.now) tale.now [] start trace.now) }
{
    let mut bands = Vec::new(alloc);
    let mut cursor = Cursor::start();
    for happening in trace {
        add(&mut bands, alloc, tale, cursor.row_of(happening), happening)?;
        cursor = cursor.after(tale, happening)?;
    }
    Ok(bands)
}
