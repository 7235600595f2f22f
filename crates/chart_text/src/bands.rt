//! The commands of a picture, with their texts and answers.
ghost use Rattle.std.specs.Prelude.{◌≡◌, ◌<◌, ◌^◌, ◌++◌, ◌∷◌, [], flat_map, OnOk};
ghost use Rattle.chart_text.specs.Layout.{number_at, lines_at, band_line, band_texts};

use crate::places::{answers_x, edge, width};
use crate::shape::{LineKind, Shape, Spot, TextKind};
use crate::window::Window;
use chart_marks::Band;
use dtx_values::{Duplicate, Listing, Texts};
use std::alloc::{AllocError, Global};
use tran_ids::put_decimal;

fn put_band_line(
    shapes: &mut Vec<Shape>,
    window: Window,
    lanes: u64,
    band: &Band,
) -> Result<(), AllocError>
    requires { lanes < 2 ^ 32 }
    ensures { OnOk result (shapes.new.items ≡ shapes.old.items ++ band_line window lanes band.now) }
{
    if window.is_in(band.row) {
        let y = edge(band.row);
        shapes.push(Shape::Line {
            from: Spot { x: 0, y },
            to: Spot { x: width(lanes), y },
            kind: LineKind::Command,
        })?;
    }
    Ok(())
}

fn put_number(
    shapes: &mut Vec<Shape>,
    alloc: Global,
    at: Spot,
    command: u32,
) -> Result<(), AllocError>
    ensures { OnOk result (shapes.new.items ≡ shapes.old.items ++ number_at at command ∷ []) }
{
    let mut number = Vec::new(alloc);
    put_decimal(&mut number, u64::from(command))?;
    shapes.push(Shape::Text {
        at,
        kind: TextKind::Number,
        text: Listing::of(number),
    })?;
    Ok(())
}

fn put_lines(
    shapes: &mut Vec<Shape>,
    alloc: Global,
    at: Spot,
    lines: &Texts,
) -> Result<(), AllocError>
    ensures { OnOk result (shapes.new.items ≡ shapes.old.items ++ lines_at at lines.now ∷ []) }
{
    let lines = lines.copy(alloc)?;
    shapes.push(Shape::Lines { at, lines })?;
    Ok(())
}

fn put_band(
    shapes: &mut Vec<Shape>,
    alloc: Global,
    window: Window,
    lanes: u64,
    band: &Band,
) -> Result<(), AllocError>
    requires { lanes < 2 ^ 32 }
    ensures { OnOk result (shapes.new.items ≡ shapes.old.items ++ band_texts window lanes band.now) }
{
    if !window.is_in(band.row) {
        return Ok(());
    }
    let y = edge(band.row);
    let x = answers_x(lanes);
    put_number(shapes, alloc, Spot { x: 8, y: y + 14 }, band.command)?;
    put_lines(shapes, alloc, Spot { x: 44, y }, &band.text)?;
    put_lines(shapes, alloc, Spot { x, y }, &band.answer)
}

/// Adds the lines above commands, in a picture with so many lanes.
pub(crate) fn put_band_lines(
    shapes: &mut Vec<Shape>,
    window: Window,
    lanes: u64,
    bands: &[Band],
) -> Result<(), AllocError>
    requires { lanes < 2 ^ 32 }
    ensures { OnOk result (shapes.new.items ≡ shapes.old.items ++ flat_map (band_line window lanes) bands.now) }
{
    for band in bands {
        put_band_line(shapes, window, lanes, band)?;
    }
    Ok(())
}

/// Adds the texts of commands, in a picture with so many lanes.
pub(crate) fn put_bands(
    shapes: &mut Vec<Shape>,
    alloc: Global,
    window: Window,
    lanes: u64,
    bands: &[Band],
) -> Result<(), AllocError>
    requires { lanes < 2 ^ 32 }
    ensures { OnOk result (shapes.new.items ≡ shapes.old.items ++ flat_map (band_texts window lanes) bands.now) }
{
    for band in bands {
        put_band(shapes, alloc, window, lanes, band)?;
    }
    Ok(())
}
