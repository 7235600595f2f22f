//! The shapes of a run.
ghost use Rattle.std.specs.Prelude.{◌≡◌, ◌<◌, ◌^◌, ◌++◌, length, IfOk, OnOk};
ghost use Rattle.chart_text.specs.Layout.{drawn_lines, drawn_texts, row_shapes};

use crate::bands::{put_band_lines, put_bands};
use crate::drawn::put_each;
use crate::lanes::{DoubtBar, OutageBar, put_lanes};
use crate::messages::{ArrowLabel, ArrowLine, RepeatLabel, RepeatLine};
use crate::notes::{NoteLabel, PartingLine, Sign, put_parting_labels};
use crate::shape::Shape;
use crate::window::Window;
use chart_marks::Marks;
use std::alloc::{AllocError, Global};

fn put_lines(
    shapes: &mut Vec<Shape>,
    alloc: Global,
    window: Window,
    marks: &Marks,
) -> Result<(), AllocError>
    requires { length marks.now.lanes < 2 ^ 31 }
    ensures { OnOk result (shapes.new.items ≡ shapes.old.items ++ drawn_lines window marks.now) }
{
    let names = marks.lanes.as_slice();
    let lanes = names.len() as u64;
    put_band_lines(shapes, window, lanes, marks.bands.as_slice())?;
    put_lanes(shapes, window, names)?;
    put_each::<DoubtBar>(shapes, alloc, window, marks.doubts.as_slice())?;
    put_each::<OutageBar>(shapes, alloc, window, marks.outages.as_slice())?;
    put_each::<ArrowLine>(shapes, alloc, window, marks.arrows.as_slice())?;
    put_each::<RepeatLine>(shapes, alloc, window, marks.repeats.as_slice())?;
    put_each::<PartingLine>(shapes, alloc, window, marks.partings.as_slice())?;
    put_each::<Sign>(shapes, alloc, window, marks.notes.as_slice())
}

fn put_texts(
    shapes: &mut Vec<Shape>,
    alloc: Global,
    window: Window,
    marks: &Marks,
) -> Result<(), AllocError>
    requires { length marks.now.lanes < 2 ^ 31 }
    ensures { OnOk result (shapes.new.items ≡ shapes.old.items ++ drawn_texts window marks.now) }
{
    let names = marks.lanes.as_slice();
    let lanes = names.len() as u64;
    put_each::<ArrowLabel>(shapes, alloc, window, marks.arrows.as_slice())?;
    put_each::<RepeatLabel>(shapes, alloc, window, marks.repeats.as_slice())?;
    put_parting_labels(shapes, alloc, window, names, marks.partings.as_slice())?;
    put_each::<NoteLabel>(shapes, alloc, window, marks.notes.as_slice())?;
    put_bands(shapes, alloc, window, lanes, marks.bands.as_slice())
}

/// The shapes of the rows that are drawn.
pub(crate) fn rows(alloc: Global, window: Window, marks: &Marks) -> Result<Vec<Shape>, AllocError>
    requires { length marks.now.lanes < 2 ^ 31 }
    ensures { IfOk result (λ shapes. shapes.items ≡ row_shapes window marks.now) }
{
    let mut shapes = Vec::new(alloc);
    put_lines(&mut shapes, alloc, window, marks)?;
    put_texts(&mut shapes, alloc, window, marks)?;
    Ok(shapes)
}
