//! Messages and their copies: lines from lane to lane, and their labels.
ghost use Rattle.std.specs.Prelude.{◌≡◌};
ghost use Rattle.chart_text.specs.Layout.{level as level_of, kind_of, arrow as arrow_of, arrow_line, arrow_label, repeat_line, repeat_label};

use crate::drawn::Drawn;
use crate::places::{beside, gap, side_toward, x_of, y_of};
use crate::shape::{LineKind, Shape, Spot, TextKind};
use crate::window::{Window, end_row};
use crate::words::put_message;
use chart_marks::{Arrow, End, Repeat};
use dtx_values::Listing;
use std::alloc::{AllocError, Global};

/// A line in a row, from lane to lane.
pub(crate) fn level(row: u32, from: u8, to: u8, kind: LineKind) -> Shape
    ensures { result ≡ level_of row from to kind }
{
    let y = y_of(row);
    Shape::Line {
        from: Spot {
            x: x_of(u64::from(from)),
            y,
        },
        to: Spot {
            x: x_of(u64::from(to)),
            y,
        },
        kind,
    }
}

fn kind(end: End) -> LineKind
    ensures { result ≡ kind_of end }
{
    match end {
        End::InFlight(_) => LineKind::InFlight,
        End::Delivered(_) => LineKind::Delivered,
        End::Lost(_) => LineKind::Lost,
    }
}

fn line(arrow: &Arrow) -> Shape
    ensures { result ≡ arrow_of arrow.now }
{
    let side = side_toward(arrow.to, arrow.from);
    Shape::Line {
        from: Spot {
            x: x_of(u64::from(arrow.from)),
            y: y_of(arrow.sent),
        },
        to: Spot {
            x: beside(arrow.to, side, gap(arrow.end)),
            y: y_of(end_row(arrow.end)),
        },
        kind: kind(arrow.end),
    }
}

/// The line of a message.
pub(crate) struct ArrowLine;

impl Drawn for ArrowLine {
    type Mark = Arrow;

    ghost shapes = { arrow_line };

    fn put(
        drawn: &mut Vec<Shape>,
        _alloc: Global,
        window: Window,
        arrow: &Arrow,
    ) -> Result<(), AllocError> {
        if window.shows_arrow(arrow) {
            drawn.push(line(arrow))?;
        }
        Ok(())
    }
}

/// The label of a message.
pub(crate) struct ArrowLabel;

impl Drawn for ArrowLabel {
    type Mark = Arrow;

    ghost shapes = { arrow_label };

    fn put(
        drawn: &mut Vec<Shape>,
        alloc: Global,
        window: Window,
        arrow: &Arrow,
    ) -> Result<(), AllocError> {
        let row = end_row(arrow.end);
        if !window.is_in(row) {
            return Ok(());
        }
        let side = side_toward(arrow.to, arrow.from);
        let at = Spot {
            x: beside(arrow.to, side, gap(arrow.end) + 12),
            y: y_of(row) + 3,
        };
        let mut text = Vec::new(alloc);
        put_message(&mut text, arrow.number, arrow.kind)?;
        drawn.push(Shape::Text {
            at,
            kind: TextKind::Message(side),
            text: Listing::of(text),
        })?;
        Ok(())
    }
}

/// The line of a copy.
pub(crate) struct RepeatLine;

impl Drawn for RepeatLine {
    type Mark = Repeat;

    ghost shapes = { repeat_line };

    fn put(
        drawn: &mut Vec<Shape>,
        _alloc: Global,
        window: Window,
        repeat: &Repeat,
    ) -> Result<(), AllocError> {
        if window.is_in(repeat.row) {
            drawn.push(level(repeat.row, repeat.from, repeat.to, LineKind::Repeat))?;
        }
        Ok(())
    }
}

/// The label of a copy.
pub(crate) struct RepeatLabel;

impl Drawn for RepeatLabel {
    type Mark = Repeat;

    ghost shapes = { repeat_label };

    fn put(
        drawn: &mut Vec<Shape>,
        alloc: Global,
        window: Window,
        repeat: &Repeat,
    ) -> Result<(), AllocError> {
        if !window.is_in(repeat.row) {
            return Ok(());
        }
        let side = side_toward(repeat.to, repeat.from);
        let at = Spot {
            x: beside(repeat.to, side, 12),
            y: y_of(repeat.row) - 2,
        };
        let mut text = Vec::new(alloc);
        put_message(&mut text, repeat.number, repeat.kind)?;
        text.extend_from_slice(b" again")?;
        drawn.push(Shape::Text {
            at,
            kind: TextKind::Message(side),
            text: Listing::of(text),
        })?;
        Ok(())
    }
}
