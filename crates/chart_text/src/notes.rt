//! What nodes did or met, and pairs that are cut or joined.
ghost use Rattle.std.specs.Prelude.{◌≡◌, ◌++◌, flat_map, OnOk};
ghost use Rattle.chart_text.specs.Layout.{kind_of_parting, parting_line, parting_label, note_sign, note_label};

use crate::drawn::Drawn;
use crate::messages::level;
use crate::places::{beside, x_of, y_of};
use crate::shape::{LineKind, Shape, Spot, TextKind};
use crate::window::Window;
use crate::words::{put_note_kind, put_parting};
use chart_marks::{Note, Parting, Side};
use dtx_values::{Listing, Name};
use std::alloc::{AllocError, Global};

/// The sign of what a node did or met.
pub(crate) struct Sign;

impl Drawn for Sign {
    type Mark = Note;

    ghost shapes = { note_sign };

    fn put(
        drawn: &mut Vec<Shape>,
        _alloc: Global,
        window: Window,
        note: &Note,
    ) -> Result<(), AllocError> {
        if window.is_in(note.row) {
            let at = Spot {
                x: x_of(u64::from(note.node)),
                y: y_of(note.row),
            };
            drawn.push(Shape::Sign {
                at,
                note_kind: note.note_kind,
            })?;
        }
        Ok(())
    }
}

/// The same in words.
pub(crate) struct NoteLabel;

impl Drawn for NoteLabel {
    type Mark = Note;

    ghost shapes = { note_label };

    fn put(
        drawn: &mut Vec<Shape>,
        alloc: Global,
        window: Window,
        note: &Note,
    ) -> Result<(), AllocError> {
        if !window.is_in(note.row) {
            return Ok(());
        }
        let at = Spot {
            x: beside(note.node, note.side, 13),
            y: y_of(note.row) + 1,
        };
        let mut text = Vec::new(alloc);
        put_note_kind(&mut text, note.note_kind)?;
        drawn.push(Shape::Text {
            at,
            kind: TextKind::NoteKind(note.side),
            text: Listing::of(text),
        })?;
        Ok(())
    }
}

fn kind(joined: bool) -> LineKind
    ensures { result ≡ kind_of_parting joined }
{
    if joined {
        LineKind::Joined
    } else {
        LineKind::Cut
    }
}

/// The line between the nodes of a pair that is cut or joined.
pub(crate) struct PartingLine;

impl Drawn for PartingLine {
    type Mark = Parting;

    ghost shapes = { parting_line };

    fn put(
        drawn: &mut Vec<Shape>,
        _alloc: Global,
        window: Window,
        parting: &Parting,
    ) -> Result<(), AllocError> {
        if window.is_in(parting.row) {
            drawn.push(level(parting.row, parting.a, parting.b, kind(parting.joined)))?;
        }
        Ok(())
    }
}

fn put_parting_label(
    shapes: &mut Vec<Shape>,
    alloc: Global,
    window: Window,
    names: &[Name],
    parting: &Parting,
) -> Result<(), AllocError>
    ensures { OnOk result (shapes.new.items ≡ shapes.old.items ++ parting_label window names.now parting.now) }
{
    if !window.is_in(parting.row) {
        return Ok(());
    }
    let at = Spot {
        x: x_of(u64::from(parting.a.min(parting.b))) + 12,
        y: y_of(parting.row) - 4,
    };
    let mut text = Vec::new(alloc);
    put_parting(&mut text, names, parting)?;
    shapes.push(Shape::Text {
        at,
        kind: TextKind::Message(Side::Right),
        text: Listing::of(text),
    })?;
    Ok(())
}

/// Adds their labels.
pub(crate) fn put_parting_labels(
    shapes: &mut Vec<Shape>,
    alloc: Global,
    window: Window,
    names: &[Name],
    partings: &[Parting],
) -> Result<(), AllocError>
    ensures { OnOk result (shapes.new.items ≡ shapes.old.items ++ flat_map (parting_label window names.now) partings.now) }
{
    for parting in partings {
        put_parting_label(shapes, alloc, window, names, parting)?;
    }
    Ok(())
}
