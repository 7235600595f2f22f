//! What stands above the rows: the title, what signs and lines mean, the names of the nodes.
ghost use Rattle.std.specs.Prelude.{◌≡◌, ◌<◌, ◌^◌, ◌++◌, ◌∷◌, [], length, take, IfOk, OnOk};
ghost use Rattle.chart_text.specs.Head.{meaning as meaning_at, sign_meaning, line_meaning, doubt_meaning, decides_words as words_of_decision, decision_meaning, seal_meaning, end_meanings, node_meanings, message_meanings, name_above as name_of_lane, names_from, title, head_shapes};

use crate::places::x_of;
use crate::shape::{BarKind, LineKind, Shape, Spot, TextKind};
use crate::window::Window;
use crate::words::put_window;
use chart_marks::{Marks, NoteKind};
use dtx_values::{Listing, Name};
use std::alloc::{AllocError, Global};

fn put_meaning(
    shapes: &mut Vec<Shape>,
    alloc: Global,
    x: u64,
    y: u64,
    words: &[u8],
) -> Result<(), AllocError>
    requires { y < 2 ^ 32 }
    ensures { OnOk result (shapes.new.items ≡ shapes.old.items ++ meaning_at x y words.now ∷ []) }
{
    let text = Vec::from_slice(alloc, words)?;
    shapes.push(Shape::Text {
        at: Spot { x, y: y + 4 },
        kind: TextKind::Meaning,
        text: Listing::of(text),
    })?;
    Ok(())
}

#[tactic(auto, unfolding(crate::specs::Head::sign_meaning))]
fn put_sign_meaning(
    shapes: &mut Vec<Shape>,
    alloc: Global,
    x: u64,
    y: u64,
    note_kind: NoteKind,
    words: &[u8],
) -> Result<(), AllocError>
    requires x { x < 2 ^ 32 }
    requires y { y < 2 ^ 32 }
    ensures { OnOk result (shapes.new.items ≡ shapes.old.items ++ sign_meaning x y note_kind words.now) }
{
    shapes.push(Shape::Sign {
        at: Spot { x, y },
        note_kind,
    })?;
    put_meaning(shapes, alloc, x + 14, y, words)
}

#[tactic(auto, unfolding(crate::specs::Head::line_meaning))]
fn put_line_meaning(
    shapes: &mut Vec<Shape>,
    alloc: Global,
    x: u64,
    y: u64,
    kind: LineKind,
    words: &[u8],
) -> Result<(), AllocError>
    requires x { x < 2 ^ 32 }
    requires y { y < 2 ^ 32 }
    ensures { OnOk result (shapes.new.items ≡ shapes.old.items ++ line_meaning x y kind words.now) }
{
    shapes.push(Shape::Line {
        from: Spot { x, y },
        to: Spot { x: x + 30, y },
        kind,
    })?;
    put_meaning(shapes, alloc, x + 42, y, words)
}

#[tactic(auto, unfolding(crate::specs::Head::doubt_meaning))]
fn put_doubt_meaning(shapes: &mut Vec<Shape>, alloc: Global) -> Result<(), AllocError>
    ensures { OnOk result (shapes.new.items ≡ shapes.old.items ++ doubt_meaning) }
{
    shapes.push(Shape::Bar {
        corner: Spot { x: 430, y: 35 },
        width: 14,
        height: 14,
        kind: BarKind::Doubt,
    })?;
    put_meaning(shapes, alloc, 450, 42, b"a branch is in doubt")
}

#[tactic(auto, unfolding(crate::specs::Head::decides_words))]
fn decides_words() -> &'static [u8]
    ensures { result.now ≡ words_of_decision }
{
    b"the commit point site decides to commit"
}

#[tactic(auto, unfolding(crate::specs::Head::decision_meaning))]
fn put_decision_meaning(shapes: &mut Vec<Shape>, alloc: Global) -> Result<(), AllocError>
    ensures { OnOk result (shapes.new.items ≡ shapes.old.items ++ decision_meaning) }
{
    put_sign_meaning(shapes, alloc, 16, 42, NoteKind::Decided(0), decides_words())
}

#[tactic(auto, unfolding(crate::specs::Head::seal_meaning))]
fn put_seal_meaning(shapes: &mut Vec<Shape>, alloc: Global) -> Result<(), AllocError>
    ensures { OnOk result (shapes.new.items ≡ shapes.old.items ++ seal_meaning) }
{
    let prepared = b"a branch is prepared";
    put_sign_meaning(shapes, alloc, 286, 42, NoteKind::Prepared, prepared)
}

#[tactic(auto, unfolding(crate::specs::Head::end_meanings))]
fn put_end_meanings(shapes: &mut Vec<Shape>, alloc: Global) -> Result<(), AllocError>
    ensures { OnOk result (shapes.new.items ≡ shapes.old.items ++ end_meanings) }
{
    let learns = b"it learns the commit";
    put_sign_meaning(shapes, alloc, 596, 42, NoteKind::Committed(0), learns)?;
    let back = b"it is rolled back";
    put_sign_meaning(shapes, alloc, 746, 42, NoteKind::RolledBack, back)?;
    let forced = b"it is forced";
    put_sign_meaning(shapes, alloc, 886, 42, NoteKind::ForcedCommit(0), forced)
}

#[tactic(auto, unfolding(crate::specs::Head::node_meanings))]
fn put_node_meanings(shapes: &mut Vec<Shape>, alloc: Global) -> Result<(), AllocError>
    ensures { OnOk result (shapes.new.items ≡ shapes.old.items ++ node_meanings) }
{
    let stops = b"the node stops";
    put_sign_meaning(shapes, alloc, 16, 64, NoteKind::Stopped, stops)?;
    let starts = b"it starts";
    put_sign_meaning(shapes, alloc, 136, 64, NoteKind::Started(0), starts)?;
    let call = b"call of a client";
    put_sign_meaning(shapes, alloc, 656, 64, NoteKind::Call(0), call)?;
    let mixed = b"decision differs: mixed";
    put_sign_meaning(shapes, alloc, 806, 64, NoteKind::MetMixed, mixed)
}

#[tactic(auto, unfolding(crate::specs::Head::message_meanings))]
fn put_message_meanings(shapes: &mut Vec<Shape>, alloc: Global) -> Result<(), AllocError>
    ensures { OnOk result (shapes.new.items ≡ shapes.old.items ++ message_meanings) }
{
    put_line_meaning(shapes, alloc, 226, 64, LineKind::Delivered, b"message")?;
    put_line_meaning(shapes, alloc, 336, 64, LineKind::Lost, b"lost")?;
    put_line_meaning(shapes, alloc, 426, 64, LineKind::InFlight, b"in flight")?;
    put_line_meaning(shapes, alloc, 546, 64, LineKind::Repeat, b"a copy")
}

fn short(name: &[u8]) -> &[u8]
    ensures { result.now ≡ take 22 name.now }
{
    let (short, _) = name.split_at(name.len().min(22));
    short
}

fn put_name(
    shapes: &mut Vec<Shape>,
    alloc: Global,
    node: u64,
    name: &[u8],
) -> Result<(), AllocError>
    requires { node < 2 ^ 32 }
    ensures { OnOk result (shapes.new.items ≡ shapes.old.items ++ name_of_lane node name.now ∷ []) }
{
    let text = Vec::from_slice(alloc, short(name))?;
    shapes.push(Shape::Text {
        at: Spot {
            x: x_of(node),
            y: 100,
        },
        kind: TextKind::Node,
        text: Listing::of(text),
    })?;
    Ok(())
}

fn put_names(shapes: &mut Vec<Shape>, alloc: Global, names: &[Name]) -> Result<(), AllocError>
    requires { length names.now < 2 ^ 31 }
    ensures { OnOk result (shapes.new.items ≡ shapes.old.items ++ names_from 1 names.now) }
{
    let mut node: u64 = 1;
    for name in names {
        put_name(shapes, alloc, node, name.as_bytes())?;
        node += 1;
    }
    Ok(())
}

#[tactic(auto, unfolding(crate::specs::Head::title))]
fn put_title(shapes: &mut Vec<Shape>, alloc: Global, window: Window) -> Result<(), AllocError>
    ensures { OnOk result (shapes.new.items ≡ shapes.old.items ++ title window ∷ []) }
{
    let mut text = Vec::new(alloc);
    put_window(&mut text, window)?;
    shapes.push(Shape::Text {
        at: Spot { x: 8, y: 22 },
        kind: TextKind::Title,
        text: Listing::of(text),
    })?;
    Ok(())
}

/// What stands above the rows.
pub(crate) fn head(alloc: Global, window: Window, marks: &Marks) -> Result<Vec<Shape>, AllocError>
    requires { length marks.now.lanes < 2 ^ 31 }
    ensures { IfOk result (λ shapes. shapes.items ≡ head_shapes window marks.now) }
{
    let mut shapes = Vec::new(alloc);
    put_title(&mut shapes, alloc, window)?;
    put_decision_meaning(&mut shapes, alloc)?;
    put_seal_meaning(&mut shapes, alloc)?;
    put_doubt_meaning(&mut shapes, alloc)?;
    put_end_meanings(&mut shapes, alloc)?;
    put_node_meanings(&mut shapes, alloc)?;
    put_message_meanings(&mut shapes, alloc)?;
    put_names(&mut shapes, alloc, marks.lanes.as_slice())?;
    Ok(shapes)
}
