//! A picture as SVG: how shapes are spelled. Each call adds at the end, and fails where memory runs out.
ghost use Rattle.std.specs.Prelude.{◌≡◌, ◌<◌, ◌^◌, ◌++◌, flat_map, length, IfOk, OnOk};
ghost use Rattle.chart_text.specs.Svg.{path_start as start_of_path, border as white_border, head_marker as marker_of_head, cross_marker as marker_of_cross, open_marker as marker_of_open, svg_start as start_of_svg, white as white_paper, escaped_byte, escaped, valued, line_svg, rect_svg, path_svg, words_svg, border_svg, text_svg, span_svg, lines_svg, shape_svg, frame_svg, markers, paper_svg, rows_start as start_of_rows, rows_svg, svg_of};

use crate::head::head;
use crate::layout::rows;
use crate::looks::{bar_look, is_crossed, line_look, sign_look, text_look};
use crate::places::{edge, height, width};
use crate::shape::{Shape, Spot, TextKind};
use crate::window::Window;
use chart_marks::Marks;
use dtx_values::Bytes;
use std::alloc::{AllocError, Global};
use tran_ids::put_decimal;

fn put_byte(out: &mut Vec<u8>, byte: u8) -> Result<(), AllocError>
    ensures { OnOk result (out.new.items ≡ out.old.items ++ escaped_byte byte) }
{
    if byte == b'&' {
        out.extend_from_slice(b"&amp;")
    } else if byte == b'<' {
        out.extend_from_slice(b"&lt;")
    } else if byte == b'>' {
        out.extend_from_slice(b"&gt;")
    } else if byte < 32 || 126 < byte {
        out.extend_from_slice(b"?")
    } else {
        out.extend_from_slice(&[byte])
    }
}

fn put_escaped(out: &mut Vec<u8>, text: &[u8]) -> Result<(), AllocError>
    ensures { OnOk result (out.new.items ≡ out.old.items ++ escaped text.now) }
{
    for byte in text {
        put_byte(out, *byte)?;
    }
    Ok(())
}

fn put_value(out: &mut Vec<u8>, words: &[u8], number: u64) -> Result<(), AllocError>
    ensures { OnOk result (out.new.items ≡ out.old.items ++ valued words.now number) }
{
    out.extend_from_slice(words)?;
    put_decimal(out, number)
}

fn put_line(out: &mut Vec<u8>, from: Spot, to: Spot, look: &[u8]) -> Result<(), AllocError>
    ensures { OnOk result (out.new.items ≡ out.old.items ++ line_svg from to look.now) }
{
    put_value(out, b"<line x1=\"", from.x)?;
    put_value(out, b"\" y1=\"", from.y)?;
    put_value(out, b"\" x2=\"", to.x)?;
    put_value(out, b"\" y2=\"", to.y)?;
    out.extend_from_slice(b"\" ")?;
    out.extend_from_slice(look)?;
    out.extend_from_slice(b"/>\n")
}

fn put_rect(
    out: &mut Vec<u8>,
    corner: Spot,
    width: u64,
    height: u64,
    look: &[u8],
) -> Result<(), AllocError>
    ensures { OnOk result (out.new.items ≡ out.old.items ++ rect_svg corner width height look.now) }
{
    put_value(out, b"<rect x=\"", corner.x)?;
    put_value(out, b"\" y=\"", corner.y)?;
    put_value(out, b"\" width=\"", width)?;
    put_value(out, b"\" height=\"", height)?;
    out.extend_from_slice(b"\" ")?;
    out.extend_from_slice(look)?;
    out.extend_from_slice(b"/>\n")
}

#[tactic(auto, unfolding(crate::specs::Svg::path_start))]
fn path_start() -> &'static [u8]
    ensures { result.now ≡ start_of_path }
{
    b"<path transform=\"translate("
}

fn put_path(out: &mut Vec<u8>, at: Spot, look: &[u8]) -> Result<(), AllocError>
    ensures { OnOk result (out.new.items ≡ out.old.items ++ path_svg at look.now) }
{
    put_value(out, path_start(), at.x)?;
    put_value(out, b",", at.y)?;
    out.extend_from_slice(b")\" ")?;
    out.extend_from_slice(look)?;
    out.extend_from_slice(b"/>\n")
}

#[tactic(auto, unfolding(crate::specs::Svg::words_svg))]
fn put_words(
    out: &mut Vec<u8>,
    at: Spot,
    border: &[u8],
    look: &[u8],
    text: &[u8],
) -> Result<(), AllocError>
    ensures { OnOk result (out.new.items ≡ out.old.items ++ words_svg at (border.now ++ look.now) text.now) }
{
    put_value(out, b"<text x=\"", at.x)?;
    put_value(out, b"\" y=\"", at.y)?;
    out.extend_from_slice(b"\" ")?;
    out.extend_from_slice(border)?;
    out.extend_from_slice(look)?;
    out.extend_from_slice(b">")?;
    put_escaped(out, text)?;
    out.extend_from_slice(b"</text>\n")
}

#[tactic(auto, unfolding(crate::specs::Svg::border))]
fn border() -> &'static [u8]
    ensures { result.now ≡ white_border }
{
    b"stroke=\"#ffffff\" stroke-width=\"4\" "
}

fn put_border(out: &mut Vec<u8>, at: Spot, kind: TextKind, text: &[u8]) -> Result<(), AllocError>
    ensures { OnOk result (out.new.items ≡ out.old.items ++ border_svg at kind text.now) }
{
    if !is_crossed(kind) {
        return Ok(());
    }
    put_words(out, at, border(), text_look(kind), text)
}

fn put_text(out: &mut Vec<u8>, at: Spot, kind: TextKind, text: &[u8]) -> Result<(), AllocError>
    ensures { OnOk result (out.new.items ≡ out.old.items ++ text_svg at kind text.now) }
{
    put_border(out, at, kind, text)?;
    put_words(out, at, b"", text_look(kind), text)
}

fn put_span(out: &mut Vec<u8>, x: u64, line: &[u8]) -> Result<(), AllocError>
    ensures { OnOk result (out.new.items ≡ out.old.items ++ span_svg x line.now) }
{
    put_value(out, b"<tspan x=\"", x)?;
    out.extend_from_slice(b"\" dy=\"14\">")?;
    put_escaped(out, line)?;
    out.extend_from_slice(b"</tspan>")
}

fn put_spans(out: &mut Vec<u8>, x: u64, lines: &[Bytes]) -> Result<(), AllocError>
    ensures { OnOk result (out.new.items ≡ out.old.items ++ flat_map (span_svg x) lines.now) }
{
    for line in lines {
        put_span(out, x, line.as_slice())?;
    }
    Ok(())
}

fn put_lines(out: &mut Vec<u8>, at: Spot, lines: &[Bytes]) -> Result<(), AllocError>
    ensures { OnOk result (out.new.items ≡ out.old.items ++ lines_svg at lines.now) }
{
    put_value(out, b"<text x=\"", at.x)?;
    put_value(out, b"\" y=\"", at.y)?;
    out.extend_from_slice(b"\">")?;
    put_spans(out, at.x, lines)?;
    out.extend_from_slice(b"</text>\n")
}

fn put_shape(out: &mut Vec<u8>, shape: &Shape) -> Result<(), AllocError>
    ensures { OnOk result (out.new.items ≡ out.old.items ++ shape_svg shape.now) }
{
    match shape {
        Shape::Line { from, to, kind } => put_line(out, *from, *to, line_look(*kind)),
        Shape::Bar {
            corner,
            width,
            height,
            kind,
        } => put_rect(out, *corner, *width, *height, bar_look(*kind)),
        Shape::Sign { at, note_kind } => put_path(out, *at, sign_look(*note_kind)),
        Shape::Text { at, kind, text } => put_text(out, *at, *kind, text.as_slice()),
        Shape::Lines { at, lines } => put_lines(out, *at, lines.as_slice()),
    }
}

fn put_shapes(out: &mut Vec<u8>, shapes: &[Shape]) -> Result<(), AllocError>
    ensures { OnOk result (out.new.items ≡ out.old.items ++ flat_map shape_svg shapes.now) }
{
    for shape in shapes {
        put_shape(out, shape)?;
    }
    Ok(())
}

#[tactic(auto, unfolding(crate::specs::Svg::frame_svg))]
fn put_frame(out: &mut Vec<u8>, width: u64, height: u64, top: u64) -> Result<(), AllocError>
    ensures { OnOk result (out.new.items ≡ out.old.items ++ frame_svg width height top) }
{
    put_value(out, b"width=\"", width)?;
    put_value(out, b"\" height=\"", height)?;
    put_value(out, b"\" viewBox=\"0 ", top)?;
    put_value(out, b" ", width)?;
    put_value(out, b" ", height)?;
    out.extend_from_slice(b"\">\n")
}

#[tactic(auto, unfolding(crate::specs::Svg::head_marker))]
fn head_marker() -> &'static [u8]
    ensures { result.now ≡ marker_of_head }
{
    b"<marker id=\"head\" markerWidth=\"9\" markerHeight=\"8\" refX=\"8\" refY=\"4\" orient=\"auto\" markerUnits=\"userSpaceOnUse\"><path d=\"M0 0L8 4L0 8Z\" fill=\"#0072b2\"/></marker>\n"
}

#[tactic(auto, unfolding(crate::specs::Svg::cross_marker))]
fn cross_marker() -> &'static [u8]
    ensures { result.now ≡ marker_of_cross }
{
    b"<marker id=\"cross\" markerWidth=\"12\" markerHeight=\"12\" refX=\"6\" refY=\"6\" markerUnits=\"userSpaceOnUse\"><path d=\"M1 1L11 11M1 11L11 1\" stroke=\"#d55e00\" stroke-width=\"2\"/></marker>\n"
}

#[tactic(auto, unfolding(crate::specs::Svg::open_marker))]
fn open_marker() -> &'static [u8]
    ensures { result.now ≡ marker_of_open }
{
    b"<marker id=\"open\" markerWidth=\"10\" markerHeight=\"10\" refX=\"5\" refY=\"5\" markerUnits=\"userSpaceOnUse\"><path d=\"M1 5A4 4 0 1 0 9 5A4 4 0 1 0 1 5Z\" fill=\"#ffffff\" stroke=\"#0072b2\"/></marker>\n"
}

#[tactic(auto, unfolding(crate::specs::Svg::markers))]
fn put_markers(out: &mut Vec<u8>) -> Result<(), AllocError>
    ensures { OnOk result (out.new.items ≡ out.old.items ++ markers) }
{
    out.extend_from_slice(b"<defs>\n")?;
    out.extend_from_slice(head_marker())?;
    out.extend_from_slice(cross_marker())?;
    out.extend_from_slice(open_marker())?;
    out.extend_from_slice(b"</defs>\n")
}

#[tactic(auto, unfolding(crate::specs::Svg::svg_start))]
fn svg_start() -> &'static [u8]
    ensures { result.now ≡ start_of_svg }
{
    b"<?xml version=\"1.0\" encoding=\"US-ASCII\"?>\n<svg xmlns=\"http://www.w3.org/2000/svg\" version=\"1.1\" font-family=\"monospace\" font-size=\"10\" "
}

#[tactic(auto, unfolding(crate::specs::Svg::white))]
fn white() -> &'static [u8]
    ensures { result.now ≡ white_paper }
{
    b"<rect width=\"100%\" height=\"100%\" fill=\"#ffffff\"/>\n"
}

#[tactic(auto, unfolding(crate::specs::Svg::paper_svg))]
fn put_paper(out: &mut Vec<u8>, width: u64, height: u64) -> Result<(), AllocError>
    ensures { OnOk result (out.new.items ≡ out.old.items ++ paper_svg width height) }
{
    out.extend_from_slice(svg_start())?;
    put_frame(out, width, height, 0)?;
    put_markers(out)?;
    out.extend_from_slice(white())
}

#[tactic(auto, unfolding(crate::specs::Svg::rows_start))]
fn rows_start() -> &'static [u8]
    ensures { result.now ≡ start_of_rows }
{
    b"<svg y=\"110\" "
}

#[tactic(auto, unfolding(crate::specs::Svg::rows_svg))]
fn put_rows(
    out: &mut Vec<u8>,
    width: u64,
    height: u64,
    top: u64,
    shapes: &[Shape],
) -> Result<(), AllocError>
    ensures { OnOk result (out.new.items ≡ out.old.items ++ rows_svg width height top shapes.now) }
{
    out.extend_from_slice(rows_start())?;
    put_frame(out, width, height, top)?;
    put_shapes(out, shapes)?;
    out.extend_from_slice(b"</svg>\n")
}

#[tactic(auto, unfolding(crate::specs::Svg::svg_of))]
fn draw(alloc: Global, window: Window, marks: &Marks) -> Result<Vec<u8>, AllocError>
    requires { length marks.now.lanes < 2 ^ 31 }
    ensures { IfOk result (λ text. text.items ≡ svg_of window marks.now) }
{
    let width = width(marks.lanes.as_slice().len() as u64);
    let height = height(window);
    let head = head(alloc, window, marks)?;
    let rows = rows(alloc, window, marks)?;
    let mut out = Vec::new(alloc);
    put_paper(&mut out, width, 120 + height)?;
    put_shapes(&mut out, &head)?;
    put_rows(&mut out, width, height, edge(window.top), &rows)?;
    out.extend_from_slice(b"</svg>\n")?;
    Ok(out)
}

/// A picture as SVG 1.1. Fails where memory runs out, and where there are more than 65,536 lanes.
pub fn svg(alloc: Global, window: Window, marks: &Marks) -> Result<Vec<u8>, AllocError>
    ensures { IfOk result (λ text. text.items ≡ svg_of window marks.now) }
{
    if marks.lanes.as_slice().len() > 65_536 {
        return Err(AllocError);
    }
    draw(alloc, window, marks)
}
