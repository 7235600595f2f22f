//! A picture as plain text.
ghost use Rattle.std.specs.Prelude.{◌≡◌, ◌+◌, ◌-◌, ◌++◌, flat_map, IfOk, OnOk};
ghost use Rattle.std.specs.List.{list_any};
ghost use Rattle.chart_text.specs.Plain.{legend as legend_line, names_from, end_text, arrow_text, repeat_text, note_text, arrow_in, repeat_in, note_in, parting_in, events_in, lies_in as lies_in_stretch, doubts_at as doubts_there, is_down_at as is_down_there, cell, cells, row_line, asked_line, answer_line, band_in, row_lines, lines_from, text_of};

use crate::window::{Window, end_row};
use crate::words::{put_message, put_note_kind, put_parting, put_window};
use chart_marks::{Arrow, Band, Doubt, End, Marks, Note, Outage, Parting, Repeat};
use dtx_values::{Bytes, Listing, Name};
use std::alloc::{AllocError, Global};
use tran_ids::{node_name, put_decimal};

fn put_names(out: &mut Vec<u8>, names: &[Name]) -> Result<(), AllocError>
    ensures { OnOk result (out.new.items ≡ out.old.items ++ names_from 1 names.now) }
{
    let mut number: u64 = 1;
    for name in names {
        put_decimal(out, number)?;
        out.extend_from_slice(b"=")?;
        out.extend_from_slice(name.as_bytes())?;
        out.extend_from_slice(b" ")?;
        number += 1;
    }
    Ok(())
}

fn put_end(out: &mut Vec<u8>, end: End) -> Result<(), AllocError>
    ensures { OnOk result (out.new.items ≡ out.old.items ++ end_text end) }
{
    match end {
        End::InFlight(_) => out.extend_from_slice(b" --o "),
        End::Delivered(_) => out.extend_from_slice(b" --> "),
        End::Lost(_) => out.extend_from_slice(b" --x "),
    }
}

fn put_arrow(out: &mut Vec<u8>, names: &[Name], arrow: &Arrow) -> Result<(), AllocError>
    ensures { OnOk result (out.new.items ≡ out.old.items ++ arrow_text names.now arrow.now) }
{
    out.extend_from_slice(b"  ")?;
    out.extend_from_slice(node_name(names, arrow.from))?;
    out.extend_from_slice(b" -- ")?;
    put_message(out, arrow.number, arrow.kind)?;
    put_end(out, arrow.end)?;
    out.extend_from_slice(node_name(names, arrow.to))
}

fn put_repeat(out: &mut Vec<u8>, names: &[Name], repeat: &Repeat) -> Result<(), AllocError>
    ensures { OnOk result (out.new.items ≡ out.old.items ++ repeat_text names.now repeat.now) }
{
    out.extend_from_slice(b"  ")?;
    out.extend_from_slice(node_name(names, repeat.from))?;
    out.extend_from_slice(b" .. ")?;
    put_message(out, repeat.number, repeat.kind)?;
    out.extend_from_slice(b" ..> ")?;
    out.extend_from_slice(node_name(names, repeat.to))
}

fn put_note(out: &mut Vec<u8>, names: &[Name], note: &Note) -> Result<(), AllocError>
    ensures { OnOk result (out.new.items ≡ out.old.items ++ note_text names.now note.now) }
{
    out.extend_from_slice(b"  ")?;
    out.extend_from_slice(node_name(names, note.node))?;
    out.extend_from_slice(b": ")?;
    put_note_kind(out, note.note_kind)
}

fn put_arrow_in(
    out: &mut Vec<u8>,
    names: &[Name],
    row: u32,
    arrow: &Arrow,
) -> Result<(), AllocError>
    ensures { OnOk result (out.new.items ≡ out.old.items ++ arrow_in names.now row arrow.now) }
{
    if end_row(arrow.end) == row {
        put_arrow(out, names, arrow)?;
    }
    Ok(())
}

fn put_repeat_in(
    out: &mut Vec<u8>,
    names: &[Name],
    row: u32,
    repeat: &Repeat,
) -> Result<(), AllocError>
    ensures { OnOk result (out.new.items ≡ out.old.items ++ repeat_in names.now row repeat.now) }
{
    if repeat.row == row {
        put_repeat(out, names, repeat)?;
    }
    Ok(())
}

fn put_note_in(out: &mut Vec<u8>, names: &[Name], row: u32, note: &Note) -> Result<(), AllocError>
    ensures { OnOk result (out.new.items ≡ out.old.items ++ note_in names.now row note.now) }
{
    if note.row == row {
        put_note(out, names, note)?;
    }
    Ok(())
}

fn put_parting_in(
    out: &mut Vec<u8>,
    names: &[Name],
    row: u32,
    parting: &Parting,
) -> Result<(), AllocError>
    ensures { OnOk result (out.new.items ≡ out.old.items ++ parting_in names.now row parting.now) }
{
    if parting.row == row {
        out.extend_from_slice(b"  ")?;
        put_parting(out, names, parting)?;
    }
    Ok(())
}

fn put_arrows(
    out: &mut Vec<u8>,
    names: &[Name],
    row: u32,
    arrows: &[Arrow],
) -> Result<(), AllocError>
    ensures { OnOk result (out.new.items ≡ out.old.items ++ flat_map (arrow_in names.now row) arrows.now) }
{
    for arrow in arrows {
        put_arrow_in(out, names, row, arrow)?;
    }
    Ok(())
}

fn put_repeats(
    out: &mut Vec<u8>,
    names: &[Name],
    row: u32,
    repeats: &[Repeat],
) -> Result<(), AllocError>
    ensures { OnOk result (out.new.items ≡ out.old.items ++ flat_map (repeat_in names.now row) repeats.now) }
{
    for repeat in repeats {
        put_repeat_in(out, names, row, repeat)?;
    }
    Ok(())
}

fn put_notes(out: &mut Vec<u8>, names: &[Name], row: u32, notes: &[Note]) -> Result<(), AllocError>
    ensures { OnOk result (out.new.items ≡ out.old.items ++ flat_map (note_in names.now row) notes.now) }
{
    for note in notes {
        put_note_in(out, names, row, note)?;
    }
    Ok(())
}

fn put_partings(
    out: &mut Vec<u8>,
    names: &[Name],
    row: u32,
    partings: &[Parting],
) -> Result<(), AllocError>
    ensures { OnOk result (out.new.items ≡ out.old.items ++ flat_map (parting_in names.now row) partings.now) }
{
    for parting in partings {
        put_parting_in(out, names, row, parting)?;
    }
    Ok(())
}

// All that stands in a row.
fn events(alloc: Global, marks: &Marks, row: u32) -> Result<Vec<u8>, AllocError>
    ensures { IfOk result (λ text. text.items ≡ events_in marks.now row) }
{
    let names = marks.lanes.as_slice();
    let mut out = Vec::new(alloc);
    put_arrows(&mut out, names, row, marks.arrows.as_slice())?;
    put_repeats(&mut out, names, row, marks.repeats.as_slice())?;
    put_notes(&mut out, names, row, marks.notes.as_slice())?;
    put_partings(&mut out, names, row, marks.partings.as_slice())?;
    Ok(out)
}

fn lies_in(row: u32, from: u32, till: u32) -> bool
    ensures { result ≡ lies_in_stretch row from till }
{
    from <= row && row < till
}

fn doubts_at(window: Window, node: u64, row: u32, doubt: &Doubt) -> bool
    ensures { result ≡ doubts_there window node row doubt.now }
{
    u64::from(doubt.branch.node) == node && lies_in(row, doubt.from, window.till(doubt.till))
}

fn is_down_at(window: Window, node: u64, row: u32, outage: &Outage) -> bool
    ensures { result ≡ is_down_there window node row outage.now }
{
    u64::from(outage.node) == node && lies_in(row, outage.from, window.till(outage.till))
}

fn is_in_doubt(window: Window, node: u64, row: u32, doubts: &[Doubt]) -> bool
    ensures { result ≡ list_any (doubts_there window node row) doubts.now }
{
    doubts
        .iter()
        .any(|doubt| doubts_at(window, node, row, doubt))
}

fn is_down(window: Window, node: u64, row: u32, outages: &[Outage]) -> bool
    ensures { result ≡ list_any (is_down_there window node row) outages.now }
{
    outages
        .iter()
        .any(|outage| is_down_at(window, node, row, outage))
}

fn put_cell(
    out: &mut Vec<u8>,
    window: Window,
    marks: &Marks,
    row: u32,
    node: u64,
) -> Result<(), AllocError>
    ensures { OnOk result (out.new.items ≡ out.old.items ++ cell window marks.now row node) }
{
    if is_down(window, node, row, marks.outages.as_slice()) {
        out.extend_from_slice(b" .")
    } else if is_in_doubt(window, node, row, marks.doubts.as_slice()) {
        out.extend_from_slice(b" #")
    } else {
        out.extend_from_slice(b" |")
    }
}

fn put_cells(
    out: &mut Vec<u8>,
    window: Window,
    marks: &Marks,
    row: u32,
    names: &[Name],
) -> Result<(), AllocError>
    ensures { OnOk result (out.new.items ≡ out.old.items ++ cells window marks.now row 1 names.now) }
{
    let mut node: u64 = 1;
    for _name in names {
        put_cell(out, window, marks, row, node)?;
        node += 1;
    }
    Ok(())
}

fn put_row(
    out: &mut Vec<u8>,
    window: Window,
    marks: &Marks,
    row: u32,
    events: &[u8],
) -> Result<(), AllocError>
    ensures { OnOk result (out.new.items ≡ out.old.items ++ row_line window marks.now row events.now) }
{
    if events.is_empty() {
        return Ok(());
    }
    put_cells(out, window, marks, row, marks.lanes.as_slice())?;
    out.extend_from_slice(events)?;
    out.extend_from_slice(b"\n")
}

fn put_asked(out: &mut Vec<u8>, command: u32, lines: &[Bytes]) -> Result<(), AllocError>
    ensures { OnOk result (out.new.items ≡ out.old.items ++ flat_map (asked_line command) lines.now) }
{
    for line in lines {
        put_decimal(out, u64::from(command))?;
        out.extend_from_slice(b" > ")?;
        out.extend_from_slice(line.as_slice())?;
        out.extend_from_slice(b"\n")?;
    }
    Ok(())
}

fn put_answers(out: &mut Vec<u8>, command: u32, lines: &[Bytes]) -> Result<(), AllocError>
    ensures { OnOk result (out.new.items ≡ out.old.items ++ flat_map (answer_line command) lines.now) }
{
    for line in lines {
        put_decimal(out, u64::from(command))?;
        out.extend_from_slice(b" = ")?;
        out.extend_from_slice(line.as_slice())?;
        out.extend_from_slice(b"\n")?;
    }
    Ok(())
}

fn put_band_in(out: &mut Vec<u8>, row: u32, band: &Band) -> Result<(), AllocError>
    ensures { OnOk result (out.new.items ≡ out.old.items ++ band_in row band.now) }
{
    if band.row == row {
        put_asked(out, band.command, band.text.as_slice())?;
        put_answers(out, band.command, band.answer.as_slice())?;
    }
    Ok(())
}

fn put_bands(out: &mut Vec<u8>, row: u32, bands: &[Band]) -> Result<(), AllocError>
    ensures { OnOk result (out.new.items ≡ out.old.items ++ flat_map (band_in row) bands.now) }
{
    for band in bands {
        put_band_in(out, row, band)?;
    }
    Ok(())
}

#[tactic(auto, unfolding(crate::specs::Plain::row_lines))]
fn put_lines(
    out: &mut Vec<u8>,
    alloc: Global,
    window: Window,
    marks: &Marks,
    row: u32,
) -> Result<(), AllocError>
    ensures { OnOk result (out.new.items ≡ out.old.items ++ row_lines window marks.now row) }
{
    put_bands(out, row, marks.bands.as_slice())?;
    let events = events(alloc, marks, row)?;
    put_row(out, window, marks, row, &events)
}

fn put_all_lines(
    out: &mut Vec<u8>,
    alloc: Global,
    window: Window,
    marks: &Marks,
) -> Result<(), AllocError>
    ensures { OnOk result (out.new.items ≡ out.old.items ++ lines_from window marks.now window.top (window.bottom - window.top)) }
{
    for row in window.top..window.bottom {
        put_lines(out, alloc, window, marks, row)?;
    }
    Ok(())
}

#[tactic(auto, unfolding(crate::specs::Plain::legend))]
fn legend() -> &'static [u8]
    ensures { result.now ≡ legend_line }
{
    b"| node is up   # a branch is in doubt   . node is stopped   --> delivered   --x lost   --o in flight   ..> a copy\n"
}

/// A picture as plain text. Fails where memory runs out.
#[tactic(auto, unfolding(crate::specs::Plain::text_of))]
pub fn plain(alloc: Global, window: Window, marks: &Marks) -> Result<Vec<u8>, AllocError>
    ensures { IfOk result (λ text. text.items ≡ text_of window marks.now) }
{
    let mut out = Vec::new(alloc);
    put_window(&mut out, window)?;
    out.extend_from_slice(b"\n")?;
    out.extend_from_slice(legend())?;
    put_names(&mut out, marks.lanes.as_slice())?;
    out.extend_from_slice(b"\n")?;
    put_all_lines(&mut out, alloc, window, marks)?;
    Ok(out)
}
