//! All that a picture shows.
ghost use Rattle.std.specs.Prelude.{◌≡◌, [], IfOk, OnOk};
ghost use Rattle.chart_marks.specs.Rows.{start, along, rows_of};
ghost use Rattle.chart_marks.specs.Marks.{arrows_of, rows_with_flights, bands_after, repeats_after, notes_after, doubts_after, outages_after, partings_after, marks_of as all_of};

use crate::arrows::{arrows, rows_with};
use crate::bands::bands;
use crate::mark::{Doubt, Marks, Note, Outage, Parting, Repeat, Told};
use crate::walk::marks_of;
use book::Happening;
use dtx_values::{Duplicate, Listing, Names};
use std::alloc::{AllocError, Global};

// A picture with these lanes and nothing on them.
fn empty(alloc: Global, lanes: Names) -> Marks
    ensures { result ≡ record { lanes = lanes; bands = []; arrows = []; repeats = []; notes = []; doubts = []; outages = []; partings = []; rows = 0 } }
{
    Marks {
        lanes,
        bands: Listing::new(alloc),
        arrows: Listing::new(alloc),
        repeats: Listing::new(alloc),
        notes: Listing::new(alloc),
        doubts: Listing::new(alloc),
        outages: Listing::new(alloc),
        partings: Listing::new(alloc),
        rows: 0,
    }
}

// The messages and their copies, and how many rows the picture has with them.
fn set_messages(
    marks: &mut Marks,
    alloc: Global,
    tale: &[Told],
    trace: &[Happening],
) -> Result<(), AllocError>
    ensures { OnOk result (marks.new ≡ record marks.old {
      arrows = arrows_of tale.now trace.now;
      rows = rows_with_flights (rows_of tale.now trace.now) (arrows_of tale.now trace.now);
      repeats = along repeats_after tale.now [] start trace.now;
    }) }
{
    marks.arrows = Listing::of(arrows(alloc, tale, trace)?);
    marks.rows = rows_with(tale, trace, marks.arrows.as_slice())?;
    marks.repeats = Listing::of(marks_of::<Repeat>(alloc, tale, trace)?);
    Ok(())
}

// What stands on the lanes and between them.
fn set_states(
    marks: &mut Marks,
    alloc: Global,
    tale: &[Told],
    trace: &[Happening],
) -> Result<(), AllocError>
    ensures { OnOk result (marks.new ≡ record marks.old {
      notes = along notes_after tale.now [] start trace.now;
      doubts = along doubts_after tale.now [] start trace.now;
      outages = along outages_after tale.now [] start trace.now;
      partings = along partings_after tale.now [] start trace.now;
    }) }
{
    marks.notes = Listing::of(marks_of::<Note>(alloc, tale, trace)?);
    marks.doubts = Listing::of(marks_of::<Doubt>(alloc, tale, trace)?);
    marks.outages = Listing::of(marks_of::<Outage>(alloc, tale, trace)?);
    marks.partings = Listing::of(marks_of::<Parting>(alloc, tale, trace)?);
    Ok(())
}

/// The marks of a run over nodes of these names, where this was told of its commands. Fails where memory runs out, or
/// where the picture would have too many rows.
pub fn marks(
    alloc: Global,
    names: &Names,
    tale: &[Told],
    trace: &[Happening],
) -> Result<Marks, AllocError>
    ensures { IfOk result (λ marks. marks ≡ all_of names.now tale.now trace.now) }
{
    let mut marks = empty(alloc, names.copy(alloc)?);
    set_messages(&mut marks, alloc, tale, trace)?;
    set_states(&mut marks, alloc, tale, trace)?;
    marks.bands = Listing::of(bands(alloc, tale, trace)?);
    Ok(marks)
}
