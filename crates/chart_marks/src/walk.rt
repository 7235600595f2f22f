//! One walk over the happenings, for each kind of marks.
ghost use Rattle.std.specs.Prelude.{◌≡◌, ℕ, List, [], IfOk, OnOk};
ghost use Rattle.chart_marks.specs.Data.{Happening};
ghost use Rattle.chart_marks.specs.Rows.{start, along};

use crate::cursor::Cursor;
use crate::mark::Told;
use book::Happening;
use std::alloc::{AllocError, Global};

/// A mark that happenings add to a picture.
pub(crate) trait Marked: Copy {
    ghost after: { List Self → ℕ → Happening → List Self };

    /// Adds what one more happening shows, in this row. Fails where memory runs out.
    fn add(marks: &mut Vec<Self>, row: u32, happening: &Happening) -> Result<(), AllocError>
        ensures { OnOk result (marks.new.items ≡ after marks.old.items row happening.now) };
}

/// The marks of a kind that a run gives. Fails where memory runs out, or where there would be too many rows.
pub(crate) fn marks_of<M: Marked>(
    alloc: Global,
    tale: &[Told],
    trace: &[Happening],
) -> Result<Vec<M>, AllocError>
    ensures { IfOk result (λ marks. marks.items ≡ along M.after tale.now [] start trace.now) }
{
    let mut marks = Vec::new(alloc);
    let mut cursor = Cursor::start();
    for happening in trace {
        M::add(&mut marks, cursor.row_of(happening), happening)?;
        cursor = cursor.after(tale, happening)?;
    }
    Ok(marks)
}
