//! The pairs of nodes that are cut or joined.
ghost use Rattle.chart_marks.specs.Marks.{partings_after};

use crate::mark::Parting;
use crate::walk::Marked;
use book::Happening;
use std::alloc::AllocError;

impl Marked for Parting {
    ghost after = { partings_after };

    fn add(partings: &mut Vec<Parting>, row: u32, happening: &Happening) -> Result<(), AllocError> {
        match happening {
            Happening::Cut { a, b } => partings.push(Parting {
                a: *a,
                b: *b,
                row,
                joined: false,
            })?,
            Happening::Join { a, b } => partings.push(Parting {
                a: *a,
                b: *b,
                row,
                joined: true,
            })?,
            _ => {}
        }
        Ok(())
    }
}
