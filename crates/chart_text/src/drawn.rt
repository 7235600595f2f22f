//! What is drawn of each mark of a list: the loop, once.
//!
//! A function cannot be handed a definition, which is no value of the program. A type carries it instead: `Drawn` names
//! in a ghost member the shapes that a mark gives, and promises that `put` adds them.
ghost use Rattle.std.specs.Prelude.{◌≡◌, ◌++◌, List, flat_map, OnOk};
ghost use Rattle.chart_text.specs.Data.{Shape};
ghost use Rattle.chart_text.specs.declared.window.Window.{Window};

use crate::shape::Shape;
use crate::window::Window;
use std::alloc::{AllocError, Global};

/// What is drawn of a mark.
pub(crate) trait Drawn {
    type Mark;

    ghost shapes: { Window → Self.Mark → List Shape };

    /// Adds the shapes of a mark. Fails where memory runs out.
    fn put(
        drawn: &mut Vec<Shape>,
        alloc: Global,
        window: Window,
        mark: &Self::Mark,
    ) -> Result<(), AllocError>
        ensures { OnOk result (drawn.new.items ≡ drawn.old.items ++ shapes window mark.now) };
}

/// Adds the shapes of marks. Fails where memory runs out.
pub(crate) fn put_each<D: Drawn>(
    drawn: &mut Vec<Shape>,
    alloc: Global,
    window: Window,
    marks: &[D::Mark],
) -> Result<(), AllocError>
    ensures { OnOk result (drawn.new.items ≡ drawn.old.items ++ flat_map (D.shapes window) marks.now) }
{
    for mark in marks {
        D::put(drawn, alloc, window, mark)?;
    }
    Ok(())
}
