//! The lanes of a picture, and the bars on them.
ghost use Rattle.std.specs.Prelude.{◌≡◌, ◌<◌, ◌^◌, ◌++◌, length, OnOk};
ghost use Rattle.chart_text.specs.Layout.{lane as lane_of, lanes_from, stretch as stretch_of, doubt_bar, outage_bar};

use crate::drawn::Drawn;
use crate::places::{edge, x_of, y_of};
use crate::shape::{BarKind, LineKind, Shape, Spot};
use crate::window::Window;
use chart_marks::{Doubt, Outage};
use dtx_values::Name;
use std::alloc::{AllocError, Global};

fn lane(window: Window, node: u64) -> Shape
    requires { node < 2 ^ 32 }
    ensures { result ≡ lane_of window node }
{
    let x = x_of(node);
    Shape::Line {
        from: Spot {
            x,
            y: edge(window.top),
        },
        to: Spot {
            x,
            y: edge(window.bottom),
        },
        kind: LineKind::Lane,
    }
}

/// Adds the lanes of the nodes of these names.
pub(crate) fn put_lanes(
    shapes: &mut Vec<Shape>,
    window: Window,
    names: &[Name],
) -> Result<(), AllocError>
    requires { length names.now < 2 ^ 31 }
    ensures { OnOk result (shapes.new.items ≡ shapes.old.items ++ lanes_from window 1 names.now) }
{
    let mut node: u64 = 1;
    for _name in names {
        shapes.push(lane(window, node))?;
        node += 1;
    }
    Ok(())
}

fn stretch(node: u8, from: u32, till: u32, kind: BarKind) -> Shape
    ensures { result ≡ stretch_of node from till kind }
{
    Shape::Bar {
        corner: Spot {
            x: x_of(u64::from(node)) - 7,
            y: y_of(from),
        },
        width: 14,
        height: 20 * u64::from(till.saturating_sub(from)),
        kind,
    }
}

/// The bar of a branch in doubt.
pub(crate) struct DoubtBar;

impl Drawn for DoubtBar {
    type Mark = Doubt;

    ghost shapes = { doubt_bar };

    fn put(
        drawn: &mut Vec<Shape>,
        _alloc: Global,
        window: Window,
        doubt: &Doubt,
    ) -> Result<(), AllocError> {
        let till = window.till(doubt.till);
        if window.reaches(doubt.from, till) {
            drawn.push(stretch(doubt.branch.node, doubt.from, till, BarKind::Doubt))?;
        }
        Ok(())
    }
}

/// The bar of a node that is down.
pub(crate) struct OutageBar;

impl Drawn for OutageBar {
    type Mark = Outage;

    ghost shapes = { outage_bar };

    fn put(
        drawn: &mut Vec<Shape>,
        _alloc: Global,
        window: Window,
        outage: &Outage,
    ) -> Result<(), AllocError> {
        let till = window.till(outage.till);
        if window.reaches(outage.from, till) {
            drawn.push(stretch(outage.node, outage.from, till, BarKind::Outage))?;
        }
        Ok(())
    }
}
