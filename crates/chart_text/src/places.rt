//! Where lanes, rows and texts stand in a picture.
ghost use Rattle.std.specs.Prelude.{◌≡◌, ◌<◌, ◌≤◌, ◌^◌};
ghost use Rattle.chart_text.specs.Places.{x_of as x_of_node, edge_of, y_of as y_of_row, answers_x as answers_x_of, width_of, height_of, side_toward as side_of_lane, beside as beside_lane, gap_of};

use crate::window::Window;
use chart_marks::{End, Side};

/// Where a node's lane stands.
pub(crate) fn x_of(node: u64) -> u64
    requires { node < 2 ^ 32 }
    ensures { result ≡ x_of_node node }
{
    370 + 170 * node
}

/// The upper edge of a row.
pub(crate) fn edge(row: u32) -> u64
    ensures { result ≡ edge_of row }
{
    20 * u64::from(row)
}

/// The middle of a row.
pub(crate) fn y_of(row: u32) -> u64
    ensures { result ≡ y_of_row row }
{
    20 * u64::from(row) + 10
}

/// Where answers begin.
pub(crate) fn answers_x(lanes: u64) -> u64
    requires { lanes < 2 ^ 32 }
    ensures { result ≡ answers_x_of lanes }
{
    540 + 170 * lanes
}

/// The width of a picture with so many lanes.
pub(crate) fn width(lanes: u64) -> u64
    requires { lanes < 2 ^ 32 }
    ensures { result ≡ width_of lanes }
{
    930 + 170 * lanes
}

/// How tall the rows are that are drawn.
pub(crate) fn height(window: Window) -> u64
    ensures { result ≡ height_of window }
{
    20 * u64::from(window.bottom.saturating_sub(window.top))
}

/// The side of a node's lane on which the lane of another node is.
pub(crate) fn side_toward(node: u8, other: u8) -> Side
    ensures { result ≡ side_of_lane node other }
{
    if other < node {
        Side::Left
    } else {
        Side::Right
    }
}

/// So far from a node's lane, on this side.
pub(crate) fn beside(node: u8, side: Side, gap: u64) -> u64
    requires { gap < 100 }
    ensures { result ≡ beside_lane node side gap }
{
    let x = x_of(u64::from(node));
    match side {
        Side::Left => x - gap,
        Side::Right => x + gap,
    }
}

/// How far before the lane of its receiver the line of a message ends.
pub(crate) fn gap(end: End) -> u64
    ensures is { result ≡ gap_of end }
    ensures small { result ≤ 40 }
{
    match end {
        End::InFlight(_) => 40,
        End::Delivered(_) => 0,
        End::Lost(_) => 40,
    }
}
