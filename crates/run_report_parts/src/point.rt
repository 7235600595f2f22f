//! The points of crash-test comments that are reached.
//! (Database Administrator's Guide, "Managing Distributed Transactions": simulating distributed transaction failure.)
ghost use Rattle.std.specs.Prelude.{◌≡◌, ◌==◌, ◌&&◌, map, find};
ghost use Rattle.std.specs.Option.{option_copied};
ghost use Rattle.run_rules.specs.Lines.{is_reached as is_reached_by};
ghost use Rattle.run_rules.specs.Cuts.{reach as reach_by};
ghost use Rattle.run_report_parts.specs.Points.{numbers_on};
ghost use Rattle.node_points.specs.Passing.{passes_as};

use node_points::{Passes, Point, Side};

fn is_reached(point: &Point, command: u32) -> bool
    ensures { result ≡ is_reached_by command point.now }
{
    point.command == command && point.reached
}

fn reach(point: &mut Point, passes: &Passes, side: Side)
    ensures { point.new ≡ reach_by (passes_as passes.now).root (numbers_on side (passes_as passes.now)) point.old }
{
    if point.is_armed(passes, side) {
        point.reached = true;
    }
}

/// Those at the places of this side are reached.
pub fn reach_all(points: &mut Vec<Point>, passes: &Passes, side: Side)
    ensures { points.new.items ≡ map (reach_by (passes_as passes.now).root (numbers_on side (passes_as passes.now))) points.old.items }
{
    for point in points.iter_mut() {
        reach(point, passes, side);
    }
}

fn first_reached(points: &[Point], command: u32) -> Option<&Point>
    ensures { option_copied result ≡ find (is_reached_by command) points.now }
{
    points.iter().find(|point| is_reached(*point, command))
}

/// The point of a command that was reached.
pub fn reached_of(points: &[Point], command: u32) -> Option<Point>
    ensures { result ≡ find (is_reached_by command) points.now }
{
    match first_reached(points, command) {
        None => None,
        Some(point) => Some(*point),
    }
}
