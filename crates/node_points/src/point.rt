//! The points of crash-test comments.
ghost use Rattle.std.specs.Prelude.{◌≡◌, ◌==◌, ◌&&◌};
ghost use Rattle.std.specs.List.{list_any};
ghost use Rattle.node_rules.specs.Points.{is_armed as is_armed_by, reaches as reaches_by};
ghost use Rattle.node_points.specs.Passing.{passes_as};
ghost use Rattle.node_points.specs.Points.{numbers_on, is_at_place, is_before_record};

use crate::Passes;
use crash_points::{TurnPlace, reached};
use std::marker::Model;
use tran_ids::BranchId;

/// A comment's point.
#[derive(Clone, Copy)]
pub struct Point {
    /// The root of the transaction that it is of.
    pub root: BranchId,
    /// Its number, 1 to 10.
    pub number: u8,
    /// The command of the COMMIT that armed it.
    pub command: u32,
    /// Whether it was reached.
    pub reached: bool,
}

impl Model for Point {
    ghost use Rattle.node_rules.specs.Points.{Point as PointByRules};

    ghost Value = { PointByRules };

    ghost view = { λ x. record { root = x.root; number = x.number; command = x.command; reached = x.reached } };

    ghost inverse = { λ x. record { root = x.root; number = x.number; command = x.command; reached = x.reached } };
}

/// Which places of a turn: those before its record, or those after it.
#[derive(Clone, Copy)]
pub enum Side {
    /// Before its record.
    Before,
    /// After it.
    After,
}

impl Point {
    /// Whether it was not reached, and is among the places of this side.
    pub fn is_armed(&self, passes: &Passes, side: Side) -> bool
        ensures { result ≡ is_armed_by (passes_as passes.now).root (numbers_on side (passes_as passes.now)) self.now }
    {
        self.root.is(&passes.root) && (!self.reached && is_passed(passes, side, self.number))
    }
}

/// Whether a point stops the node at the places of this side.
pub fn reaches(points: &[Point], passes: &Passes, side: Side) -> bool
    ensures { result ≡ reaches_by points.now (passes_as passes.now).root (numbers_on side (passes_as passes.now)) }
{
    points.iter().any(|point| point.is_armed(passes, side))
}

fn is_at(at_site: bool, place: Option<TurnPlace>, number: u8) -> bool
    ensures { result ≡ is_at_place at_site number place }
{
    match place {
        None => false,
        Some(place) => reached(number, at_site, place),
    }
}

// Whether a number is among those of a side.
#[tactic(auto, using(crate::proofs::PointLemmas::passed_before, crate::proofs::PointLemmas::passed_after))]
fn is_passed(passes: &Passes, side: Side, number: u8) -> bool
    ensures { result ≡ list_any (λ n. n == number) (numbers_on side (passes_as passes.now)) }
{
    match side {
        Side::Before => is_before(passes, number),
        Side::After => is_at(passes.at_site, passes.after, number),
    }
}

fn is_before(passes: &Passes, number: u8) -> bool
    ensures { result ≡ is_before_record passes.now number }
{
    (passes.collected && reached(number, passes.at_site, TurnPlace::Collected))
        || is_at(passes.at_site, passes.before, number)
}
