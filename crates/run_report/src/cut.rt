//! What cuts a turn.
//! (Database Administrator's Guide, "Managing Distributed Transactions": simulating distributed transaction failure.)
ghost use Rattle.std.specs.Prelude.{◌≡◌, ◌≤◌, map, option_map};
ghost use Rattle.run_rules.specs.Cuts.{cut_after as cut_after_of, cut_appends, appends, appends_if, reach};
ghost use Rattle.node_points.specs.Passing.{passes_as};
ghost use Rattle.run_report_parts.specs.Points.{numbers_on};
ghost use Rattle.run_report.specs.Facts.{Cuts};
ghost use Rattle.run_report.specs.Turned.{cut_as, cut_in as cut_in_of, cut_of};

use crate::RunReport;
use node_points::Passes;
use run_report_parts::{Side, orders_at, reach_all, reaches, set_orders};

/// What cuts a turn: a crash-test comment, or an order that strikes its append.
#[derive(Clone, Copy, Debug)]
pub enum Cut {
    /// Nothing: the turn is whole.
    Whole,
    /// A point is reached before the turn's record, which does not stand, at one of these places.
    Before(Passes),
    /// A point is reached after the turn's record, which stands.
    After(Passes),
    /// An order strikes the append, and the record stands or not.
    InAppend { stands: bool },
}

impl RunReport {
    /// What cuts a turn of a node that writes a record, or does not, and passes these places.
    #[tactic(auto, using(crate::proofs::KnownLemmas::cuts_are))]
    pub fn cut(&self, node: u8, writes: bool, passes: Option<Passes>) -> Cut
        ensures by_facts { cut_as result ≡ cut_of self.now node writes (option_map passes_as passes) }
        ensures cuts { Cuts self.now node writes (option_map passes_as passes) (cut_as result) }
    {
        self.cut_at(node, writes, passes)
    }

    fn cut_at(&self, node: u8, writes: bool, passes: Option<Passes>) -> Cut
        ensures { cut_as result ≡ cut_of self.now node writes (option_map passes_as passes) }
    {
        match passes {
            None => self.cut_in(node, None, writes),
            Some(places) => {
                if reaches(&self.points, &places, Side::Before) {
                    Cut::Before(places)
                } else {
                    self.cut_in(node, Some(places), writes)
                }
            }
        }
    }

    // Only a turn with a record makes an append.
    fn cut_in(&self, node: u8, passes: Option<Passes>, writes: bool) -> Cut
        ensures { cut_as result ≡ cut_in_of self.now node (option_map passes_as passes) writes }
    {
        if !writes {
            return Cut::Whole;
        }
        match self.orders_at(node).struck(0) {
            None => self.cut_after(passes),
            Some(strike) => Cut::InAppend {
                stands: strike.stands,
            },
        }
    }

    fn cut_after(&self, passes: Option<Passes>) -> Cut
        ensures { cut_as result ≡ cut_after_of self.now (option_map passes_as passes) }
    {
        match passes {
            None => Cut::Whole,
            Some(places) => {
                if reaches(&self.points, &places, Side::After) {
                    Cut::After(places)
                } else {
                    Cut::Whole
                }
            }
        }
    }

    /// An append of a node was made, after so many other calls of its disk.
    pub(crate) fn append(&mut self, node: u8, before: u32)
        requires { before ≤ 3 }
        ensures appends { self.new ≡ appends self.old node before }
        ensures count { self.new.deliveries ≡ self.old.deliveries }
        ensures before { self.new.lines ≡ self.old.lines }
    {
        let left = orders_at(&self.orders, node).after_append(before);
        set_orders(&mut self.orders, node, left);
    }

    fn append_if(&mut self, node: u8, writes: bool)
        ensures appends { self.new ≡ appends_if self.old node writes }
        ensures count { self.new.deliveries ≡ self.old.deliveries }
        ensures before { self.new.lines ≡ self.old.lines }
    {
        if writes {
            self.append(node, 0);
        }
    }

    fn append_at_point(&mut self, node: u8, stands: bool, passes: &Passes, side: Side)
        ensures appends { self.new ≡ record (appends_if self.old node stands) { points = map (reach (passes_as passes.now).root (numbers_on side (passes_as passes.now))) self.old.points } }
        ensures count { self.new.deliveries ≡ self.old.deliveries }
        ensures before { self.new.lines ≡ self.old.lines }
    {
        self.append_if(node, stands);
        reach_all(&mut self.points, passes, side);
    }

    /// The orders and points after a turn that writes a record, or does not, and that this cuts.
    pub(crate) fn append_cut(&mut self, node: u8, writes: bool, cut: Cut)
        ensures appends { self.new ≡ cut_appends self.old node writes (cut_as cut) }
        ensures count { self.new.deliveries ≡ self.old.deliveries }
        ensures before { self.new.lines ≡ self.old.lines }
    {
        match cut {
            Cut::Whole => self.append_if(node, writes),
            Cut::InAppend { stands: _stands } => self.append_if(node, writes),
            Cut::Before(passes) => self.append_at_point(node, false, &passes, Side::Before),
            Cut::After(passes) => self.append_at_point(node, true, &passes, Side::After),
        }
    }
}
