//! A node stops: by STOP, since its turn was cut, or since an order struck its start.
ghost use Rattle.std.specs.Prelude.{◌≡◌, length, OnErr, OnOk};
ghost use Rattle.run_rules.specs.Data.happenings as occurrences;
ghost use Rattle.run_rules.specs.Lawful.{IsNode};
ghost use Rattle.run_rules.specs.Past.{acts, report_stopped};
ghost use Rattle.run_rules.specs.Due.{Falls, Stops};
ghost use Rattle.run_rules.specs.Facts.{is_up as is_up_by};
ghost use Rattle.run_trace.specs.Recorded.{Extends, IsDueNext, past_of};
ghost use Rattle.world.specs.Needs.{due_in};
ghost use Rattle.world.specs.Left.{StillReports};
ghost use Rattle.world.specs.Linked.{HoldsRun, IsLinked, OnlyFalls};
ghost use Rattle.world.specs.Halts.{HasHalted};
ghost use Rattle.world.specs.Orders.{OrdersAre};
ghost use Rattle.world.specs.Steps.{StepsOn};

use crate::World;
use crate::laws::what_is_due_can_happen;
use crate::slots::is_up;
use book::Happening;
use run_report::StopFacts;
use script_read::Command;
use std::alloc::{AllocError, Global};
use tran_ids::node_name;
use world_parts::{command_at, losses_of};

impl World {
    /// A node whose turn was cut stops.
    #[tactic(auto, using(crate::proofs::StopLemmas::stop_steps, crate::proofs::DueLemmas::due_steps, crate::proofs::LeftLemmas::left_steps, run_trace::proofs::ExtendsLemmas::extends_steps))]
    pub(crate) fn fall(&mut self, alloc: Global, node: u8) -> Result<(), AllocError>
        requires linked { IsLinked self.old }
        requires orders { OrdersAre self.old }
        requires due { due_in self.old.trace ≡ Falls node }
        ensures steps { OnOk result (StepsOn self.old self.new) }
        ensures orders { OnOk result (OrdersAre self.new) }
        ensures extends { Extends self.old.trace self.new.trace }
        ensures left { OnErr result (StillReports self.new) }
    {
        what_is_due_can_happen();
        let was_up = is_up(&self.slots, node);
        self.halt(alloc, node, was_up)
    }

    /// STOP.
    #[tactic(auto, using(crate::proofs::StopLemmas::stop_steps, crate::proofs::DueLemmas::due_steps, crate::proofs::LeftLemmas::left_steps, run_trace::proofs::ExtendsLemmas::extends_steps))]
    pub(crate) fn stop(&mut self, alloc: Global, node: u8) -> Result<(), AllocError>
        requires linked { IsLinked self.old }
        requires orders { OrdersAre self.old }
        requires due { due_in self.old.trace ≡ Stops node }
        ensures steps { OnOk result (StepsOn self.old self.new) }
        ensures orders { OnOk result (OrdersAre self.new) }
        ensures extends { Extends self.old.trace self.new.trace }
        ensures left { OnErr result (StillReports self.new) }
    {
        what_is_due_can_happen();
        let was_up = is_up(&self.slots, node);
        self.halt(alloc, node, was_up)
    }

    /// A node stops, and `was_up` tells whether it was up: its calls end, messages to it are lost, and its disk is left.
    #[tactic(auto, using(crate::proofs::StopLemmas::stop_steps, crate::proofs::DueLemmas::due_steps, crate::proofs::LeftLemmas::left_steps, run_trace::proofs::ExtendsLemmas::extends_steps))]
    pub(crate) fn halt(&mut self, alloc: Global, node: u8, was_up: bool) -> Result<(), AllocError>
        requires held { HoldsRun self.old }
        requires next { IsDueNext self.old.trace (occurrences.Stopped node) }
        requires there { IsNode (length self.old.trace.places) node }
        requires up { was_up ≡ is_up_by (past_of self.old.trace).facts node }
        requires only { OnlyFalls (past_of self.old.trace) node }
        ensures steps { OnOk result (StepsOn self.old self.new) }
        ensures halted { OnOk result (HasHalted node self.old self.new) }
        ensures extends { Extends self.old.trace self.new.trace }
        ensures left { OnErr result (StillReports self.new) }
    {
        self.report_stop(alloc, node, was_up)?;
        let lost = self.net.stop(alloc, node)?;
        self.losses = losses_of(alloc, lost.into_vec())?;
        self.trace.push(alloc, Happening::Stopped { node })?;
        self.to_stop = None;
        self.slots[usize::from(node) - 1].stop(alloc);
        Ok(())
    }

    // What is told of a stop.
    fn report_stop(&mut self, alloc: Global, node: u8, was_up: bool) -> Result<(), AllocError>
        requires held { HoldsRun self.old }
        requires up { was_up ≡ is_up_by (past_of self.old.trace).facts node }
        requires there { IsNode (length self.old.trace.places) node }
        ensures tells { OnOk result (self.new.run_report ≡ acts (report_stopped self.old.trace.places self.old.trace.asked (past_of self.old.trace).facts (past_of self.old.trace).run_report node)) }
        ensures same { self.new ≡ record self.old { run_report = self.new.run_report } }
        ensures lines { self.new.run_report.lines ≡ self.old.run_report.lines }
    {
        let none = Command::ShowBook;
        let command = command_at(self.trace.asked(), self.running, &none);
        let facts = StopFacts {
            running: self.running,
            is_up: was_up,
            is_owed: self.to_stop.is_some(),
        };
        let place = &self.trace.places()[usize::from(node) - 1];
        let name = node_name(place.names.as_slice(), node);
        let told = self.run_report.stop(alloc, node, name, command, &facts);
        drop(none);
        told
    }
}
