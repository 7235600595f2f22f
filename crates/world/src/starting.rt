//! A node starts, where no order strikes its disk before its Boot stands.
ghost use Rattle.std.specs.Prelude.{◌≡◌, Some, None, length, OnOk, OnErr};
ghost use Rattle.node_rules.specs.Words.{numbered};
ghost use Rattle.run_rules.specs.Disks.{struck};
ghost use Rattle.run_rules.specs.Due.{Starts};
ghost use Rattle.run_rules.specs.Facts.{place_at};
ghost use Rattle.run_rules.specs.Lawful.{IsNode};
ghost use Rattle.run_rules.specs.RunReport.{orders_at as orders_of};
ghost use Rattle.run_trace.specs.Recorded.{Extends, past_of};
ghost use Rattle.world.specs.declared.slot.NodeSlot.{NodeSlot as NodeSlotBy};
ghost use Rattle.world.specs.Needs.{due_in, DueNodesAreThere, EachStartsSeldom};
ghost use Rattle.world.specs.Left.{StillReports};
ghost use Rattle.world.specs.Linked.{IsLinked};
ghost use Rattle.world.specs.Orders.{OrdersAre};
ghost use Rattle.world.specs.Started.{CanStart, TriesAt};
ghost use Rattle.world.specs.Steps.{StepsOn};
ghost use Rattle.world.specs.Starts.{IsStarting, HasBooted, IsTriedAt};
ghost use Rattle.run_rules.specs.Past.{acts, report_started};

use crate::World;
use crate::laws::{numbers_stay_small, what_is_due_can_happen};
use crate::slot::NodeSlot;
use book::Happening;
use dtx_values::Duplicate;
use record_log::hold_one_list;
use redo_record::Place;
use std::alloc::{AllocError, Global};
use tran_ids::node_name;
use world_parts::{count_boot, next_boot};

// The start of the node of a number is tried, which is of this place.
fn try_at(
    alloc: Global,
    slots: &mut Vec<NodeSlot>,
    node: u8,
    place: Place,
) -> Result<(), AllocError>
    requires there { IsNode (length slots.old.items) node }
    requires ready { (slot : NodeSlotBy) → numbered slots.old.items node ≡ Some slot → CanStart place slot }
    ensures { OnOk result (TriesAt place node slots.old.items slots.new.items) }
{
    slots[usize::from(node) - 1].start(alloc, place)
}

// Nodes that are due are there, and start seldom.
fn starts_can_be_made()
    ensures nodes { DueNodesAreThere }
    ensures starts { EachStartsSeldom }
{
    what_is_due_can_happen();
    numbers_stay_small();
}

impl World {
    /// START. An order may strike the start before the record of it stands, and then the node stays down; or after that, and then
    /// it has started, and stops at once.
    #[tactic(auto, using(crate::proofs::TryLemmas::try_steps, crate::proofs::FallLemmas::start_steps, crate::proofs::LeftLemmas::left_steps, run_trace::proofs::ExtendsLemmas::extends_steps))]
    pub(crate) fn start(&mut self, alloc: Global, node: u8) -> Result<(), AllocError>
        requires linked { IsLinked self.old }
        requires orders { OrdersAre self.old }
        requires due { due_in self.old.trace ≡ Starts node }
        ensures steps { OnOk result (StepsOn self.old self.new) }
        ensures orders { OnOk result (OrdersAre self.new) }
        ensures extends { Extends self.old.trace self.new.trace }
        ensures left { OnErr result (StillReports self.new) }
    {
        starts_can_be_made();
        hold_one_list();
        let strike = self.run_report.orders_at(node).struck(3);
        self.try_start(alloc, node)?;
        match strike {
            None => self.boot(alloc, node),
            Some(strike) => {
                if strike.stands {
                    self.boot_and_fall(alloc, node)
                } else {
                    self.halt(alloc, node, false)
                }
            }
        }
    }

    // The start of a node is tried on its disk.
    #[tactic(auto, using(crate::proofs::LeftLemmas::left_steps))]
    fn try_start(&mut self, alloc: Global, node: u8) -> Result<(), AllocError>
        requires still { StillReports self.old }
        requires there { IsNode (length self.old.trace.places) node }
        requires inside { IsNode (length self.old.slots.items) node }
        requires ready { (slot : NodeSlotBy) → numbered self.old.slots.items node ≡ Some slot → CanStart (place_at self.old.trace.places node) slot }
        ensures tried { OnOk result (IsTriedAt node self.old self.new) }
        ensures left { OnErr result (StillReports self.new) }
        ensures same { self.new ≡ record self.old { slots = self.new.slots } }
    {
        let place = self.trace.places()[usize::from(node) - 1].copy(alloc)?;
        try_at(alloc, &mut self.slots, node, place)
    }

    // The record of the start of a node stands: it has started.
    #[tactic(auto, using(crate::proofs::LeftLemmas::left_steps, run_trace::proofs::ExtendsLemmas::extends_steps))]
    fn boot(&mut self, alloc: Global, node: u8) -> Result<(), AllocError>
        requires begun { IsStarting node self.old }
        ensures booted { OnOk result (HasBooted node self.old self.new) }
        ensures extends { Extends self.old.trace self.new.trace }
        ensures left { OnErr result (StillReports self.new) }
    {
        let boot = next_boot(&self.boots, node);
        self.report_start(alloc, node)?;
        self.trace.push(alloc, Happening::Started { node, boot })?;
        count_boot(&mut self.boots, node, boot);
        self.net.start(node);
        Ok(())
    }

    // What is told of a start.
    fn report_start(&mut self, alloc: Global, node: u8) -> Result<(), AllocError>
        requires there { IsNode (length self.old.trace.places) node }
        ensures tells { OnOk result (self.new.run_report ≡ acts (report_started self.old.trace.places self.old.run_report node (struck 3 (orders_of self.old.run_report node)))) }
        ensures lines { self.new.run_report.lines ≡ self.old.run_report.lines }
        ensures same { self.new ≡ record self.old { run_report = self.new.run_report } }
    {
        let place = &self.trace.places()[usize::from(node) - 1];
        let name = node_name(place.names.as_slice(), node);
        self.run_report.start(alloc, node, name)
    }

    // An order struck the start of a node behind its record: it has started, and stops at once.
    #[tactic(auto, using(crate::proofs::FallLemmas::fall_steps, crate::proofs::LeftLemmas::left_steps, run_trace::proofs::ExtendsLemmas::extends_steps))]
    fn boot_and_fall(&mut self, alloc: Global, node: u8) -> Result<(), AllocError>
        requires begun { IsStarting node self.old }
        requires due { due_in self.old.trace ≡ Starts node }
        requires struck { struck 3 (orders_of (past_of self.old.trace).run_report node) ≡ None → ⊥ }
        ensures steps { OnOk result (StepsOn self.old self.new) }
        ensures orders { OnOk result (OrdersAre self.new) }
        ensures extends { Extends self.old.trace self.new.trace }
        ensures left { OnErr result (StillReports self.new) }
    {
        self.boot(alloc, node)?;
        self.halt(alloc, node, true)
    }
}
