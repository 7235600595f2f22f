//! A command begins.
ghost use Rattle.std.specs.Prelude.{◌≡◌, OnErr, OnOk, IfOk};
ghost use Rattle.run_rules.specs.Due.{Begins};
ghost use Rattle.run_rules.specs.Commands.{begins};
ghost use Rattle.run_rules.specs.Facts.{command_at as command_at_of};
ghost use Rattle.run_trace.specs.Recorded.{Extends, past_of};
ghost use Rattle.run_report.specs.Facts.{up_for as up_for_by, transaction_for as transaction_for_by, KnownAtBegin};
ghost use Rattle.world.specs.Needs.{due_in};
ghost use Rattle.world.specs.Left.{IsLeft};
ghost use Rattle.world.specs.Linked.{IsLinked, OrdersStand};
ghost use Rattle.world.specs.Orders.{ArmedAt, OrderedBy, OrdersAre};
ghost use Rattle.world.specs.Steps.{StepsOn};

use crate::World;
use crate::slots::{has_transaction, is_up};
use block_disk::{DiskFault, Stop};
use book::Happening;
use dtx_values::Duplicate;
use run_report::BeginFacts;
use script_read::Command;
use std::alloc::{AllocError, Global};
use world_parts::{left_by, order_net};

impl World {
    /// The command of this number begins.
    #[tactic(auto, using(crate::proofs::BeginLemmas::begin_steps, crate::proofs::LeftLemmas::begin_left_steps, run_trace::proofs::ExtendsLemmas::extends_steps))]
    pub(crate) fn begin(&mut self, alloc: Global, number: u32) -> Result<(), AllocError>
        requires linked { IsLinked self.old }
        requires orders { OrdersAre self.old }
        requires due { due_in self.old.trace ≡ Begins number }
        ensures steps { OnOk result (StepsOn self.old self.new) }
        ensures orders { OnOk result (OrdersAre self.new) }
        ensures extends { Extends self.old.trace self.new.trace }
        ensures left { OnErr result (IsLeft self.new) }
    {
        let command = self.trace.asked()[number as usize - 1].copy(alloc)?;
        let begun = self.begin_with(alloc, number, &command);
        drop(command);
        begun
    }

    // This command, which has this number, begins.
    #[tactic(auto, using(crate::proofs::BeginLemmas::begin_steps, crate::proofs::LeftLemmas::begin_left_steps, run_trace::proofs::ExtendsLemmas::extends_steps))]
    fn begin_with(
        &mut self,
        alloc: Global,
        number: u32,
        command: &Command,
    ) -> Result<(), AllocError>
        requires linked { IsLinked self.old }
        requires orders { OrdersAre self.old }
        requires due { due_in self.old.trace ≡ Begins number }
        requires command { command.now ≡ command_at_of self.old.trace.asked number }
        ensures steps { OnOk result (StepsOn self.old self.new) }
        ensures orders { OnOk result (OrdersAre self.new) }
        ensures extends { Extends self.old.trace self.new.trace }
        ensures left { OnErr result (IsLeft self.new) }
    {
        self.report_begin(alloc, number, command)?;
        self.show_disk(alloc, number, command)?;
        order_net(&mut self.net, command)?;
        self.order_disk(alloc, command)?;
        self.trace
            .push(alloc, Happening::Begun { command: number })?;
        self.running = number;
        Ok(())
    }

    // What is told as a command begins. Fails where memory runs out.
    fn report_begin(
        &mut self,
        alloc: Global,
        number: u32,
        command: &Command,
    ) -> Result<(), AllocError>
        requires { IsLinked self.old }
        ensures tells { OnOk result (self.new.run_report ≡ begins self.old.trace.places (past_of self.old.trace).facts (past_of self.old.trace).run_report number command.now) }
        ensures same { self.new ≡ record self.old { run_report = self.new.run_report } }
        ensures lines { OnErr result (self.new.run_report.lines ≡ self.old.run_report.lines) }
    {
        let facts = self.begin_facts(alloc, command)?;
        self.run_report.begin(alloc, number, command, facts)?;
        Ok(())
    }

    // What is known as a command begins. Fails where memory runs out.
    fn begin_facts(&self, alloc: Global, command: &Command) -> Result<BeginFacts, AllocError>
        requires { IsLinked self.now }
        ensures { IfOk result (KnownAtBegin self.now.trace.places (past_of self.now.trace).facts (past_of self.now.trace).run_report command.now) }
    {
        let says = self.says_at_once(alloc, command)?;
        Ok(BeginFacts {
            running: self.running,
            flying: self.net.first().is_some(),
            says,
            is_up: self.up_for(command),
            has_transaction: self.transaction_for(command),
        })
    }

    // Whether the node of a client's call is up.
    #[tactic(auto, using(crate::proofs::DueLemmas::due_steps))]
    fn up_for(&self, command: &Command) -> bool
        requires { IsLinked self.now }
        ensures { result ≡ up_for_by (past_of self.now.trace).facts command.now }
    {
        match command {
            Command::At {
                node,
                session: _session,
                statement: _statement,
            } => is_up(&self.slots, *node),
            _ => false,
        }
    }

    // Whether its session has a transaction.
    #[tactic(auto, using(crate::proofs::DueLemmas::due_steps))]
    fn transaction_for(&self, command: &Command) -> bool
        requires { IsLinked self.now }
        ensures { result ≡ transaction_for_by (past_of self.now.trace).facts command.now }
    {
        match command {
            Command::At {
                node,
                session,
                statement: _statement,
            } => has_transaction(&self.slots, *node, *session),
            _ => false,
        }
    }

    // The order of CRASH or FAULT is given to a disk: its bytes stay. Fails where memory runs out.
    fn order_disk(&mut self, alloc: Global, command: &Command) -> Result<(), AllocError>
        ensures stands { OnOk result (OrdersStand self.old self.new) }
        ensures orders { OnOk result (OrderedBy command.now self.old.slots.items self.new.slots.items) }
        ensures same { self.new ≡ record self.old { slots = self.new.slots } }
    {
        match command {
            Command::Crash { node, write, how } => {
                let how = left_by(alloc, how)?;
                let stop = Stop { write: *write, how };
                self.arm(*node, DiskFault::Stop(stop));
                Ok(())
            }
            Command::Fault { node, call } => {
                self.arm(*node, DiskFault::Fault(*call));
                Ok(())
            }
            _ => Ok(()),
        }
    }

    fn arm(&mut self, node: u8, order: DiskFault)
        ensures stands { OrdersStand self.old self.new }
        ensures armed { ArmedAt node order self.old.slots.items self.new.slots.items }
        ensures same { self.new ≡ record self.old { slots = self.new.slots } }
    {
        let Some(at) = node.checked_sub(1) else {
            return;
        };
        let at = usize::from(at);
        if at < self.slots.len() {
            self.slots[at].arm(order);
        }
    }
}
