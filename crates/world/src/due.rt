//! What is due next.
ghost use Rattle.std.specs.Prelude.{◌≡◌, IfOk};
ghost use Rattle.run_rules.specs.Facts.{command_at as command_at_of};
ghost use Rattle.run_trace.specs.Recorded.{past_of};
ghost use Rattle.run_report.specs.Due.{due_as, may_act as may_act_by};
ghost use Rattle.run_report.specs.Facts.{KnownDue};
ghost use Rattle.world.specs.Needs.{due_in};
ghost use Rattle.world.specs.Linked.{IsLinked};

use crate::World;
use crate::slots::{is_enabled, is_up};
use run_report::{Due, DueFacts};
use script_read::Command;
use std::alloc::{AllocError, Global};
use world_parts::command_at;

impl World {
    /// What is due next. Fails where memory runs out.
    #[tactic(auto, using(crate::proofs::DueLemmas::due_steps))]
    pub(crate) fn due(&self, alloc: Global) -> Result<Due, AllocError>
        requires { IsLinked self.now }
        ensures { IfOk result (λ due. due_as due ≡ due_in self.now.trace) }
    {
        let none = Command::ShowBook;
        let command = command_at(self.trace.asked(), self.running, &none);
        let facts = self.due_facts(command);
        let due = self.run_report.due(alloc, command, &facts);
        drop(none);
        due
    }

    // What is known where it is asked what is due.
    #[tactic(auto, using(crate::proofs::DueLemmas::due_steps))]
    fn due_facts(&self, command: &Command) -> DueFacts
        requires linked { IsLinked self.now }
        requires command { command.now ≡ command_at_of self.now.trace.asked self.now.running }
        ensures { KnownDue self.now.trace.asked (past_of self.now.trace).facts result }
    {
        DueFacts {
            running: self.running,
            asked: self.trace.asked().len() as u32,
            loss: self.losses.front().copied(),
            to_stop: self.to_stop,
            flying: self.net.first(),
            may_act: self.may_act(command),
        }
    }

    // Whether the command that runs may act: its message is in flight or may be repeated, its node is up, or distributed
    // recovery is enabled there.
    #[tactic(auto, using(crate::proofs::DueLemmas::due_steps))]
    fn may_act(&self, command: &Command) -> bool
        requires { IsLinked self.now }
        ensures { result ≡ may_act_by (past_of self.now.trace).facts command.now }
    {
        match command {
            Command::Lose { k } => self.net.in_flight(u64::from(*k)),
            Command::Stop { node } => is_up(&self.slots, *node),
            Command::Start { node } => is_up(&self.slots, *node),
            Command::Deliver { k } => self.net.in_flight(u64::from(*k)),
            Command::Again { k } => self.net.again(u64::from(*k)).is_some(),
            Command::GiveUp {
                node,
                session: _session,
            } => is_up(&self.slots, *node),
            Command::Reco { node } => is_enabled(&self.slots, *node),
            _ => true,
        }
    }
}
