//! A node stops, and a node starts.
ghost use Rattle.std.specs.Prelude.{◌≡◌, ◌∷◌, [], IfOk, OnOk};
ghost use Rattle.run_rules.specs.Calls.{without_call};
ghost use Rattle.run_rules.specs.Disks.{struck};
ghost use Rattle.run_rules.specs.RunReport.{orders_at as orders_of};
ghost use Rattle.run_rules.specs.Past.{acts, falls_if, is_stop_of as is_stop_of_node};
ghost use Rattle.run_report.specs.Facts.{ReportsStart, ReportsStop};
ghost use Rattle.run_report.specs.Known.{call_falls, calls_fall, fallen, is_failed as is_failed_of, refused_start, start_said, started_by, stop_told, stopped_by, with_stop_of};

use crate::RunReport;
use book::Said;
use dtx_values::Notice;
use run_report_parts::{CallKey, Strike, down, keys_at, node_stopped};
use script_read::Command;
use std::alloc::{AllocError, Global};

/// What is known of the facts of a run as a node stops.
#[derive(Clone, Copy, Debug)]
pub struct StopFacts {
    /// The number of the command that runs.
    pub running: u32,
    /// Whether the node is up.
    pub is_up: bool,
    /// Whether a node has to stop since its turn was cut.
    pub is_owed: bool,
}

impl RunReport {
    /// A node of this name stops, in the course of this command: its calls end. Fails where memory runs out.
    #[tactic(auto, using(crate::proofs::KnownLemmas::stopped_is))]
    pub fn stop(
        &mut self,
        alloc: Global,
        node: u8,
        name: &[u8],
        command: &Command,
        facts: &StopFacts,
    ) -> Result<(), AllocError>
        ensures by_facts { OnOk result (self.new ≡ acts (stopped_by name.now facts.now self.old command.now node)) }
        ensures tells { OnOk result (ReportsStop facts.now self.old node name.now command.now self.new) }
        ensures before { self.new.lines ≡ self.old.lines }
    {
        self.fall(alloc, node, name, command, facts)
    }

    fn fall(
        &mut self,
        alloc: Global,
        node: u8,
        name: &[u8],
        command: &Command,
        facts: &StopFacts,
    ) -> Result<(), AllocError>
        ensures tells { OnOk result (self.new ≡ acts (stopped_by name.now facts.now self.old command.now node)) }
        ensures before { self.new.lines ≡ self.old.lines }
    {
        let keys = keys_at(alloc, &self.calls, node)?;
        self.refuse_start(alloc, node, name, command, facts)?;
        self.start_to_stop = None;
        self.drop_calls(alloc, facts.running, node, name, keys)?;
        self.report_stop(alloc, node, name, command)?;
        self.act();
        Ok(())
    }

    /// A node of this name starts. Fails where memory runs out.
    #[tactic(auto, using(crate::proofs::KnownLemmas::started_is))]
    pub fn start(&mut self, alloc: Global, node: u8, name: &[u8]) -> Result<(), AllocError>
        ensures by_name { OnOk result (self.new ≡ acts (started_by name.now self.old node (struck 3 (orders_of self.old node)))) }
        ensures tells { OnOk result (ReportsStart self.old node name.now self.new) }
        ensures before { self.new.lines ≡ self.old.lines }
    {
        self.boot(alloc, node, name)
    }

    fn boot(&mut self, alloc: Global, node: u8, name: &[u8]) -> Result<(), AllocError>
        ensures tells { OnOk result (self.new ≡ acts (started_by name.now self.old node (struck 3 (orders_of self.old node)))) }
        ensures before { self.new.lines ≡ self.old.lines }
    {
        let strike = self.orders_at(node).struck(3);
        let said = start_says(alloc, name, &strike)?;
        self.append(node, 3);
        self.page.say_alone(alloc, said)?;
        self.start_to_stop = to_stop(node, &strike);
        self.acted = true;
        Ok(())
    }

    // A START that an order struck before its Boot stood is refused, and the calls of its append are counted.
    fn refuse_start(
        &mut self,
        alloc: Global,
        node: u8,
        name: &[u8],
        command: &Command,
        facts: &StopFacts,
    ) -> Result<(), AllocError>
        ensures tells { OnOk result (self.new ≡ refused_start name.now facts.now self.old command.now node) }
        ensures before { self.new.lines ≡ self.old.lines }
    {
        if is_failed(facts, command, node) {
            let said = down(alloc, name)?;
            self.append(node, 3);
            self.page.say_alone(alloc, said)
        } else {
            Ok(())
        }
    }

    fn drop_calls(
        &mut self,
        alloc: Global,
        running: u32,
        node: u8,
        name: &[u8],
        keys: Vec<CallKey>,
    ) -> Result<(), AllocError>
        ensures tells { OnOk result (self.new ≡ calls_fall running self.old node name.now keys.items) }
        ensures before { self.new.lines ≡ self.old.lines }
    {
        for key in keys {
            self.drop_call(alloc, running, node, name, key)?;
        }
        Ok(())
    }

    fn drop_call(
        &mut self,
        alloc: Global,
        running: u32,
        node: u8,
        name: &[u8],
        key: CallKey,
    ) -> Result<(), AllocError>
        ensures tells { OnOk result (self.new ≡ call_falls running self.old node name.now key) }
        ensures before { self.new.lines ≡ self.old.lines }
    {
        let said = down(alloc, name)?;
        self.close(alloc, running, node, key.session, key.command, said)
    }

    // Every stop is told but a STOP's own.
    fn report_stop(
        &mut self,
        alloc: Global,
        node: u8,
        name: &[u8],
        command: &Command,
    ) -> Result<(), AllocError>
        ensures tells { OnOk result (self.new ≡ stop_told name.now self.old command.now node) }
        ensures before { self.new.lines ≡ self.old.lines }
    {
        if is_stop_of(command, node) {
            Ok(())
        } else {
            self.page.add_stop(node_stopped(alloc, name)?)
        }
    }
}

fn is_failed(facts: &StopFacts, command: &Command, node: u8) -> bool
    ensures { result ≡ is_failed_of facts.now command.now node }
{
    match command {
        Command::Start { node: started } => *started == node && (!facts.is_up && !facts.is_owed),
        _ => false,
    }
}

fn is_stop_of(command: &Command, node: u8) -> bool
    ensures { result ≡ is_stop_of_node command.now node }
{
    match command {
        Command::Stop { node: stopped } => *stopped == node,
        _ => false,
    }
}

// A START answers ok, or DTX-01 where an order strikes it after its Boot stands.
fn start_says(alloc: Global, name: &[u8], strike: &Option<Strike>) -> Result<Said, AllocError>
    ensures { IfOk result (λ said. said ∷ [] ≡ start_said name.now strike.now) }
{
    match strike {
        None => Ok(Said::World(Notice::Fine)),
        Some(_) => down(alloc, name),
    }
}

// And then its node stops at once.
fn to_stop(node: u8, strike: &Option<Strike>) -> Option<u8>
    ensures { result ≡ falls_if node strike.now }
{
    match strike {
        None => None,
        Some(_) => Some(node),
    }
}
