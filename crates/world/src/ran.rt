//! A run that has ended, and what is told of it.
ghost use Rattle.std.specs.Prelude.{◌≡◌, ◌<◌, ◌^◌, length, IfOk};
ghost use Rattle.std.specs.List.{AllByRecursion};
ghost use Rattle.run_spell_laws.specs.ByteRuns.{AsksSpelled};
ghost use Rattle.script_read.specs.Sound.{IsInRange};
ghost use Rattle.run_rules.specs.Due.{Ends};
ghost use Rattle.run_rules.specs.Lawful.{AreOfAScript};
ghost use Rattle.run_trace.specs.Recorded.{Extends, past_of};
ghost use Rattle.world.specs.Linked.{IsLinked};
ghost use Rattle.world.specs.Needs.{due_in};
ghost use Rattle.world.specs.Orders.{OrdersAre};
ghost use Rattle.world.specs.Pending.{pending_in};
ghost use Rattle.world.specs.Ran.{IsLeftBy, IsRan};
ghost use Rattle.world.specs.declared.ran.Ended.TheVariants.{AllRun};

use crate::World;
use book::AnswerLines;
use redo_record::Places;
use run_trace::RunRecord;
use script_read::Commands;
use std::alloc::{AllocError, Global};
use world_parts::with_disks;

/// How a run ended.
#[derive(Clone, Copy, Debug, PartialEq, Eq)]
pub enum Ended {
    /// Its script was run to the end.
    AllRun,
    /// Memory ran out.
    OutOfMemory,
}

/// A run that has ended.
#[derive(Drop)]
pub struct EndedRun {
    /// Its nodes and its script, what happened, and the book.
    pub recorded: RunRecord,
    /// What is told of it: the answers of its commands, in order.
    pub answers: AnswerLines,
    /// How it ended.
    pub ended: Ended,
    /// How many rows DBA_2PC_PENDING has over all nodes at its end, where its script was run to the end.
    pub pending: u128,
}

impl World {
    // The lines of the last command are told, where there is memory for them.
    #[tactic(auto, using(crate::proofs::RanLemmas::ran_steps, crate::proofs::LeftLemmas::left_steps))]
    fn report_end(&mut self, alloc: Global) -> Ended
        requires linked { IsLinked self.old }
        requires ends { due_in self.old.trace ≡ Ends }
        ensures left { IsLeftBy result self.new }
        ensures trace { self.new.trace ≡ self.old.trace }
    {
        let flying = self.net.first().is_some();
        match self.run_report.finish(alloc, self.running, flying) {
            Ok(()) => Ended::AllRun,
            Err(_) => Ended::OutOfMemory,
        }
    }

    // Runs the script to its end, or as far as memory goes. With how it ended comes how many rows DBA_2PC_PENDING then has.
    #[tactic(auto, using(run_trace::proofs::ExtendsLemmas::extends_steps))]
    fn run_and_report(&mut self, alloc: Global) -> (Ended, u128)
        requires linked { IsLinked self.old }
        requires orders { OrdersAre self.old }
        ensures left { IsLeftBy result.0 self.new }
        ensures extends { Extends self.old.trace self.new.trace }
        ensures pending { result.0 ≡ AllRun → result.1 ≡ pending_in (past_of self.new.trace).facts }
    {
        match self.run(alloc) {
            Ok(()) => {
                let pending = self.pending_rows();
                (self.report_end(alloc), pending)
            }
            Err(_) => (Ended::OutOfMemory, 0),
        }
    }

    // The run, and what is told of it.
    #[tactic(auto, using(crate::proofs::RanLemmas::ran_ends))]
    fn into_ran(self, ended: Ended, pending: u128) -> EndedRun
        requires left { IsLeftBy ended self }
        requires pending { ended ≡ AllRun → pending ≡ pending_in (past_of self.trace).facts }
        ensures places { result.recorded.places ≡ self.trace.places }
        ensures asked { result.recorded.asked ≡ self.trace.asked }
        ensures ran { IsRan result }
    {
        self.trace.is_run();
        let mut shown = self.shown;
        let answers = with_disks(&mut shown, self.run_report.into_lines());
        EndedRun {
            recorded: self.trace.into_recorded(),
            answers,
            ended,
            pending,
        }
    }
}

/// Runs a script over nodes at these places, to its end or as far as memory goes. Fails where there is no memory to begin.
pub fn run(alloc: Global, places: Places, commands: Commands) -> Result<EndedRun, AllocError>
    requires script { AreOfAScript places commands }
    requires few { length commands < 2 ^ 18 }
    requires in_range { AllByRecursion IsInRange commands }
    requires spelled { AllByRecursion AsksSpelled commands }
    ensures places { IfOk result (λ ran. ran.recorded.places ≡ places) }
    ensures asked { IfOk result (λ ran. ran.recorded.asked ≡ commands) }
    ensures ran { IfOk result IsRan }
{
    let mut world = World::new(alloc, places, commands)?;
    let (ended, pending) = world.run_and_report(alloc);
    Ok(world.into_ran(ended, pending))
}
