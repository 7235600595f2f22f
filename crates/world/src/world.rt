//! The world of a run.
ghost use Rattle.std.specs.Prelude.{◌≡◌, ◌<◌, ◌^◌, [], length, IfOk, OnErr, OnOk};
ghost use Rattle.run_rules.specs.Due.{Ends};
ghost use Rattle.run_rules.specs.Entries.{book_of};
ghost use Rattle.run_rules.specs.Lawful.{AreOfAScript};
ghost use Rattle.run_trace.specs.Recorded.{Extends};
ghost use Rattle.world.specs.Needs.{due_in};
ghost use Rattle.world.specs.Linked.{IsLinked};
ghost use Rattle.world.specs.Orders.{OrdersAre};
ghost use Rattle.run_report.specs.Due.{due_as};
ghost use Rattle.run_report.specs.declared.due.Due.TheVariants as dues;
ghost use Rattle.world.specs.Left.{IsLeft};
ghost use Rattle.world.specs.Steps.{Steps, StepsOn};
ghost use Rattle.std.specs.List.{AllByRecursion};
ghost use Rattle.script_read.specs.Sound.{IsInRange};
ghost use Rattle.run_spell_laws.specs.ByteRuns.{AsksSpelled};

use crate::slot::NodeSlot;
use crate::slots::made_all;
use book::Entry;
use net_bag::Bag;
use redo_record::Places;
use run_report::{Due, RunReport};
use run_trace::Trace;
use script_read::Commands;
use std::alloc::{AllocError, Global};
use std::collections::VecDeque;
use world_parts::{DisksShown, once_each};

/// The world of a run so far.
#[derive(Drop)]
pub struct World {
    /// What happened, and the book.
    pub(crate) trace: Trace,
    /// The nodes, from number 1.
    pub(crate) slots: Vec<NodeSlot>,
    /// How often each node has started.
    pub(crate) boots: Vec<u32>,
    /// The messages.
    pub(crate) net: Bag,
    /// The number of the command that runs, and 0 before the first.
    pub(crate) running: u32,
    /// The numbers of messages whose losses come next.
    pub(crate) losses: VecDeque<u64>,
    /// The node of a cut turn, whose stop comes next.
    pub(crate) to_stop: Option<u8>,
    /// What is told, and what comes next beside the facts.
    pub(crate) run_report: RunReport,
    /// What SHOW DISK has shown.
    pub(crate) shown: DisksShown,
}

impl World {
    /// The world before anything happened: every node is made on an empty disk. Fails where memory runs out.
    #[tactic(auto, using(crate::proofs::BeginLemmas::begin_steps), unfolding(run_rules::specs::Past::past))]
    pub fn new(alloc: Global, places: Places, commands: Commands) -> Result<World, AllocError>
        requires script { AreOfAScript places commands }
        requires few { length commands < 2 ^ 18 }
        requires in_range { AllByRecursion IsInRange commands }
        requires spelled { AllByRecursion AsksSpelled commands }
        ensures linked { IfOk result IsLinked }
        ensures orders { IfOk result OrdersAre }
        ensures fresh { IfOk result (λ world. world.trace ≡ record { places = places; asked = commands; happenings = [] }) }
    {
        let slots = made_all(alloc, places.as_slice())?;
        let boots = once_each(alloc, slots.len())?;
        let run_report = RunReport::new(alloc, slots.len())?;
        Ok(World {
            trace: Trace::new(alloc, places, commands),
            slots,
            boots,
            net: Bag::new(alloc),
            running: 0,
            losses: VecDeque::new(alloc),
            to_stop: None,
            run_report,
            shown: DisksShown::new(alloc),
        })
    }

    /// Lets happen what is due. Whether anything was: `false` where the script was run. Fails where memory runs out, and then the
    /// trace is still that of a run of the script, the lines of the commands before can be told, and the world is of no further use.
    #[tactic(auto, using(crate::proofs::LeftLemmas::begin_left_steps, run_trace::proofs::ExtendsLemmas::extends_steps))]
    pub fn step(&mut self, alloc: Global) -> Result<bool, AllocError>
        requires linked { IsLinked self.old }
        requires orders { OrdersAre self.old }
        ensures steps { IfOk result (Steps self.old self.new) }
        ensures orders { OnOk result (OrdersAre self.new) }
        ensures extends { Extends self.old.trace self.new.trace }
        ensures left { OnErr result (IsLeft self.new) }
    {
        match self.due(alloc)? {
            Due::Ends => Ok(false),
            due => {
                self.happen(alloc, due)?;
                Ok(true)
            }
        }
    }

    // Lets this happen, which is due.
    #[tactic(auto, using(crate::proofs::LeftLemmas::begin_left_steps, run_trace::proofs::ExtendsLemmas::extends_steps))]
    fn happen(&mut self, alloc: Global, due: Due) -> Result<(), AllocError>
        requires linked { IsLinked self.old }
        requires orders { OrdersAre self.old }
        requires due { due_as due ≡ due_in self.old.trace }
        requires more { due ≡ dues.Ends → ⊥ }
        ensures steps { OnOk result (StepsOn self.old self.new) }
        ensures orders { OnOk result (OrdersAre self.new) }
        ensures extends { Extends self.old.trace self.new.trace }
        ensures left { OnErr result (IsLeft self.new) }
    {
        match due {
            Due::Tells { k } => self.report_loss(alloc, k),
            Due::Falls { node } => self.fall(alloc, node),
            Due::Pends(call) => self.call(alloc, call),
            Due::GivesUp { node, session } => self.give_up(alloc, node, session),
            Due::Delivers { k, again } => self.deliver(alloc, k, again),
            Due::Recovers { node } => self.recover(alloc, node),
            Due::Cuts { a, b } => self.cut(alloc, a, b),
            Due::Joins { a, b } => self.join(alloc, a, b),
            Due::Loses { k } => self.lose(alloc, k),
            Due::Stops { node } => self.stop(alloc, node),
            Due::Starts { node } => self.start(alloc, node),
            Due::Begins { command } => self.begin(alloc, command),
            Due::Ends => unreachable!(),
        }
    }

    /// Runs the script to its end. Fails where memory runs out, and then the trace is that of a first part of the run, and the
    /// lines of the commands before can be told.
    #[tactic(auto, using(run_trace::proofs::ExtendsLemmas::extends_steps))]
    pub fn run(&mut self, alloc: Global) -> Result<(), AllocError>
        requires linked { IsLinked self.old }
        requires orders { OrdersAre self.old }
        ensures linked { OnOk result (IsLinked self.new) }
        ensures whole { OnOk result (due_in self.new.trace ≡ Ends) }
        ensures extends { Extends self.old.trace self.new.trace }
        ensures left { OnErr result (IsLeft self.new) }
    {
        'steps: loop {
            if !self.step(alloc)? {
                return Ok(());
            }
        }
    }

    /// The entries of the book so far, in order.
    pub fn book(&self) -> &[Entry]
        ensures { result.now ≡ book_of self.now.trace.happenings }
    {
        self.trace.book()
    }

    /// What happened so far, and of which script.
    pub fn trace(&self) -> &Trace
        ensures { result.now ≡ self.now.trace }
    {
        &self.trace
    }
}
