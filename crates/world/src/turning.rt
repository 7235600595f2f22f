//! A node takes a turn.
ghost use Rattle.std.specs.Prelude.{◌≡◌, ◌<◌, ◌-◌, ◌^◌, [], length, map, is_some, true, OnOk, IfOk, IfErr, IfSome, OnErr};
ghost use Rattle.std.specs.List.{AllByRecursion};
ghost use Rattle.net_bag.specs.Net.{sent_on, lost_at_once};
ghost use Rattle.node_disk.specs.Effects.{IsMailed, call_of};
ghost use Rattle.run_rules.specs.Facts.{taken};
ghost use Rattle.run_rules.specs.Lawful.{IsNode};
ghost use Rattle.run_rules.specs.Data.happenings as occurrences;
ghost use Rattle.run_trace.specs.Recorded.{Extends, IsDueNext};
ghost use Rattle.run_report.specs.Turned.{cut_as};
ghost use Rattle.world.specs.Needs.{DeliveriesAreFew, DueTurnsCanBeTaken, due_in};
ghost use Rattle.world.specs.Left.{StillReports};
ghost use Rattle.world.specs.Linked.{IsLinked};
ghost use Rattle.world.specs.Orders.{OrdersAre};
ghost use Rattle.world.specs.Steps.{StepsOn};
ghost use Rattle.world.specs.Stops.{StopsAt};
ghost use Rattle.world.specs.Turns.{TookIs, IsComingDue, IsDuring, IsCutDuring, IsCutShort, IsReadied, TurnIsReported, stands_by, stood};

use crate::World;
use crate::laws::{numbers_stay_small, what_is_due_can_happen};
use crate::mail::{ended_calls, send_all};
use crate::serving::{caller, serve};
use crate::slot::NodeSlot;
use book::{Happening, Took, Turn};
use dtx_values::Listing;
use node_disk::{CutTurn, DurableTurn, Finished, Incoming, Mailed, TurnErr};
use node_rules::{Ended, Session};
use run_report::{Cut, TurnFacts};
use std::alloc::{AllocError, Global};
use std::collections::VecDeque;
use wire_msg::Msgs;
use world_parts::take_message;

/// A turn as it is begun: its node, which message it takes, and the session that calls, where one does.
#[derive(Clone, Copy, Debug)]
pub(crate) struct Begun {
    /// The node's number, from 1.
    node: u8,
    /// Which message was delivered, where one was.
    took: Option<Took>,
    /// The session before the turn that calls, where the input is a client's call.
    caller: Session,
}

// Whether the record of a cut turn stands.
fn stands(cut: Cut) -> bool
    ensures { result ≡ stands_by (cut_as cut) }
{
    match cut {
        Cut::Whole => false,
        Cut::Before(_passes) => false,
        Cut::After(_passes) => true,
        Cut::InAppend { stands } => stands,
    }
}

// What is known of a turn that was cut: nothing of the calls that it would have ended.
fn cut_facts(alloc: Global, begun: Begun, cut: &CutTurn) -> TurnFacts
    ensures caller { result.caller ≡ begun.caller }
    ensures writes { result.writes ≡ is_some cut.now.tried }
    ensures passes { result.passes ≡ cut.now.passes }
{
    TurnFacts {
        caller: begun.caller,
        writes: cut.tried.is_some(),
        passes: cut.passes,
        ended: Listing::new(alloc),
    }
}

// A turn that was cut: its record stands or not, and nothing is sent.
fn cut_short(alloc: Global, begun: Begun, cut: CutTurn, stands: bool) -> Turn
    ensures { result ≡ record { node = begun.node; input = cut.input; took = begun.took; wrote = stood stands cut.tried; sent = []; cut = true } }
{
    let CutTurn { input, tried, .. } = cut;
    Turn {
        node: begun.node,
        input,
        took: begun.took,
        wrote: if stands { tried } else { None },
        sent: Listing::new(alloc),
        cut: true,
    }
}

// A node stops.
fn stop_at(alloc: Global, slots: &mut Vec<NodeSlot>, node: u8)
    requires { IsNode (length slots.old.items) node }
    ensures { StopsAt node slots.old.items slots.new.items }
{
    slots[usize::from(node) - 1].stop(alloc);
}

// The turn that is due can be taken, and a command makes few deliveries.
fn turns_can_be_taken()
    ensures turns { DueTurnsCanBeTaken }
    ensures deliveries { DeliveriesAreFew }
{
    what_is_due_can_happen();
    numbers_stay_small();
}

impl World {
    /// The turn of a node that is due, over this input. Fails where memory runs out.
    #[tactic(auto, using(crate::proofs::TakeLemmas::take_steps, run_trace::proofs::ExtendsLemmas::extends_steps))]
    pub(crate) fn turn(
        &mut self,
        alloc: Global,
        node: u8,
        incoming: Incoming,
        took: Option<Took>,
    ) -> Result<(), AllocError>
        requires linked { IsLinked self.old }
        requires orders { OrdersAre self.old }
        requires due { IsComingDue incoming node self.old }
        requires took { TookIs (due_in self.old.trace) took }
        ensures steps { OnOk result (StepsOn self.old self.new) }
        ensures orders { OnOk result (OrdersAre self.new) }
        ensures extends { Extends self.old.trace self.new.trace }
        ensures left { OnErr result (StillReports self.new) }
    {
        turns_can_be_taken();
        let begun = self.begin_turn(node, &incoming, took);
        match self.take_turn(begun, incoming) {
            Ok(effects) => self.turn_whole(alloc, begun, effects),
            Err(TurnErr::Cut(cut)) => self.turn_cut(alloc, begun, cut),
            Err(TurnErr::NoMemory) => Err(AllocError),
        }
    }

    // A turn that is due, before its node takes it.
    fn begin_turn(&self, node: u8, incoming: &Incoming, took: Option<Took>) -> Begun
        requires linked { IsLinked self.now }
        requires orders { OrdersAre self.now }
        requires turns { DueTurnsCanBeTaken }
        requires deliveries { DeliveriesAreFew }
        requires due { IsComingDue incoming.now node self.now }
        requires took { TookIs (due_in self.now.trace) took }
        requires there { IsNode (length self.now.slots.items) node }
        ensures { IsReadied result incoming.now self.now }
    {
        let slot = &self.slots[usize::from(node) - 1];
        Begun {
            node,
            took,
            caller: caller(slot, incoming),
        }
    }

    // The node takes its turn: it is whole, or cut, or there was no memory for it.
    fn take_turn(&mut self, begun: Begun, incoming: Incoming) -> Result<DurableTurn, TurnErr>
        requires readied { IsReadied begun incoming self.old }
        requires there { IsNode (length self.old.slots.items) begun.node }
        ensures whole { IfOk result (λ effects. IsDuring begun effects self.new) }
        ensures cut { IfErr result (λ err. IsCutShort begun err self.new) }
        ensures trace { self.new.trace ≡ self.old.trace }
        ensures run_report { self.new.run_report ≡ self.old.run_report }
        ensures shown { self.new.shown ≡ self.old.shown }
    {
        let points = self.run_report.points();
        let slot = &mut self.slots[usize::from(begun.node) - 1];
        serve(slot, incoming, points)
    }

    // The turn was whole: its record stands, its messages are sent, and its calls end.
    fn turn_whole(
        &mut self,
        alloc: Global,
        begun: Begun,
        effects: DurableTurn,
    ) -> Result<(), AllocError>
        requires during { IsDuring begun effects self.old }
        ensures steps { OnOk result (StepsOn self.old self.new) }
        ensures orders { OnOk result (OrdersAre self.new) }
        ensures extends { Extends self.old.trace self.new.trace }
        ensures left { StillReports self.old → StillReports self.new }
    {
        let DurableTurn {
            input,
            wrote,
            sent,
            ended,
            passes,
        } = effects;
        match self.end_and_send(alloc, begun.took, ended, sent.into_vec()) {
            Ok((ended, sent)) => {
                let facts = TurnFacts {
                    caller: begun.caller,
                    writes: wrote.is_some(),
                    passes,
                    ended,
                };
                let turn = Turn {
                    node: begun.node,
                    input,
                    took: begun.took,
                    wrote,
                    sent,
                    cut: false,
                };
                self.report_turn(alloc, turn, facts)
            }
            Err(err) => {
                drop(input);
                drop(wrote);
                Err(err)
            }
        }
    }

    // The calls that a turn ended, and the messages that it sends.
    fn end_and_send(
        &mut self,
        alloc: Global,
        took: Option<Took>,
        ended: Listing<Finished>,
        mails: Vec<Mailed>,
    ) -> Result<(Ended, Msgs), AllocError>
        requires { AllByRecursion IsMailed mails.items }
        ensures ended { IfOk result (λ done. done.0 ≡ map call_of ended) }
        ensures sent { IfOk result (λ done. done.1 ≡ map (λ mail. mail.msg) mails.items) }
        ensures net { OnOk result (self.new.net ≡ sent_on (taken self.old.net took) (map (λ mail. mail.msg) mails.items)) }
        ensures losses { OnOk result (self.new.losses.items ≡ lost_at_once (taken self.old.net took) (map (λ mail. mail.msg) mails.items)) }
        ensures same { self.new ≡ record self.old { net = self.new.net; losses = self.new.losses } }
    {
        let ended = ended_calls(alloc, ended)?;
        let sent = self.send(alloc, took, mails)?;
        Ok((ended, sent))
    }

    // The message of a turn is taken, and its own are sent. There is no loss to tell before it.
    fn send(
        &mut self,
        alloc: Global,
        took: Option<Took>,
        mails: Vec<Mailed>,
    ) -> Result<Msgs, AllocError>
        requires { AllByRecursion IsMailed mails.items }
        ensures sent { IfOk result (λ msgs. msgs ≡ map (λ mail. mail.msg) mails.items) }
        ensures net { OnOk result (self.new.net ≡ sent_on (taken self.old.net took) (map (λ mail. mail.msg) mails.items)) }
        ensures losses { OnOk result (self.new.losses.items ≡ lost_at_once (taken self.old.net took) (map (λ mail. mail.msg) mails.items)) }
        ensures same { self.new ≡ record self.old { net = self.new.net; losses = self.new.losses } }
    {
        take_message(&mut self.net, took);
        self.losses = VecDeque::new(alloc);
        send_all(alloc, &mut self.net, &mut self.losses, mails)
    }

    // The turn was cut: its record stands or not, nothing is sent, and its node, which comes to no end, has to stop.
    fn turn_cut(&mut self, alloc: Global, begun: Begun, cut: CutTurn) -> Result<(), AllocError>
        requires during { IsCutDuring begun cut self.old }
        ensures steps { OnOk result (StepsOn self.old self.new) }
        ensures orders { OnOk result (OrdersAre self.new) }
        ensures extends { Extends self.old.trace self.new.trace }
        ensures left { StillReports self.old → StillReports self.new }
    {
        let facts = cut_facts(alloc, begun, &cut);
        let by = self.run_report.cut(begun.node, facts.writes, facts.passes);
        let turn = cut_short(alloc, begun, cut, stands(by));
        take_message(&mut self.net, begun.took);
        stop_at(alloc, &mut self.slots, begun.node);
        self.to_stop = Some(begun.node);
        self.report_turn(alloc, turn, facts)
    }

    // A turn is told, and the trace takes it, also where there was no memory to tell it: it has happened.
    #[tactic(auto, using(run_trace::proofs::ExtendsLemmas::extends_steps))]
    fn report_turn(&mut self, alloc: Global, turn: Turn, facts: TurnFacts) -> Result<(), AllocError>
        requires next { IsDueNext self.old.trace (occurrences.Turn turn) }
        requires few { IfSome turn.took (λ took. self.old.run_report.deliveries < 2 ^ 32 - 1) }
        ensures told { OnOk result (TurnIsReported turn facts self.old self.new) }
        ensures left { StillReports self.old → StillReports self.new }
        ensures same { self.new ≡ record self.old { trace = self.new.trace; run_report = self.new.run_report } }
        ensures extends { Extends self.old.trace self.new.trace }
    {
        let told = self.run_report.turn(alloc, self.running, &turn, facts);
        self.trace.push(alloc, Happening::Turn(turn))?;
        told
    }
}
