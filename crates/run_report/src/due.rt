//! What is due next.
ghost use Rattle.std.specs.Prelude.{◌≡◌, ◌&&◌, is_some, option_map, IfOk};
ghost use Rattle.run_rules.specs.Due.{if_due as if_due_of, call_due as call_due_of, most_of as most_of_command, Delivers, Gives_up};
ghost use Rattle.run_rules.specs.Calls.{call_at as call_at_of};
ghost use Rattle.run_report.specs.Facts.{IsDue};
ghost use Rattle.run_report.specs.Due.{due_as, due_by, act_by, acts_once_by, flows_by, next_command_by, next_give_up_by, next_delivery_by, next_pumped_by};

use crate::RunReport;
use dtx_values::{DELIVERY_LIMIT, Duplicate};
use run_report_parts::{Call, call_at};
use script_read::Command;
use std::alloc::{AllocError, Global};

/// What is due next.
#[derive(Drop)]
pub enum Due {
    /// A loss that is to be told.
    Tells { k: u64 },
    /// The stop of a node whose turn was cut, or that was struck in its start.
    Falls { node: u8 },
    /// A client's call.
    Pends(Call),
    /// A call is given up.
    GivesUp { node: u8, session: u32 },
    /// A message, or a copy of one.
    Delivers { k: u64, again: bool },
    /// RECO.
    Recovers { node: u8 },
    /// CUT.
    Cuts { a: u8, b: u8 },
    /// JOIN.
    Joins { a: u8, b: u8 },
    /// LOSE.
    Loses { k: u64 },
    /// STOP.
    Stops { node: u8 },
    /// START.
    Starts { node: u8 },
    /// The next command.
    Begins { command: u32 },
    /// Nothing: the script was run.
    Ends,
}

/// What is known of the facts of a run where it is asked what is due.
#[derive(Clone, Copy, Debug)]
pub struct DueFacts {
    /// The number of the command that runs, and 0 before the first.
    pub running: u32,
    /// The number of commands.
    pub asked: u32,
    /// The first loss that is to be told.
    pub loss: Option<u64>,
    /// The node of a cut turn, whose stop comes next.
    pub to_stop: Option<u8>,
    /// The message in flight with the least number.
    pub flying: Option<u64>,
    /// Whether the command that runs may act: its message is in flight or may be repeated, its node is up, or distributed
    /// recovery is enabled there. START may where its node is not up.
    pub may_act: bool,
}

impl RunReport {
    /// What is due next, where this command runs; before the first it is not looked at. Fails where memory runs out.
    #[tactic(auto, using(crate::proofs::KnownLemmas::due_is))]
    pub fn due(&self, alloc: Global, command: &Command, facts: &DueFacts) -> Result<Due, AllocError>
        ensures by_facts { IfOk result (λ due. due_as due ≡ due_by facts.now self.now command.now) }
        ensures due { IfOk result (λ due. IsDue facts.now self.now command.now (due_as due)) }
    {
        self.next(alloc, command, facts)
    }

    fn next(&self, alloc: Global, command: &Command, facts: &DueFacts) -> Result<Due, AllocError>
        ensures { IfOk result (λ due. due_as due ≡ due_by facts.now self.now command.now) }
    {
        if let Some(k) = facts.loss {
            return Ok(Due::Tells { k });
        }
        if let Some(node) = facts.to_stop {
            return Ok(Due::Falls { node });
        }
        if let Some(node) = self.start_to_stop {
            return Ok(Due::Falls { node });
        }
        match &self.next_call {
            None => self.due_of_command(alloc, command, facts),
            Some(call) => Ok(Due::Pends(call.copy(alloc)?)),
        }
    }

    // The command's own act comes first, and once.
    fn due_of_command(
        &self,
        alloc: Global,
        command: &Command,
        facts: &DueFacts,
    ) -> Result<Due, AllocError>
        ensures { IfOk result (λ due. due_as due ≡ acts_once_by facts.now self.now command.now) }
    {
        if self.acted {
            return Ok(self.flows(command, facts));
        }
        match self.act_of(alloc, command, facts)? {
            None => Ok(self.flows(command, facts)),
            Some(due) => Ok(due),
        }
    }

    // The happening that a command makes by itself.
    fn act_of(
        &self,
        alloc: Global,
        command: &Command,
        facts: &DueFacts,
    ) -> Result<Option<Due>, AllocError>
        ensures { IfOk result (λ due. option_map due_as due ≡ act_by facts.now self.now command.now) }
    {
        match command {
            Command::At { node, session, .. } => self.call_due(alloc, facts, *node, *session),
            Command::Cut { a, b } => Ok(Some(Due::Cuts { a: *a, b: *b })),
            Command::Join { a, b } => Ok(Some(Due::Joins { a: *a, b: *b })),
            Command::Lose { k } => Ok(if_due(facts.may_act, Due::Loses { k: u64::from(*k) })),
            Command::Stop { node } => Ok(if_due(facts.may_act, Due::Stops { node: *node })),
            Command::Start { node } => Ok(if_due(!facts.may_act, Due::Starts { node: *node })),
            Command::Deliver { k } => Ok(if_due(facts.may_act, delivery(u64::from(*k), false))),
            Command::Again { k } => Ok(if_due(facts.may_act, delivery(u64::from(*k), true))),
            Command::GiveUp { node, session } => Ok(self.give_up_due(facts, *node, *session)),
            Command::Reco { node } => Ok(if_due(facts.may_act, Due::Recovers { node: *node })),
            _ => Ok(None),
        }
    }

    // The call of the command that runs.
    fn call_due(
        &self,
        alloc: Global,
        facts: &DueFacts,
        node: u8,
        session: u32,
    ) -> Result<Option<Due>, AllocError>
        ensures { IfOk result (λ due. option_map due_as due ≡ call_due_of facts.now.running (call_at_of self.now node session)) }
    {
        match call_at(&self.calls, node, session) {
            None => Ok(None),
            Some(call) => {
                if call.command == facts.running {
                    Ok(Some(Due::Pends(call.copy(alloc)?)))
                } else {
                    Ok(None)
                }
            }
        }
    }

    fn give_up_due(&self, facts: &DueFacts, node: u8, session: u32) -> Option<Due>
        ensures { option_map due_as result ≡ if_due_of (facts.now.may_act && is_some (call_at_of self.now node session)) (Gives_up node session) }
    {
        let pends = self.has_call(node, session);
        if_due(facts.may_act && pends, Due::GivesUp { node, session })
    }

    // What comes by itself: with HOLD on only PUMP delivers, and no call is given up.
    fn flows(&self, command: &Command, facts: &DueFacts) -> Due
        ensures { due_as result ≡ flows_by facts.now self.now command.now }
    {
        if self.hold {
            self.next_pumped(facts, most_of(command), facts.flying)
        } else {
            self.next_delivery(facts, facts.flying)
        }
    }

    fn next_pumped(&self, facts: &DueFacts, most: u32, flying: Option<u64>) -> Due
        ensures { due_as result ≡ next_pumped_by facts.now self.now most flying }
    {
        match flying {
            None => next_command(facts),
            Some(k) => {
                if self.deliveries < most {
                    delivery(k, false)
                } else {
                    next_command(facts)
                }
            }
        }
    }

    fn next_delivery(&self, facts: &DueFacts, flying: Option<u64>) -> Due
        ensures { due_as result ≡ next_delivery_by facts.now self.now flying }
    {
        match flying {
            None => next_give_up(facts, &self.calls),
            Some(k) => {
                if DELIVERY_LIMIT <= self.deliveries {
                    next_give_up(facts, &self.calls)
                } else {
                    delivery(k, false)
                }
            }
        }
    }
}

// The first pending call is given up, and else the next command begins.
fn next_give_up(facts: &DueFacts, calls: &[Call]) -> Due
    ensures { due_as result ≡ next_give_up_by facts.now calls.now }
{
    match calls {
        [] => next_command(facts),
        [call, ..] => Due::GivesUp {
            node: call.node,
            session: call.session,
        },
    }
}

fn next_command(facts: &DueFacts) -> Due
    ensures { due_as result ≡ next_command_by facts.now }
{
    if facts.running < facts.asked {
        Due::Begins {
            command: facts.running + 1,
        }
    } else {
        Due::Ends
    }
}

fn delivery(k: u64, again: bool) -> Due
    ensures { due_as result ≡ Delivers k again }
{
    Due::Delivers { k, again }
}

// This, where the test holds.
fn if_due(test: bool, due: Due) -> Option<Due>
    ensures { option_map due_as result ≡ if_due_of test (due_as due) }
{
    test.then_some(due)
}

fn most_of(command: &Command) -> u32
    ensures { result ≡ most_of_command command.now }
{
    match command {
        Command::Pump { most: None } => DELIVERY_LIMIT,
        Command::Pump { most: Some(most) } => (*most).min(DELIVERY_LIMIT),
        _ => 0,
    }
}
