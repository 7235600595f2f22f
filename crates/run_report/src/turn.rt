//! A node takes a turn.
ghost use Rattle.std.specs.Prelude.{◌≡◌, ◌<◌, ◌-◌, ◌^◌, ◌∷◌, ◌++◌, [], is_none, if◌then◌else◌, option_map, IfSome, OnOk};
ghost use Rattle.crash_points.specs.Points.{point_of as point_of_comment};
ghost use Rattle.run_rules.specs.Calls.{call_at as call_at_of};
ghost use Rattle.run_rules.specs.Cuts.{arms_point};
ghost use Rattle.run_rules.specs.Past.{is_call as is_call_of, delivered_more, without_following};
ghost use Rattle.run_report.specs.Facts.{ReportsTurn};
ghost use Rattle.run_report.specs.Turned.{appends_by, arms_by, counted_by, ends_by, turned_by};

use crate::RunReport;
use book::{Took, Turn};
use crash_points::point_of;
use node_points::Passes;
use node_rules::{Ended, Session};
use run_report_parts::{Point, call_at};
use sql_statement::Stmt;
use std::alloc::{AllocError, Global};
use wire_msg::Input;

/// What is known of a turn beside its happening.
#[derive(Drop)]
pub struct TurnFacts {
    /// The session before the turn that calls, where the input is a client's call.
    pub caller: Session,
    /// Whether the turn writes a record, also where it is cut before the record stands.
    pub writes: bool,
    /// The places that it passes.
    pub passes: Option<Passes>,
    /// The calls that it ends, unless it is cut.
    pub ended: Ended,
}

impl RunReport {
    /// A node takes a turn, in the course of the command of the number `running`. Fails where memory runs out.
    #[tactic(auto, using(crate::proofs::KnownLemmas::turned_is))]
    pub fn turn(
        &mut self,
        alloc: Global,
        running: u32,
        turn: &Turn,
        facts: TurnFacts,
    ) -> Result<(), AllocError>
        requires { IfSome turn.now.took (λ took. self.old.deliveries < 2 ^ 32 - 1) }
        ensures by_facts { OnOk result (self.new ≡ turned_by running self.old turn.now facts) }
        ensures tells { OnOk result (ReportsTurn facts running self.old turn.now self.new) }
        ensures before { self.new.lines ≡ self.old.lines }
    {
        self.take(alloc, running, turn, facts)
    }

    fn take(
        &mut self,
        alloc: Global,
        running: u32,
        turn: &Turn,
        facts: TurnFacts,
    ) -> Result<(), AllocError>
        requires { IfSome turn.now.took (λ took. self.old.deliveries < 2 ^ 32 - 1) }
        ensures tells { OnOk result (self.new ≡ turned_by running self.old turn.now facts) }
        ensures before { self.new.lines ≡ self.old.lines }
    {
        self.count(turn, &facts)?;
        self.end_turn(alloc, running, turn, facts.ended)?;
        self.act();
        Ok(())
    }

    // The orders, the points and the deliveries after a turn.
    fn count(&mut self, turn: &Turn, facts: &TurnFacts) -> Result<(), AllocError>
        requires { IfSome turn.now.took (λ took. self.old.deliveries < 2 ^ 32 - 1) }
        ensures tells { OnOk result (self.new ≡ counted_by self.old turn.now facts.now) }
        ensures before { self.new.lines ≡ self.old.lines }
    {
        let cut = self.cut(turn.node, facts.writes, facts.passes);
        self.append_cut(turn.node, facts.writes, cut);
        self.arm(turn.node, &facts.caller, &turn.input)?;
        self.deliver(turn.took);
        self.take_call(&turn.input);
        Ok(())
    }

    // The calls that a turn ended, unless it was cut.
    fn end_turn(
        &mut self,
        alloc: Global,
        running: u32,
        turn: &Turn,
        ended: Ended,
    ) -> Result<(), AllocError>
        ensures tells { OnOk result (self.new ≡ ends_by running self.old turn.now ended turn.now.cut) }
        ensures before { self.new.lines ≡ self.old.lines }
    {
        if turn.cut {
            return Ok(());
        }
        self.end_calls(alloc, running, turn.node, ended)?;
        self.say_after(alloc, running, turn.node, &turn.input)
    }

    // A COMMIT with a crash-test comment arms its point, unless it is refused.
    fn arm(&mut self, node: u8, caller: &Session, input: &Input) -> Result<(), AllocError>
        ensures arms { OnOk result (self.new ≡ arms_by self.old node caller.now input.now) }
        ensures count { OnOk result (self.new.deliveries ≡ self.old.deliveries) }
        ensures before { self.new.lines ≡ self.old.lines }
    {
        match input {
            Input::Call {
                session,
                statement: Some(
                    Stmt::Commit {
                        comment: Some(comment),
                    },
                ),
            } => {
                if caller.code.is_none() {
                    self.arm_point(node, *session, caller, point_of(comment.as_slice()))
                } else {
                    Ok(())
                }
            }
            _ => Ok(()),
        }
    }

    fn arm_point(
        &mut self,
        node: u8,
        session: u32,
        caller: &Session,
        number: Option<u8>,
    ) -> Result<(), AllocError>
        ensures arms { OnOk result (self.new ≡ arms_point self.old caller.now.root (call_at_of self.old node session) number) }
        ensures count { OnOk result (self.new.deliveries ≡ self.old.deliveries) }
        ensures before { self.new.lines ≡ self.old.lines }
    {
        let Some(root) = caller.root else {
            return Ok(());
        };
        let Some(call) = call_at(&self.calls, node, session) else {
            return Ok(());
        };
        let Some(number) = number else {
            return Ok(());
        };
        let command = call.command;
        self.points.push(Point {
            root,
            number,
            command,
            reached: false,
        })?;
        Ok(())
    }

    fn deliver(&mut self, took: Option<Took>)
        requires { IfSome took (λ took. self.old.deliveries < 2 ^ 32 - 1) }
        ensures tells { self.new ≡ delivered_more self.old took }
        ensures before { self.new.lines ≡ self.old.lines }
    {
        if took.is_some() {
            self.deliveries += 1;
        }
    }

    // The second call of a CREATE has come.
    fn take_call(&mut self, input: &Input)
        ensures tells { self.new ≡ without_following self.old input.now }
        ensures before { self.new.lines ≡ self.old.lines }
    {
        if is_call(input) {
            drop(self.next_call.take());
        }
    }
}

fn is_call(input: &Input) -> bool
    ensures { result ≡ is_call_of input.now }
{
    matches!(input, Input::Call { .. })
}
