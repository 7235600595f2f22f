//! The answers of pending calls.
ghost use Rattle.std.specs.Prelude.{◌≡◌, ◌∷◌, [], OnOk};
ghost use Rattle.run_rules.specs.Calls.{call_at as call_of, call_follows, finished, finished_call, without_call, waits as waits_of, waits_if_pending, after_input};
ghost use Rattle.run_rules.specs.Lines.{call_line, call_line_of, reached_line, with_own};
ghost use Rattle.run_report.specs.Turned.{ended_by};

use crate::RunReport;
use book::{AnswerLine, Said};
use dtx_values::Notice;
use node_rules::{Ended, Finished};
use run_report_parts::{
    Call, Ending, Point, call_at, change_calls, drop_call, ending_of, is_running, point_reached,
    reached_of,
};
use std::alloc::{AllocError, Global};
use std::mem;
use wire_msg::Input;

impl RunReport {
    // With the command's own lines while it runs, and else among the answers of earlier calls.
    fn say(&mut self, running: u32, command: u32, said: Said) -> Result<(), AllocError>
        ensures tells { OnOk result (self.new ≡ call_line_of running self.old command said) }
        ensures before { self.new.lines ≡ self.old.lines }
    {
        if running == command {
            self.page.say(said)
        } else {
            self.page.put(AnswerLine { command, said })
        }
    }

    fn say_reached(
        &mut self,
        alloc: Global,
        running: u32,
        command: u32,
        point: Option<Point>,
    ) -> Result<(), AllocError>
        ensures tells { OnOk result (self.new ≡ reached_line running self.old command point) }
        ensures before { self.new.lines ≡ self.old.lines }
    {
        match point {
            None => Ok(()),
            Some(point) => {
                let said = point_reached(alloc, point.number)?;
                self.say(running, command, said)
            }
        }
    }

    /// The answer of a call, and ORA-02059 where the point of its comment was reached. Fails where memory runs out.
    pub(crate) fn answer(
        &mut self,
        alloc: Global,
        running: u32,
        command: u32,
        said: Said,
    ) -> Result<(), AllocError>
        ensures tells { OnOk result (self.new ≡ call_line running self.old command said) }
        ensures before { self.new.lines ≡ self.old.lines }
    {
        let point = reached_of(&self.points, command);
        self.say(running, command, said)?;
        self.say_reached(alloc, running, command, point)
    }

    /// A call is answered, and pends no more. Fails where memory runs out.
    pub(crate) fn close(
        &mut self,
        alloc: Global,
        running: u32,
        node: u8,
        session: u32,
        command: u32,
        said: Said,
    ) -> Result<(), AllocError>
        ensures tells { OnOk result (self.new ≡ call_line running (without_call self.old node session) command said) }
        ensures before { self.new.lines ≡ self.old.lines }
    {
        drop_call(&mut self.calls, node, session);
        self.answer(alloc, running, command, said)
    }

    // The statement of a CREATE is the next call.
    fn follow(&mut self, alloc: Global, second: Call) -> Result<(), AllocError>
        ensures tells { OnOk result (self.new ≡ call_follows self.old second) }
        ensures before { self.new.lines ≡ self.old.lines }
    {
        let changed = change_calls(&mut self.calls, alloc, &second);
        drop(mem::replace(&mut self.next_call, Some(second)));
        changed
    }

    #[tactic(auto, using(crate::proofs::EndLemmas::ends_as))]
    fn end_call(
        &mut self,
        alloc: Global,
        running: u32,
        node: u8,
        done: Finished,
    ) -> Result<(), AllocError>
        ensures tells { OnOk result (self.new ≡ finished_call running self.old done (call_of self.old node done.session)) }
        ensures before { self.new.lines ≡ self.old.lines }
    {
        match ending_of(alloc, &done, call_at(&self.calls, node, done.session)) {
            Err(error) => {
                drop(done);
                Err(error)
            }
            Ok(ending) => self.end_by(alloc, running, done, ending),
        }
    }

    fn end_by(
        &mut self,
        alloc: Global,
        running: u32,
        done: Finished,
        ending: Ending,
    ) -> Result<(), AllocError>
        ensures tells { OnOk result (self.new ≡ ended_by running self.old done ending) }
        ensures before { self.new.lines ≡ self.old.lines }
    {
        match ending {
            Ending::NoCall => {
                drop(done);
                Ok(())
            }
            Ending::Ends {
                node,
                session,
                command,
            } => {
                let said = Said::Node(done.answer);
                self.close(alloc, running, node, session, command, said)
            }
            Ending::Follows(second) => {
                drop(done);
                self.follow(alloc, second)
            }
        }
    }

    /// These calls of a node end. Fails where memory runs out.
    pub(crate) fn end_calls(
        &mut self,
        alloc: Global,
        running: u32,
        node: u8,
        ended: Ended,
    ) -> Result<(), AllocError>
        ensures tells { OnOk result (self.new ≡ finished running self.old node ended) }
        ensures before { self.new.lines ≡ self.old.lines }
    {
        for done in ended.into_vec() {
            self.end_call(alloc, running, node, done)?;
        }
        Ok(())
    }

    // With HOLD on a call that its own turn does not end is waiting.
    fn wait(&mut self, alloc: Global) -> Result<(), AllocError>
        ensures tells { OnOk result (self.new ≡ waits_of self.old) }
        ensures before { self.new.lines ≡ self.old.lines }
    {
        if self.hold && self.next_call.is_none() {
            self.page.say_alone(alloc, Said::World(Notice::Waiting))
        } else {
            Ok(())
        }
    }

    #[tactic(auto, using(crate::proofs::EndLemmas::waits_as))]
    fn wait_if_pending(
        &mut self,
        alloc: Global,
        running: u32,
        node: u8,
        session: u32,
    ) -> Result<(), AllocError>
        ensures tells { OnOk result (self.new ≡ waits_if_pending running self.old (call_of self.old node session)) }
        ensures before { self.new.lines ≡ self.old.lines }
    {
        if is_running(call_at(&self.calls, node, session), running) {
            self.wait(alloc)
        } else {
            Ok(())
        }
    }

    /// What is said after a turn with this input. Fails where memory runs out.
    pub(crate) fn say_after(
        &mut self,
        alloc: Global,
        running: u32,
        node: u8,
        input: &Input,
    ) -> Result<(), AllocError>
        ensures tells { OnOk result (self.new ≡ after_input running self.old node input.now) }
        ensures before { self.new.lines ≡ self.old.lines }
    {
        match input {
            Input::Call { session, .. } => self.wait_if_pending(alloc, running, node, *session),
            _ => Ok(()),
        }
    }
}
