//! The calls of the live branches of a node.
ghost use Rattle.std.specs.Prelude.{◌≡◌, ◌+◌, ◌<◌, ◌≤◌, ◌^◌, [], None, IfOk, IfSome, IsFalse, IsNone, IsTrue, OnOk, OnErr};
ghost use Rattle.std.specs.Option.{option_copied};
ghost use Rattle.tran_ids.specs.Listed.{item_at, put_item, drop_item};
ghost use Rattle.link_session.specs.Calls.{admit as admit_of};
ghost use Rattle.node_rules.specs.declared.work.Work.{Work};
ghost use Rattle.node_rules.specs.NodeState.{work_id, no_work};
ghost use Rattle.node_rules.specs.Calls.{next_call};
ghost use Rattle.node_rules.specs.Marks.{kept_call, next_back, savepoint_at, sets_behind};
ghost use Rattle.node_state.specs.Changed.{change_item};
ghost use Rattle.node_state.specs.Works.{work_of, change_work, with_call_taken, called_over, waits_for_child, run_noted, with_savepoint_at, back_at, with_child, answered_with, given_up};

use crate::{kept_calls, work_changes};
use dtx_values::Name;
use indexmap::IndexMap;
use link_session::{Admit, Calls, ReplyFields};
use node_rules::{Errand, Work};
use savepoints::{Note, RowKeys};
use sql_statement::Stmt;
use std::alloc::{AllocError, Global};
use std::marker::Model;
use std::mem;
use tran_ids::BranchId;

/// The calls of the live branches of a node, in the order in which a branch's first came or was made. Those of a branch are
/// found by its id.
pub struct Works {
    works: IndexMap<BranchId, Work>,
}

impl Drop for Works {
    fn drop(self) {
        let Works { works } = self;
        drop(works);
    }
}

impl Model for Works {
    ghost use Rattle.std.specs.Prelude.{List};
    ghost use Rattle.std.specs.Map.{values_of};
    ghost use Rattle.node_rules.specs.declared.work.Work.{Work};
    ghost use Rattle.node_rules.specs.NodeState.{work_id};
    ghost use Rattle.node_state.specs.ByBranch.{KeysAreBranches};
    ghost use Rattle.node_state.specs.Works.{AnyWork};

    ghost Value = { List Work };

    ghost view = { λ w. values_of w.works.entries };

    ghost invariant = { λ w. KeysAreBranches work_id AnyWork w.works.entries };
}

impl Works {
    /// No calls.
    pub fn new(alloc: Global) -> Works
        ensures { result ≡ [] }
    {
        Works {
            works: IndexMap::new(alloc),
        }
    }

    /// The calls of a branch, where some came or were made.
    pub fn get(&self, branch: &BranchId) -> Option<&Work>
        ensures { option_copied result ≡ item_at work_id self.now branch.now }
    {
        self.works.get(branch)
    }

    /// What a branch does about a call of this number.
    pub fn admit(&self, branch: &BranchId, call: u32) -> Admit
        ensures { result ≡ admit_of (work_of self.now branch.now).came call }
    {
        match self.get(branch) {
            Some(work) => work_changes::admit(&work.came, call),
            None => {
                let none = Calls::new();
                let admit = work_changes::admit(&none, call);
                drop(none);
                admit
            }
        }
    }

    /// The next call number of the edge to a child, whose number counts from 1.
    pub fn next_call(&self, branch: &BranchId, number: u8) -> u32
        requires { next_call (work_of self.now branch.now) number < 2 ^ 32 }
        ensures { result ≡ next_call (work_of self.now branch.now) number }
    {
        match self.get(branch) {
            Some(work) => work_changes::next_call(work, number),
            None => 1,
        }
    }

    /// The step of a savepoint, where one of this name is set.
    pub fn savepoint(&self, branch: &BranchId, name: &Name) -> Option<u32>
        ensures { result ≡ savepoint_at (work_of self.now branch.now).marks name.now }
    {
        match self.get(branch) {
            Some(work) => kept_calls::savepoint(&work.marks, name),
            None => None,
        }
    }

    /// The number of the last call that came to a branch, and 0 before any.
    pub fn last_call(&self, branch: &BranchId) -> u32
        ensures { result ≡ (work_of self.now branch.now).came.last_call }
    {
        match self.get(branch) {
            Some(work) => work.came.last_call,
            None => 0,
        }
    }

    /// The last call of the edge to a child up to a step, 0 where there was none.
    pub fn kept_call(&self, branch: &BranchId, step: u32, number: u8) -> u32
        ensures { result ≡ kept_call (work_of self.now branch.now).marks step number }
    {
        match self.get(branch) {
            Some(work) => kept_calls::kept_call(&work.marks, step, number),
            None => 0,
        }
    }

    /// The notes of a branch, in the order of their steps.
    pub fn notes(&self, branch: &BranchId) -> &[Note]
        ensures { result.now ≡ (work_of self.now branch.now).marks.notes }
    {
        match self.get(branch) {
            Some(work) => work.marks.notes.as_slice(),
            None => &[],
        }
    }

    /// How many lists of changes a branch made in later steps. Nothing where 32 bits count no further.
    pub fn sets_behind(&self, branch: &BranchId, step: u32) -> Option<u32>
        ensures sets { IfSome result (λ sets. sets ≡ sets_behind (work_of self.now branch.now).marks step) }
        ensures none { IsNone result → 2 ^ 32 ≤ sets_behind (work_of self.now branch.now).marks step }
    {
        match self.get(branch) {
            Some(work) => work.marks.sets_behind(step),
            None => Some(0),
        }
    }

    /// The child of a branch behind this number, from 1, whose calls went on since a step. A number beyond 255 is answered as
    /// out of memory.
    #[tactic(auto, using(crate::proofs::NextLaws::never_called))]
    pub fn next_back(
        &self,
        branch: &BranchId,
        step: u32,
        last: u8,
    ) -> Result<Option<u8>, AllocError>
        ensures { IfOk result (λ next. next ≡ next_back (work_of self.now branch.now) step (last + 1)) }
    {
        match self.get(branch) {
            Some(work) => kept_calls::next_back(work, step, last),
            None => Ok(None),
        }
    }

    /// Whether 32 bits hold the next call number of the edge to a child.
    pub fn has_next_call(&self, branch: &BranchId, number: u8) -> bool
        ensures yes { IsTrue result → next_call (work_of self.now branch.now) number < 2 ^ 32 }
        ensures no { IsFalse result → 2 ^ 32 ≤ next_call (work_of self.now branch.now) number }
    {
        match self.get(branch) {
            Some(work) => work_changes::has_next_call(work, number),
            None => true,
        }
    }

    /// A branch is back at a step: what it noted later, and later savepoints, are dropped.
    pub fn go_back(&mut self, alloc: Global, branch: &BranchId, step: u32)
        ensures { self.new ≡ change_item work_id (back_at step) self.old branch.now }
    {
        if let Some(place) = self.works.get_index_of(branch) {
            work_changes::go_back(alloc, &mut self.works[place], step);
        }
    }

    /// The branch takes a call. Fails where memory runs out.
    pub fn take_call(
        &mut self,
        alloc: Global,
        branch: &BranchId,
        call: u32,
    ) -> Result<(), AllocError>
        ensures ok { OnOk result (self.new ≡ change_work (with_call_taken call) self.old branch.now) }
        ensures err { OnErr result (self.new ≡ self.old) }
    {
        let mut work = self.take_out(alloc, branch);
        work_changes::take_call(&mut work, call);
        self.put(work)?;
        Ok(())
    }

    /// An errand goes on to the child of a number, from 1, under the next call number of its edge, and the call is noted at this
    /// step. Fails where memory runs out.
    pub fn call_over(
        &mut self,
        alloc: Global,
        branch: &BranchId,
        number: u8,
        errand: Errand,
        step: u32,
    ) -> Result<(), AllocError>
        requires { next_call (work_of self.old branch.now) number < 2 ^ 32 }
        ensures ok { OnOk result (self.new ≡ change_work (called_over number errand step) self.old branch.now) }
        ensures err { OnErr result (self.new ≡ self.old) }
    {
        let Some(place) = self.works.get_index_of(branch) else {
            let first = work_changes::first_call(alloc, branch, number, errand, step)?;
            self.put(first)?;
            return Ok(());
        };
        work_changes::call_over(alloc, &mut self.works[place], number, errand, step)?;
        Ok(())
    }

    /// A run of a statement is noted: its step, its sets of changes, and the keys that it wrote. Fails where memory runs out.
    pub fn note_run(
        &mut self,
        alloc: Global,
        branch: &BranchId,
        step: u32,
        sets: u32,
        keys: RowKeys,
    ) -> Result<(), AllocError>
        ensures ok { OnOk result (self.new ≡ change_work (run_noted step sets keys) self.old branch.now) }
        ensures err { OnErr result (self.new ≡ self.old) }
    {
        let Some(place) = self.works.get_index_of(branch) else {
            let first = work_changes::first_run(alloc, branch, step, sets, keys)?;
            self.put(first)?;
            return Ok(());
        };
        work_changes::note_run(alloc, &mut self.works[place], step, sets, keys)?;
        Ok(())
    }

    /// A savepoint is set at a step, in the place of one of its name. Fails where memory runs out.
    pub fn set_savepoint(
        &mut self,
        alloc: Global,
        branch: &BranchId,
        name: Name,
        step: u32,
    ) -> Result<(), AllocError>
        ensures { OnOk result (self.new ≡ change_work (with_savepoint_at name step) self.old branch.now) }
    {
        let Some(place) = self.works.get_index_of(branch) else {
            let first = work_changes::first_savepoint(alloc, branch, name, step)?;
            self.put(first)?;
            return Ok(());
        };
        work_changes::set_savepoint(alloc, &mut self.works[place], name, step)?;
        Ok(())
    }

    /// A statement waits for a child to be opened over a link. Fails where memory runs out.
    pub fn wait_for_opened(
        &mut self,
        alloc: Global,
        branch: &BranchId,
        link: Name,
        statement: Stmt,
        room: u16,
    ) -> Result<(), AllocError>
        ensures ok { OnOk result (self.new ≡ change_work (waits_for_child link statement room) self.old branch.now) }
        ensures err { OnErr result (self.new ≡ self.old) }
    {
        let mut work = self.take_out(alloc, branch);
        work_changes::wait_for_opened(&mut work, link, statement, room);
        self.put(work)?;
        Ok(())
    }

    /// The branch has one more child, to which no call was made. Fails where memory runs out.
    pub fn add_edge(&mut self, alloc: Global, branch: &BranchId) -> Result<(), AllocError>
        ensures ok { OnOk result (self.new ≡ change_work with_child self.old branch.now) }
        ensures err { OnErr result (self.new ≡ self.old) }
    {
        let Some(place) = self.works.get_index_of(branch) else {
            let first = work_changes::first_child(alloc, branch)?;
            self.put(first)?;
            return Ok(());
        };
        work_changes::add_child(&mut self.works[place])?;
        Ok(())
    }

    /// The statement that is under way is answered; the answer is kept where it goes to a parent. Fails where memory runs
    /// out.
    pub fn answer(
        &mut self,
        alloc: Global,
        branch: &BranchId,
        reply: Option<ReplyFields>,
    ) -> Result<(), AllocError>
        ensures ok { OnOk result (self.new ≡ change_work (answered_with reply) self.old branch.now) }
        ensures err { OnErr result (self.new ≡ self.old) }
    {
        let mut work = self.take_out(alloc, branch);
        work_changes::answer(&mut work, reply);
        self.put(work)?;
        Ok(())
    }

    /// The branch waits for nothing any more. Fails where memory runs out.
    pub fn give_up(&mut self, alloc: Global, branch: &BranchId) -> Result<(), AllocError>
        ensures ok { OnOk result (self.new ≡ change_work given_up self.old branch.now) }
        ensures err { OnErr result (self.new ≡ self.old) }
    {
        let mut work = self.take_out(alloc, branch);
        work_changes::give_up(&mut work);
        self.put(work)?;
        Ok(())
    }

    /// The calls of a branch are dropped.
    pub fn drop_branch(&mut self, branch: &BranchId)
        ensures { self.new ≡ drop_item work_id self.old branch.now }
    {
        drop(self.works.shift_remove(branch));
    }

    // Takes the calls of a branch out, until they are put back.
    fn take_out(&mut self, alloc: Global, branch: &BranchId) -> Work
        ensures work { result ≡ work_of self.old branch.now }
        ensures place { (work : Work) → work.branch ≡ branch.now → put_item work_id self.new work ≡ put_item work_id self.old work }
        ensures absent { item_at work_id self.new branch.now ≡ None → self.new ≡ self.old }
    {
        let empty = work_changes::no_work(alloc, branch);
        let Some(place) = self.works.get_index_of(branch) else {
            return empty;
        };
        mem::replace(&mut self.works[place], empty)
    }

    // Puts the calls of a branch in the place of those before, or behind the others.
    fn put(&mut self, work: Work) -> Result<(), AllocError>
        ensures ok { OnOk result (self.new ≡ put_item work_id self.old work) }
        ensures err { OnErr result (self.new ≡ self.old) }
        ensures absent { OnErr result (item_at work_id self.old work.branch ≡ None) }
    {
        drop(self.works.insert(work.branch, work)?);
        Ok(())
    }
}
