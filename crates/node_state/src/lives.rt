//! The live branches of a node.
ghost use Rattle.std.specs.Prelude.{◌≡◌, ◌<◌, ◌++◌, ◌∷◌, [], None, length, IfSome, OnOk, OnErr};
ghost use Rattle.std.specs.Option.{option_copied, option_map};
ghost use Rattle.dtx_values.specs.Limits.{link_limit};
ghost use Rattle.tran_ids.specs.Listed.{item_at, drop_item};
ghost use Rattle.session_tree.specs.declared.live.Live.{Live};
ghost use Rattle.session_tree.specs.Live.{add_edge as add_edge_of};
ghost use Rattle.prepare_phase.specs.Acts.{prepare_act, heard_act, after_answer};
ghost use Rattle.node_rules.specs.NodeState.{live_id};
ghost use Rattle.node_rules.specs.Prepare.{with_comment, ready};
ghost use Rattle.node_state.specs.Changed.{change_item};
ghost use Rattle.node_state.specs.Lives.{HasRoom, prepared, changed_by, with_changes, advised, heard};

use crate::live_changes;
use dtx_values::{Advice, Bytes};
use indexmap::IndexMap;
use prepare_phase::on_answer;
use session_tree::{Act, Edge, Live, Vote, add_edge};
use std::alloc::{AllocError, Global};
use std::marker::Model;
use tran_ids::BranchId;

/// The live branches of a node, in the order in which they began. A branch is found by its id.
pub struct Lives {
    lives: IndexMap<BranchId, Live>,
}

impl Drop for Lives {
    fn drop(self) {
        let Lives { lives } = self;
        drop(lives);
    }
}

impl Model for Lives {
    ghost use Rattle.std.specs.Prelude.{List};
    ghost use Rattle.std.specs.Map.{values_of};
    ghost use Rattle.session_tree.specs.declared.live.Live.{Live};
    ghost use Rattle.node_rules.specs.NodeState.{live_id};
    ghost use Rattle.node_state.specs.ByBranch.{KeysAreBranches};
    ghost use Rattle.node_state.specs.Lives.{HasRoom};

    ghost Value = { List Live };

    ghost view = { λ l. values_of l.lives.entries };

    ghost invariant = { λ l. KeysAreBranches live_id HasRoom l.lives.entries };
}

impl Lives {
    /// Nobody is live.
    pub fn new(alloc: Global) -> Lives
        ensures { result ≡ [] }
    {
        Lives {
            lives: IndexMap::new(alloc),
        }
    }

    /// The live branch of an id.
    pub fn get(&self, branch: &BranchId) -> Option<&Live>
        ensures live { option_copied result ≡ item_at live_id self.now branch.now }
        ensures room { IfSome result (λ live. HasRoom live.now) }
    {
        self.lives.get(branch)
    }

    /// All of them, in the order in which they began.
    pub fn as_slice(&self) -> &[Live]
        ensures { result.now ≡ self.now }
    {
        self.lives.values().as_slice()
    }

    /// A branch of a new id begins, behind the others. Fails where memory runs out.
    pub fn begin(&mut self, live: Live) -> Result<(), AllocError>
        requires new { item_at live_id self.old live.me ≡ None }
        requires room { HasRoom live }
        ensures ok { OnOk result (self.new ≡ self.old ++ live ∷ []) }
        ensures err { OnErr result (self.new ≡ self.old) }
    {
        drop(self.lives.insert(live.me, live)?);
        Ok(())
    }

    /// A branch is live no longer.
    pub fn drop_branch(&mut self, branch: &BranchId)
        ensures { self.new ≡ drop_item live_id self.old branch.now }
    {
        drop(self.lives.shift_remove(branch));
    }

    /// COMMIT, at a root, or Prepare comes, with the comment of the COMMIT: only a working branch hears it. Tells what the
    /// branch does next, and nothing where it is not live. No memory is taken.
    pub fn prepare(
        &mut self,
        alloc: Global,
        branch: &BranchId,
        site_below: bool,
        comment: Bytes,
    ) -> Option<Act>
        ensures act { result ≡ option_map (λ live. prepare_act (with_comment live comment) site_below) (item_at live_id self.old branch.now) }
        ensures after { self.new ≡ change_item live_id (prepared site_below comment) self.old branch.now }
    {
        let Some(place) = self.lives.get_index_of(branch) else {
            return None;
        };
        let act = live_changes::prepare(alloc, &mut self.lives[place], site_below, comment);
        Some(act)
    }

    /// A child answers Prepare. Tells what the branch does next, and nothing where it is not live. No memory is taken.
    pub fn answer(
        &mut self,
        alloc: Global,
        branch: &BranchId,
        from: &BranchId,
        vote: Vote,
    ) -> Option<Act>
        ensures act { result ≡ option_map (λ live. heard_act live from.now vote) (item_at live_id self.old branch.now) }
        ensures after { self.new ≡ change_item live_id (λ live. after_answer live from.now vote) self.old branch.now }
    {
        let Some(place) = self.lives.get_index_of(branch) else {
            return None;
        };
        let act = on_answer(alloc, &mut self.lives[place], from, vote);
        Some(act)
    }

    /// A statement of the branch has made changes here, or has not.
    pub fn note_changes(&mut self, branch: &BranchId, changes: bool)
        ensures { self.new ≡ change_item live_id (changed_by changes) self.old branch.now }
    {
        if let Some(place) = self.lives.get_index_of(branch) {
            live_changes::note_changes(&mut self.lives[place], changes);
        }
    }

    /// From now on the branch has made changes here, or has not.
    pub fn set_changed(&mut self, branch: &BranchId, changed: bool)
        ensures { self.new ≡ change_item live_id (with_changes changed) self.old branch.now }
    {
        if let Some(place) = self.lives.get_index_of(branch) {
            live_changes::set_changed(&mut self.lives[place], changed);
        }
    }

    /// The branch takes a call, with the advice that came with it.
    pub fn take_advice(&mut self, branch: &BranchId, advice: Option<Advice>)
        ensures { self.new ≡ change_item live_id (advised advice) self.old branch.now }
    {
        if let Some(place) = self.lives.get_index_of(branch) {
            live_changes::take_advice(&mut self.lives[place], advice);
        }
    }

    /// The branch has one more child, behind the others. Fails where memory runs out.
    pub fn add_edge(&mut self, branch: &BranchId, edge: Edge) -> Result<(), AllocError>
        requires { IfSome (item_at live_id self.old branch.now) (λ live. length live.edges < link_limit) }
        ensures ok { OnOk result (self.new ≡ change_item live_id (λ live. add_edge_of live edge) self.old branch.now) }
        ensures err { OnErr result (self.new ≡ self.old) }
    {
        let Some(place) = self.lives.get_index_of(branch) else {
            return Ok(());
        };
        add_edge(&mut self.lives[place], edge)?;
        Ok(())
    }

    /// The child of this number, from 1, tells its weight and the branches of its subtree by a Reply. No memory is taken.
    pub fn hear(
        &mut self,
        alloc: Global,
        branch: &BranchId,
        number: u8,
        weight: Option<u8>,
        count: u16,
    )
        ensures { self.new ≡ change_item live_id (heard number weight count) self.old branch.now }
    {
        if let Some(place) = self.lives.get_index_of(branch) {
            live_changes::hear(alloc, &mut self.lives[place], number, weight, count);
        }
    }

    /// The branch waits for CommitPoint.
    pub fn make_ready(&mut self, branch: &BranchId)
        ensures { self.new ≡ change_item live_id ready self.old branch.now }
    {
        if let Some(place) = self.lives.get_index_of(branch) {
            live_changes::make_ready(&mut self.lives[place]);
        }
    }
}
