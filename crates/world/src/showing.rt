//! What a command says as it begins, and what SHOW prints.
ghost use Rattle.std.specs.Prelude.{◌≡◌, ◌≤◌, ◌-◌, ◌∷◌, [], if◌then◌else◌, option_map, IfOk, OnOk, OnErr};
ghost use Rattle.pending_view.specs.Views.{pending_rows};
ghost use Rattle.run_rules.specs.Data.commands as script;
ghost use Rattle.sql_check.specs.Refusals.{dtx};
ghost use Rattle.sql_check.specs.Words.{one as one_of};
ghost use Rattle.run_rules.specs.Commands.{has_call as has_call_by, if_up as if_up_by, says_at_once as says_by};
ghost use Rattle.run_rules.specs.Lines.{refuses_with};
ghost use Rattle.run_rules.specs.Facts.{names_in};
ghost use Rattle.run_rules.specs.RunReport.{node_name as name_by};
ghost use Rattle.run_trace.specs.Recorded.{past_of};
ghost use Rattle.world.specs.Slots.{kept_at, disk_at, MayShow};
ghost use Rattle.world.specs.Linked.{IsLinked};

use crate::World;
use crate::slots::{is_enabled, is_up, node_at, site_at};
use book::book_lines;
use dtx_values::{Listing, Name};
use pending_view::{PendingRows, neighbors_view, pending, pending_view};
use script_read::Command;
use std::alloc::{AllocError, Global};
use tran_ids::node_name;
use undo_view::undo_lines;
use world_parts::{Says, disk_lines, fine, if_may, refused, refused_with, shows};

/// The codes of DTX-01, DTX-04, DTX-12, DTX-13 and DTX-14.
const STOPPED: u16 = 60_001;

const PENDING: u16 = 60_004;

const DISABLED: u16 = 60_012;

const RUNNING: u16 = 60_013;

const NO_CALL: u16 = 60_014;

impl World {
    /// What a command says as it begins. Fails where memory runs out.
    pub(crate) fn says_at_once(&self, alloc: Global, command: &Command) -> Result<Says, AllocError>
        requires { IsLinked self.now }
        ensures { IfOk result (λ says. says ≡ says_by self.now.trace.places (past_of self.now.trace).facts (past_of self.now.trace).run_report command.now) }
    {
        match command {
            Command::At {
                node,
                session,
                statement: _statement,
            } => self.says_call(alloc, *node, *session),
            Command::Lose { k } => if_may(alloc, self.net.in_flight(u64::from(*k)), *k),
            Command::Deliver { k } => if_may(alloc, self.net.in_flight(u64::from(*k)), *k),
            Command::Again { k } => if_may(alloc, self.net.again(u64::from(*k)).is_some(), *k),
            Command::Stop { node } => self.if_up(alloc, *node, fine(alloc)?),
            Command::Start { node } => self.says_start(alloc, *node),
            Command::GiveUp { node, session } => self.says_give_up(alloc, *node, *session),
            Command::Reco { node } => self.says_reco(alloc, *node),
            Command::ShowPending { node } => self.says_pending(alloc, *node),
            Command::ShowNeighbors { node } => self.says_neighbors(alloc, *node),
            Command::ShowUndo { node } => self.says_undo(alloc, *node),
            Command::ShowBook => shows(alloc, book_lines(alloc, self.trace.book(), self.names())?),
            Command::ShowNet => shows(alloc, self.net.lines(alloc, self.names())?),
            // The bytes of a disk are shown apart.
            Command::ShowDisk { node: _node } => shows(alloc, Listing::new(alloc)),
            _ => fine(alloc),
        }
    }

    /// SHOW DISK shows the bytes of its node's disk. Fails where memory runs out.
    pub(crate) fn show_disk(
        &mut self,
        alloc: Global,
        number: u32,
        command: &Command,
    ) -> Result<(), AllocError>
        ensures shows { OnOk result (MayShow (λ n. disk_at self.old.slots.items n) number command.now self.old.shown self.new.shown) }
        ensures same { self.new ≡ record self.old { shown = self.new.shown } }
        ensures err { OnErr result (self.new.shown ≡ self.old.shown) }
    {
        match command {
            Command::ShowDisk { node } => {
                let lines = disk_lines(alloc, self.disk(*node))?;
                self.shown.put(number, lines)
            }
            _ => Ok(()),
        }
    }

    /// The bytes of a node's disk, none for a number past the nodes.
    pub fn disk(&self, node: u8) -> &[u8]
        ensures { result.now ≡ disk_at self.now.slots.items node }
    {
        match site_at(&self.slots, node) {
            None => &[],
            Some(slot) => slot.disk().bytes(),
        }
    }

    /// The rows of DBA_2PC_PENDING at a node, and nothing where it is down. Fails where memory runs out.
    pub fn pending(&self, alloc: Global, node: u8) -> Result<Option<PendingRows>, AllocError>
        ensures { IfOk result (λ rows. rows ≡ option_map (λ k. pending_rows k.stored.durable.kept k.lives) (kept_at self.now.slots.items node)) }
    {
        match node_at(&self.slots, node) {
            Some(up) => Ok(Some(pending(alloc, up.kept(), up.lives())?)),
            None => Ok(None),
        }
    }

    // The names of the nodes, by the first of them.
    fn names(&self) -> &[Name]
        ensures { result.now ≡ names_in self.now.trace.places }
    {
        match self.trace.places() {
            [] => &[],
            [place, ..] => place.names.as_slice(),
        }
    }

    // The name of a node by its place, empty for a number past the nodes.
    fn name_at(&self, node: u8) -> &[u8]
        ensures { result.now ≡ name_by self.now.trace.places node }
    {
        match node.checked_sub(1) {
            None => &[],
            Some(at) => match self.trace.places().get(usize::from(at)) {
                None => &[],
                Some(place) => node_name(place.names.as_slice(), node),
            },
        }
    }

    // DTX-01 or DTX-13, which name the node.
    fn refused_node(&self, alloc: Global, code: u16, node: u8) -> Result<Says, AllocError>
        requires { 60000 ≤ code }
        ensures { IfOk result (λ says. says ≡ refuses_with (dtx (code - 60000) (one_of (name_by self.now.trace.places node))) ∷ []) }
    {
        let name = Vec::from_slice(alloc, self.name_at(node))?;
        refused_with(alloc, code, Listing::of(name))
    }

    // This, or DTX-01 where the node is down.
    #[tactic(auto, using(crate::proofs::DueLemmas::due_steps))]
    fn if_up(&self, alloc: Global, node: u8, says: Says) -> Result<Says, AllocError>
        requires { IsLinked self.now }
        ensures { IfOk result (λ all. all ≡ if_up_by self.now.trace.places (past_of self.now.trace).facts node says) }
    {
        if is_up(&self.slots, node) {
            Ok(says)
        } else {
            self.refused_node(alloc, STOPPED, node)
        }
    }

    #[tactic(auto, using(crate::proofs::DueLemmas::due_steps))]
    fn says_call(&self, alloc: Global, node: u8, session: u32) -> Result<Says, AllocError>
        requires { IsLinked self.now }
        ensures { IfOk result (λ says. says ≡ if_up_by self.now.trace.places (past_of self.now.trace).facts node (if has_call_by (past_of self.now.trace).run_report node session then refuses_with (dtx 4 []) ∷ [] else [])) }
    {
        let says = if self.run_report.has_call(node, session) {
            refused(alloc, PENDING)?
        } else {
            Listing::new(alloc)
        };
        self.if_up(alloc, node, says)
    }

    #[tactic(auto, using(crate::proofs::DueLemmas::due_steps))]
    fn says_start(&self, alloc: Global, node: u8) -> Result<Says, AllocError>
        requires { IsLinked self.now }
        ensures { IfOk result (λ says. says ≡ says_by self.now.trace.places (past_of self.now.trace).facts (past_of self.now.trace).run_report (script.Start node)) }
    {
        if is_up(&self.slots, node) {
            self.refused_node(alloc, RUNNING, node)
        } else {
            Ok(Listing::new(alloc))
        }
    }

    #[tactic(auto, using(crate::proofs::DueLemmas::due_steps))]
    fn says_give_up(&self, alloc: Global, node: u8, session: u32) -> Result<Says, AllocError>
        requires { IsLinked self.now }
        ensures { IfOk result (λ says. says ≡ says_by self.now.trace.places (past_of self.now.trace).facts (past_of self.now.trace).run_report (script.GiveUp node session)) }
    {
        let says = if self.run_report.has_call(node, session) {
            fine(alloc)?
        } else {
            refused(alloc, NO_CALL)?
        };
        self.if_up(alloc, node, says)
    }

    #[tactic(auto, using(crate::proofs::DueLemmas::due_steps))]
    fn says_reco(&self, alloc: Global, node: u8) -> Result<Says, AllocError>
        requires { IsLinked self.now }
        ensures { IfOk result (λ says. says ≡ says_by self.now.trace.places (past_of self.now.trace).facts (past_of self.now.trace).run_report (script.Reco node)) }
    {
        let says = if is_enabled(&self.slots, node) {
            fine(alloc)?
        } else {
            refused(alloc, DISABLED)?
        };
        self.if_up(alloc, node, says)
    }

    #[tactic(auto, using(crate::proofs::DueLemmas::due_steps))]
    fn says_pending(&self, alloc: Global, node: u8) -> Result<Says, AllocError>
        requires { IsLinked self.now }
        ensures { IfOk result (λ says. says ≡ says_by self.now.trace.places (past_of self.now.trace).facts (past_of self.now.trace).run_report (script.ShowPending node)) }
    {
        match node_at(&self.slots, node) {
            Some(up) => {
                let lines = pending_view(alloc, self.names(), up.kept(), up.lives())?;
                shows(alloc, lines)
            }
            None => self.refused_node(alloc, STOPPED, node),
        }
    }

    #[tactic(auto, using(crate::proofs::DueLemmas::due_steps))]
    fn says_neighbors(&self, alloc: Global, node: u8) -> Result<Says, AllocError>
        requires { IsLinked self.now }
        ensures { IfOk result (λ says. says ≡ says_by self.now.trace.places (past_of self.now.trace).facts (past_of self.now.trace).run_report (script.ShowNeighbors node)) }
    {
        match node_at(&self.slots, node) {
            Some(up) => {
                let lines = neighbors_view(alloc, self.names(), up.kept())?;
                shows(alloc, lines)
            }
            None => self.refused_node(alloc, STOPPED, node),
        }
    }

    #[tactic(auto, using(crate::proofs::DueLemmas::due_steps))]
    fn says_undo(&self, alloc: Global, node: u8) -> Result<Says, AllocError>
        requires { IsLinked self.now }
        ensures { IfOk result (λ says. says ≡ says_by self.now.trace.places (past_of self.now.trace).facts (past_of self.now.trace).run_report (script.ShowUndo node)) }
    {
        match node_at(&self.slots, node) {
            Some(up) => {
                let undos = up.undo()?;
                shows(alloc, undo_lines(alloc, undos.as_slice())?)
            }
            None => self.refused_node(alloc, STOPPED, node),
        }
    }
}
