//! That records have a spelling.
//!
//! What ids, names, numbers and values are made of is known where they are read: these functions read them.
ghost use Rattle.std.specs.Prelude.{◌≡◌, true, false, ◌<◌, ◌^◌, IfSome, length};
ghost use Rattle.std.specs.List.{All, AllByRecursion};
ghost use Rattle.byte_format.specs.Number.{number32};
ghost use Rattle.byte_format.specs.Part.{optional};
ghost use Rattle.byte_format.specs.Several.{counted};
ghost use Rattle.field_codec.specs.Branch.{branch_format};
ghost use Rattle.field_codec.specs.Change.{change_format};
ghost use Rattle.field_codec.specs.Table.{table_format, link_format, synonym_format};
ghost use Rattle.redo_codec.specs.Decision.{decision_format, peer_format};
ghost use Rattle.redo_codec.specs.Record.{param_format, record_format, body_format};
ghost use Rattle.redo_codec.specs.Sealed.{head_format, toward_format, tree_format, end_format, sealed_format, decided_format};
ghost use Rattle.sql_statement.specs.Whole.{IsWholeTable};
ghost use Rattle.node_spell_laws.specs.Record.{ChangeFits, IsScn, DecisionFits, WayFits, WorkFits, RecordHasBytes, AreFew, HasFew};

use dtx_values::{Advice, Bytes, Change, Changes, Link, Synonym, Table};
use field_codec::{branch_fits, change_fits, name_fits, table_fits};
use redo_record::{Decided, Decision, Peer, Peers, RedoRecord, Sealed, Toward};
use tran_ids::BranchId;

/// Each of these changes has a spelling.
fn changes_fit(changes: &[Change])
    requires { All ChangeFits changes.now }
    ensures { AllByRecursion change_format.Fits changes.now }
{
    for change in changes {
        change_fits(change);
    }
}

/// Each peer has a spelling.
fn peer_fits(peer: &Peer)
    ensures { peer_format.Fits peer.now }
{
    branch_fits(&peer.branch);
    name_fits(&peer.link);
}

/// Each of these peers has a spelling.
fn peers_fit(peers: &[Peer])
    ensures { AllByRecursion peer_format.Fits peers.now }
{
    for peer in peers {
        peer_fits(peer);
    }
}

/// A decision has a spelling, if six bytes are enough for the SCN of a commit.
fn decision_fits(decision: &Decision)
    requires { DecisionFits decision.now }
    ensures { decision_format.Fits decision.now }
{
    if let Decision::Commit(scn) = decision {
        let _scn = *scn;
    }
}

/// The ids and the SCN of a branch have a spelling.
fn head_fits(me: &BranchId, root: &BranchId, scn: u64)
    requires { IsScn scn }
    ensures { head_format.Fits (me.now, (root.now, scn)) }
{
    branch_fits(me);
    branch_fits(root);
}

/// A parent has a spelling, and so has none.
fn parent_fits(parent: &Option<BranchId>)
    ensures { (optional branch_format).Fits parent.now }
{
    if let Some(parent) = parent {
        branch_fits(parent);
    }
}

/// A parent and children have a spelling, if four bytes are enough to count the children.
fn tree_fits(parent: &Option<BranchId>, children: &Peers)
    requires { AreFew children.now }
    ensures { tree_format.Fits (parent.now, children.now) }
{
    parent_fits(parent);
    peers_fit(children.as_slice());
}

/// Advice, a comment and changes have a spelling, if four bytes are enough to count the changes.
fn end_fits(scn: u64, advice: &Option<Advice>, comment: &Bytes, changes: &Changes)
    requires end { WorkFits scn comment.now changes.now }
    requires few { AreFew changes.now }
    ensures { end_format.Fits (advice.now, (comment.now, changes.now)) }
{
    changes_fit(changes.as_slice());
    if let Some(advice) = advice {
        match advice {
            Advice::Commit => {}
            Advice::Rollback => {}
        }
    }
}

/// A table that is whole has a spelling.
fn whole_table_fits(table: &Table)
    requires { IsWholeTable table.now }
    ensures { table_format.Fits table.now }
{
    table_fits(table);
}

/// Each link has a spelling.
fn link_fits(link: &Link)
    ensures { link_format.Fits link.now }
{
    name_fits(&link.name);
    name_fits(&link.target);
}

/// Each synonym has a spelling.
fn synonym_fits(synonym: &Synonym)
    ensures { synonym_format.Fits synonym.now }
{
    name_fits(&synonym.name);
    name_fits(&synonym.table);
    name_fits(&synonym.link);
}

/// A prepared branch has a spelling.
fn sealed_fits(sealed: &Sealed)
    requires end { WorkFits sealed.now.scn sealed.now.comment sealed.now.changes }
    requires way { WayFits sealed.now.toward sealed.now.parent (length sealed.now.children) }
    requires children { AreFew sealed.now.children }
    requires changes { AreFew sealed.now.changes }
    ensures { sealed_format.Fits sealed.now }
{
    head_fits(&sealed.me, &sealed.root, sealed.scn);
    tree_fits(&sealed.parent, &sealed.children);
    end_fits(sealed.scn, &sealed.advice, &sealed.comment, &sealed.changes);
    match sealed.toward {
        Toward::Parent => {}
        Toward::Child(_) => {}
    }
}

/// A decided branch has a spelling.
fn decided_fits(decided: &Decided)
    requires end { WorkFits decided.now.scn decided.now.comment decided.now.changes }
    requires children { AreFew decided.now.children }
    requires changes { AreFew decided.now.changes }
    ensures { decided_format.Fits decided.now }
{
    head_fits(&decided.me, &decided.root, decided.scn);
    tree_fits(&decided.parent, &decided.children);
    end_fits(
        decided.scn,
        &decided.advice,
        &decided.comment,
        &decided.changes,
    );
}

/// Whether four bytes are enough to count these children and changes.
fn are_few(children: &Peers, changes: &Changes) -> bool
    ensures yes { result ≡ true → AreFew children.now × AreFew changes.now }
    ensures no { result ≡ false → AreFew children.now × AreFew changes.now → ⊥ }
{
    children.as_slice().len() < 4_294_967_296 && changes.as_slice().len() < 4_294_967_296
}

/// Whether four bytes are enough to count the children and the changes of the record. An image has no spelling yet.
pub fn has_few(redo: &RedoRecord) -> bool
    ensures yes { result ≡ true → HasFew redo.now }
    ensures no { result ≡ false → HasFew redo.now → ⊥ }
{
    match redo {
        RedoRecord::Sealed(sealed) => are_few(&sealed.children, &sealed.changes),
        RedoRecord::Decided(decided) => are_few(&decided.children, &decided.changes),
        RedoRecord::Image(_) => false,
        _ => true,
    }
}

/// A record has a spelling if its table is whole, its comment is one, its changes, its SCN and its way have one, and four bytes
/// are enough to count its children and its changes.
pub fn record_fits(redo: &RedoRecord)
    requires has { RecordHasBytes redo.now }
    requires few { HasFew redo.now }
    ensures { record_format.Fits redo.now }
{
    match redo {
        RedoRecord::Boot(boot) => {
            let _boot = *boot;
        }
        RedoRecord::Table(table) => whole_table_fits(table),
        RedoRecord::Link(link) => link_fits(link),
        RedoRecord::Synonym(synonym) => synonym_fits(synonym),
        RedoRecord::Param(_) => {}
        RedoRecord::Sealed(sealed) => sealed_fits(sealed),
        RedoRecord::Decided(decided) => decided_fits(decided),
        RedoRecord::Ended { me, decision } => {
            branch_fits(me);
            decision_fits(decision);
        }
        RedoRecord::Forced { me, decision, .. } => {
            branch_fits(me);
            decision_fits(decision);
        }
        RedoRecord::Met { me, decision, .. } => {
            branch_fits(me);
            decision_fits(decision);
        }
        RedoRecord::Forgot(me) => branch_fits(me),
        RedoRecord::Hidden(me) => branch_fits(me),
        RedoRecord::Image(_) => {}
    }
}
