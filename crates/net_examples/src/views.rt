//! What no clause says of the views of pending transactions: that calls succeed, and the views of a node as they are to be
//! printed.
use dtx_values::{Advice, Bytes, Listing, Name, NameErr, Texts};
use pending_view::{neighbors_view, pending_view};
use redo_record::{Decision, KeptRow, Kid, State};
use session_tree::{Edge, Live, Phase, Vote};
use std::alloc::{AllocError, Global};
use tran_ids::BranchId;

const SALES: u8 = 1;

const WAREHOUSE: u8 = 2;

const HQ: u8 = 3;

/// DBA_2PC_PENDING of HQ.
const PENDING: &str = "LOCAL_TRAN_ID|GLOBAL_TRAN_ID|STATE|MIXED|ADVICE|TRAN_COMMENT|COMMIT#
1.1.4|HQ.00000003.1.1.4|collecting|no||stock|
1.65.1|WAREHOUSE.00000002.1.1.1|committed|no|||7
1.66.1|SALES.00000001.1.1.1|prepared|no|C|orders|
2.65.1|SALES.00000001.1.1.3|forced rollback|yes|R||
4 rows selected.
";

/// DBA_2PC_NEIGHBORS of HQ.
const NEIGHBORS: &str = "LOCAL_TRAN_ID|IN_OUT|DATABASE|DBUSER_OWNER|INTERFACE
1.65.1|in|WAREHOUSE|APP|N
1.66.1|in|SALES|APP|C
1.66.1|out|WAREHOUSE|APP|N
2.65.1|in|SALES|APP|N
2.65.1|out|DEPOT|APP|C
5 rows selected.
";

fn branch(node: u8, boot: u32, session: u32, seq: u32) -> BranchId {
    BranchId {
        node,
        boot,
        session,
        seq,
    }
}

fn names(alloc: Global) -> Result<Vec<Name>, NameErr> {
    let mut names = Vec::new(alloc);
    for text in [b"SALES".as_slice(), b"WAREHOUSE", b"HQ"] {
        names.push(Name::from_bytes(alloc, text)?)?;
    }
    Ok(names)
}

fn bytes(alloc: Global, text: &[u8]) -> Result<Bytes, AllocError> {
    Ok(Listing::of(Vec::from_slice(alloc, text)?))
}

/// A prepared branch of HQ below this root, towards which its commit point site is, without a child or a comment.
fn prepared(alloc: Global, me: BranchId, root: BranchId) -> KeptRow {
    KeptRow {
        me,
        root,
        scn: 5,
        parent: Some(root),
        parent_acked: false,
        children: Listing::new(alloc),
        toward: Some(root),
        advice: None,
        comment: Listing::new(alloc),
        state: State::Sealed,
        decision: None,
        mixed: false,
        forgot: false,
        hidden: false,
    }
}

fn one_child(alloc: Global, branch: BranchId, link: &[u8]) -> Result<Listing<Kid>, NameErr> {
    let child = Kid {
        branch,
        link: Name::from_bytes(alloc, link)?,
        acked: false,
    };
    Ok(Listing::of(vec![in alloc; child]?))
}

/// A branch that has committed at its commit point site.
fn committed(alloc: Global) -> KeptRow {
    let mut row = prepared(alloc, branch(HQ, 1, 65, 1), branch(WAREHOUSE, 1, 1, 1));
    row.toward = None;
    row.state = State::Committed;
    row.decision = Some(Decision::Commit(7));
    row
}

/// A branch in doubt, with a child at WAREHOUSE.
fn in_doubt(alloc: Global) -> Result<KeptRow, NameErr> {
    let children = one_child(alloc, branch(WAREHOUSE, 1, 65, 1), b"WAREHOUSE")?;
    let comment = bytes(alloc, b"orders")?;
    let mut row = prepared(alloc, branch(HQ, 1, 66, 1), branch(SALES, 1, 1, 1));
    row.children = children;
    row.comment = comment;
    row.advice = Some(Advice::Commit);
    Ok(row)
}

/// A branch whose row a purge took out of the view.
fn purged(alloc: Global) -> KeptRow {
    let mut row = prepared(alloc, branch(HQ, 1, 67, 1), branch(SALES, 1, 1, 2));
    row.state = State::ForcedCommit(9);
    row.mixed = true;
    row.hidden = true;
    row
}

/// A branch that was rolled back by force. Its commit point site is below its child.
fn rolled_back(alloc: Global) -> Result<KeptRow, NameErr> {
    let child = branch(WAREHOUSE, 1, 70, 1);
    let children = one_child(alloc, child, b"DEPOT")?;
    let mut row = prepared(alloc, branch(HQ, 2, 65, 1), branch(SALES, 1, 1, 3));
    row.children = children;
    row.toward = Some(child);
    row.advice = Some(Advice::Rollback);
    row.state = State::ForcedRollback;
    row.mixed = true;
    Ok(row)
}

fn kept(alloc: Global) -> Result<Vec<KeptRow>, NameErr> {
    let mut kept = Vec::new(alloc);
    kept.push(committed(alloc))?;
    kept.push(in_doubt(alloc)?)?;
    kept.push(purged(alloc))?;
    kept.push(rolled_back(alloc)?)?;
    Ok(kept)
}

/// A root of HQ in this phase, with a child at WAREHOUSE.
fn live(alloc: Global, session: u32, phase: Phase) -> Result<Live, NameErr> {
    let edge = Edge {
        peer: branch(WAREHOUSE, 1, 71, session),
        link: Name::from_bytes(alloc, b"WAREHOUSE")?,
        strength: 1,
        weight: None,
        count: 1,
        vote: Vote::Asked,
    };
    let me = branch(HQ, 1, session, 4);
    Ok(Live {
        me,
        root: me,
        parent: None,
        depth: 1,
        changed: true,
        strength: 1,
        edges: Listing::of(vec![in alloc; edge]?),
        phase,
        advice: None,
        comment: bytes(alloc, b"stock")?,
        read_at: None,
    })
}

/// A branch that answered Ready and has no child.
fn alone(alloc: Global) -> Result<Live, NameErr> {
    let mut ready = live(alloc, 2, Phase::Ready)?;
    ready.edges = Listing::new(alloc);
    Ok(ready)
}

/// A root that waits for its child, a branch without children, and one that takes statements.
fn lives(alloc: Global) -> Result<Vec<Live>, NameErr> {
    let mut lives = Vec::new(alloc);
    lives.push(alone(alloc)?)?;
    lives.push(live(alloc, 1, Phase::Collecting { site_below: false })?)?;
    lives.push(live(alloc, 3, Phase::Working)?)?;
    Ok(lives)
}

/// Whether these lines are this text.
fn are(alloc: Global, lines: &Texts, due: &str) -> Result<bool, AllocError> {
    let mut text = Vec::new(alloc);
    for line in lines.as_slice() {
        text.extend_from_slice(line.as_slice())?;
        text.push(b'\n')?;
    }
    Ok(text.as_slice() == due.as_bytes())
}

fn is_pending_shown(
    alloc: Global,
    kept: &[KeptRow],
    lives: &[Live],
    due: &str,
) -> Result<bool, NameErr> {
    let names = names(alloc)?;
    let lines = pending_view(alloc, &names, kept, lives)?;
    Ok(are(alloc, &lines, due)?)
}

fn are_neighbors_shown(alloc: Global, kept: &[KeptRow], due: &str) -> Result<bool, NameErr> {
    let names = names(alloc)?;
    let lines = neighbors_view(alloc, &names, kept)?;
    Ok(are(alloc, &lines, due)?)
}

fn is_node_shown(alloc: Global) -> Result<bool, NameErr> {
    let kept = kept(alloc)?;
    let lives = lives(alloc)?;
    is_pending_shown(alloc, &kept, &lives, PENDING)
}

fn are_its_neighbors_shown(alloc: Global) -> Result<bool, NameErr> {
    let kept = kept(alloc)?;
    are_neighbors_shown(alloc, &kept, NEIGHBORS)
}

#[test]
fn pending_transactions_are_shown(rt: HostRuntime) {
    assert!(rt; is_node_shown(rt.alloc()) == Ok(true));
}

#[test]
fn their_neighbors_are_shown(rt: HostRuntime) {
    assert!(rt; are_its_neighbors_shown(rt.alloc()) == Ok(true));
}

#[test]
fn a_node_without_rows_shows_that(rt: HostRuntime) {
    assert!(rt; is_pending_shown(rt.alloc(), &[], &[], "no rows selected\n") == Ok(true));
    assert!(rt; are_neighbors_shown(rt.alloc(), &[], "no rows selected\n") == Ok(true));
}
