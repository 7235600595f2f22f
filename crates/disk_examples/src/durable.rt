//! What records leave, by examples: that records are taken in.
use dtx_values::{Listing, Name, NameErr};
use redo_record::{Decision, Durable, Peer, RedoRecord, Sealed, State, Toward};
use std::alloc::{AllocError, Global};
use tran_ids::BranchId;

const BRANCH: BranchId = BranchId {
    node: 1,
    boot: 1,
    session: 65,
    seq: 1,
};

/// The branch of the child that leads to the commit point site.
const CHILD: BranchId = BranchId {
    node: 2,
    boot: 1,
    session: 65,
    seq: 1,
};

/// The child, by the link HQ.
fn child(alloc: Global) -> Result<Peer, NameErr> {
    Ok(Peer {
        branch: CHILD,
        link: Name::from_bytes(alloc, b"HQ")?,
    })
}

fn sealed(alloc: Global) -> Result<RedoRecord, NameErr> {
    Ok(RedoRecord::Sealed(Sealed {
        me: BRANCH,
        root: BRANCH,
        scn: 5,
        toward: Toward::Child(0),
        parent: None,
        children: Listing::of(vec![in alloc; child(alloc)?]?),
        advice: None,
        comment: Listing::new(alloc),
        changes: Listing::new(alloc),
    }))
}

/// What is left of a start, and of this record of a branch that is then told to commit.
fn committed_after(alloc: Global, record: RedoRecord) -> Result<Durable, AllocError> {
    let ended = RedoRecord::Ended {
        me: BRANCH,
        decision: Decision::Commit(9),
    };
    let records = vec![in alloc; RedoRecord::Boot(1), record, ended]?;
    Durable::of(alloc, &records)
}

/// What is left of a start, and of a prepared branch that is told to commit.
fn committed(alloc: Global) -> Result<Durable, NameErr> {
    Ok(committed_after(alloc, sealed(alloc)?)?)
}

/// Whether the one branch is kept that is told to commit.
fn is_kept(left: &Durable) -> bool {
    match left.kept.as_slice() {
        [only] => {
            only.state == State::Committed
                && only.decision == Some(Decision::Commit(9))
                && only.toward == Some(CHILD)
        }
        _ => false,
    }
}

/// Whether the branch is kept, and no more once it forgot.
fn is_kept_until_it_forgot(alloc: Global) -> Result<bool, NameErr> {
    let mut left = committed(alloc)?;
    let was_kept = left.boot == 1 && is_kept(&left);
    left.apply(alloc, &RedoRecord::Forgot(BRANCH))?;
    Ok(was_kept && left.kept.as_slice().is_empty())
}

#[test]
fn a_branch_is_kept_until_it_forgot(rt: HostRuntime) {
    assert!(rt; is_kept_until_it_forgot(rt.alloc()) == Ok(true));
}
