//! The texts of ids, and the clock, by examples.
use dtx_values::{Name, NameErr};
use std::alloc::{AllocError, Global};
use tran_ids::{BranchId, Clock, global_text, local_text};

const BRANCH: BranchId = BranchId {
    node: 1,
    boot: 1,
    session: 65,
    seq: 1,
};

/// A branch of a node that has no name.
const NAMELESS: BranchId = BranchId {
    node: 255,
    boot: 4294967295,
    session: 64,
    seq: 10,
};

/// Whether this is the local text of the branch.
fn is_local(alloc: Global, branch: &BranchId, text: &[u8]) -> Result<bool, AllocError> {
    Ok(local_text(alloc, branch)?.as_slice() == text)
}

/// Whether this is the global text of the branch, where the nodes have these names.
fn is_global(
    alloc: Global,
    names: &[Name],
    branch: &BranchId,
    text: &[u8],
) -> Result<bool, AllocError> {
    Ok(global_text(alloc, names, branch)?.as_slice() == text)
}

/// Whether this is the global text of the branch, where the one node is HQ.
fn is_global_at_hq(alloc: Global, text: &[u8]) -> Result<bool, NameErr> {
    let names = [Name::from_bytes(alloc, b"HQ")?];
    Ok(is_global(alloc, &names, &BRANCH, text)?)
}

#[test]
fn texts_are_written(rt: HostRuntime) {
    let alloc = rt.alloc();
    assert!(rt; is_local(alloc, &BRANCH, b"1.65.1") == Ok(true));
    assert!(rt; is_global_at_hq(alloc, b"HQ.00000001.1.65.1") == Ok(true));
    assert!(rt; is_global(alloc, &[], &NAMELESS, b".000000ff.4294967295.64.10") == Ok(true));
}

/// What a clock says first, after it met 7 and then 3, and next.
fn times() -> [u64; 3] {
    let mut clock = Clock::new();
    let first = clock.next();
    clock.meet(7);
    clock.meet(3);
    let last = clock.now();
    [first, last, clock.next()]
}

#[test]
fn a_clock_never_falls(rt: HostRuntime) {
    assert!(rt; times() == [1, 7, 8]);
}
