//! Appends that an order strikes: the node starts from what is left, and the record stands or not.
use crate::branches::{LEDGER, ROOT, STOCK};
use crate::hq::{AT_HQ, COMMIT_HQ, KEY_IN_DOUBT, NO_ROW_AT_HQ, PREPARE_HQ, ROW_AT_HQ};
use crate::lives::{goes_on, played};
use crate::warehouse::{
    AT_WAREHOUSE, DECIDE, FORGET_WAREHOUSE, OLD_ROW_AT_WAREHOUSE, READY, ROW_AT_WAREHOUSE,
};
use block_disk::{DiskFault, How, Stop};
use lone_node::{Comes, LoneNode, Says, Step, Wrote};
use node_disk::CutAt;
use std::alloc::Global;

/// A node, the turns before the one that an order strikes, and that one, as it is without the order.
#[derive(Clone, Copy)]
struct Strike {
    number: u8,
    before: &'static [&'static [Step]],
    struck: Step,
    /// The turns after a start from a disk on which the record stands.
    stands: &'static [&'static [Step]],
    /// The turns after one from a disk without it.
    lacks: &'static [&'static [Step]],
}

/// The record by which HQ is prepared.
const SEAL: &Strike = &Strike {
    number: 3,
    before: &[&AT_HQ],
    struck: PREPARE_HQ,
    stands: &[&[KEY_IN_DOUBT, COMMIT_HQ, ROW_AT_HQ]],
    lacks: &[&[
        (
            Comes::Message((ROOT, LEDGER, 1, Says::Prepare { site_below: false })),
            Wrote::Nothing,
            &[(LEDGER, ROOT, 1, Says::Abort)],
            &[],
        ),
        NO_ROW_AT_HQ,
    ]],
};

/// The record by which WAREHOUSE decides.
const DECISION: &Strike = &Strike {
    number: 2,
    before: &[&AT_WAREHOUSE, &[READY]],
    struck: DECIDE,
    stands: &[&[
        ROW_AT_WAREHOUSE,
        (
            Comes::Message((ROOT, STOCK, 1, Says::Ask)),
            Wrote::Nothing,
            &[(STOCK, ROOT, 2, Says::Committed { scn: 2 })],
            &[],
        ),
        FORGET_WAREHOUSE,
    ]],
    lacks: &[&[
        OLD_ROW_AT_WAREHOUSE,
        (
            Comes::Message((ROOT, STOCK, 1, Says::Ask)),
            Wrote::Nothing,
            &[(STOCK, ROOT, 1, Says::RolledBack)],
            &[],
        ),
    ]],
};

/// Whether the node is cut in the append of its record, once its disk has the order.
fn is_struck(alloc: Global, node: &mut LoneNode, strike: &Strike, order: DiskFault) -> bool {
    node.arm(order);
    node.cut(alloc, &strike.struck.0, &[]) == Some(CutAt::InAppend)
}

/// Whether the order strikes, and the node starts from what is left and goes on as it should: with the record or without it.
fn goes_on_after(alloc: Global, strike: &Strike, order: DiskFault, stands: bool) -> bool {
    match played(alloc, strike.number, strike.before) {
        Some(mut node) => {
            let is_struck = is_struck(alloc, &mut node, strike, order);
            goes_on(alloc, node, is_struck, parts_after(strike, stands))
        }
        None => {
            drop(order);
            false
        }
    }
}

/// The turns after a start, where the record stands or does not.
fn parts_after(strike: &Strike, stands: bool) -> &'static [&'static [Step]] {
    if stands { strike.stands } else { strike.lacks }
}

/// The same where a write of the append keeps so many bytes.
fn keeps(alloc: Global, strike: &Strike, write: u32, count: u32, stands: bool) -> bool {
    let how = How::Keep(count);
    goes_on_after(alloc, strike, DiskFault::Stop(Stop { write, how }), stands)
}

/// The same where it leaves these bytes.
fn leaves(alloc: Global, strike: &Strike, write: u32, bytes: &[u8], stands: bool) -> bool {
    match bytes.to_vec(alloc) {
        Ok(bytes) => {
            let how = How::Leave(bytes);
            goes_on_after(alloc, strike, DiskFault::Stop(Stop { write, how }), stands)
        }
        Err(_) => false,
    }
}

/// The same where a call of the append fails.
fn fails(alloc: Global, strike: &Strike, call: u32, stands: bool) -> bool {
    goes_on_after(alloc, strike, DiskFault::Fault(call), stands)
}

/// Whether an order strikes the append of HQ's seal. None where HQ does not come to it.
fn strikes(alloc: Global, order: DiskFault) -> Option<bool> {
    match played(alloc, SEAL.number, SEAL.before) {
        Some(mut node) => {
            let is_struck = is_struck(alloc, &mut node, SEAL, order);
            node.end();
            Some(is_struck)
        }
        None => {
            drop(order);
            None
        }
    }
}

/// The length of the disk where a write of the append keeps nothing, and so does what comes after it.
fn length_at(alloc: Global, strike: &Strike, write: u32) -> Option<usize> {
    let mut node = played(alloc, strike.number, strike.before)?;
    let how = How::Keep(0);
    let is_struck = is_struck(
        alloc,
        &mut node,
        strike,
        DiskFault::Stop(Stop { write, how }),
    );
    let length = node.bytes().len();
    node.end();
    if is_struck { Some(length) } else { None }
}

/// How many bytes the record has with its length before it and the gate behind it.
fn length_of(alloc: Global, strike: &Strike) -> Option<usize> {
    length_at(alloc, strike, 2)?.checked_sub(length_at(alloc, strike, 1)?)
}

/// How many bytes of a record are written: some of its length alone, some of what it says, and all of it.
const COUNTS: [u32; 12] = [0, 1, 3, 4, 5, 6, 9, 20, 30, 39, 80, 200];

/// The first of these counts after which the node does not go on without the record.
fn first_kept_row(alloc: Global, strike: &Strike) -> Option<u32> {
    for count in &COUNTS {
        if !keeps(alloc, strike, 1, *count, false) {
            return Some(*count);
        }
    }
    None
}

/// Whether some of these counts are within the record, and the last is all of it.
fn is_long(alloc: Global, strike: &Strike) -> bool {
    matches!(length_of(alloc, strike), Some(40..=200))
}

#[test]
fn a_record_that_is_written_in_part_does_not_stand(rt: HostRuntime) {
    assert!(rt; is_long(rt.alloc(), SEAL) && is_long(rt.alloc(), DECISION));
    assert!(rt; first_kept_row(rt.alloc(), SEAL).is_none());
    assert!(rt; first_kept_row(rt.alloc(), DECISION).is_none());
}

/// Whether no bytes behind a closed gate are a record.
fn is_closed(alloc: Global, strike: &Strike) -> bool {
    leaves(alloc, strike, 1, b"", false)
        && leaves(alloc, strike, 1, b"\x01\xff", false)
        && leaves(
            alloc,
            strike,
            1,
            b"\x00\x00\x00\x06\x01\x01\x00\x00\x00\x09\x01",
            false,
        )
}

#[test]
fn whatever_is_left_behind_a_closed_gate_is_no_record(rt: HostRuntime) {
    assert!(rt; is_closed(rt.alloc(), SEAL));
    assert!(rt; is_closed(rt.alloc(), DECISION));
}

/// Whether the record stands exactly where the byte of its gate says so.
fn is_gated(alloc: Global, strike: &Strike) -> bool {
    keeps(alloc, strike, 2, 0, false)
        && keeps(alloc, strike, 2, 1, true)
        && leaves(alloc, strike, 2, b"", false)
        && leaves(alloc, strike, 2, b"\x02", false)
        && leaves(alloc, strike, 2, b"\x01\x01", true)
}

#[test]
fn a_record_stands_once_its_gate_is_open(rt: HostRuntime) {
    assert!(rt; is_gated(rt.alloc(), SEAL));
    assert!(rt; is_gated(rt.alloc(), DECISION));
}

/// Whether the record stands where the last call of the append fails, and where none before it does.
fn stands_at_the_last(alloc: Global, strike: &Strike) -> bool {
    fails(alloc, strike, 1, false)
        && fails(alloc, strike, 2, false)
        && fails(alloc, strike, 3, false)
        && fails(alloc, strike, 4, true)
}

#[test]
fn a_call_that_fails_writes_nothing(rt: HostRuntime) {
    assert!(rt; stands_at_the_last(rt.alloc(), SEAL));
    assert!(rt; stands_at_the_last(rt.alloc(), DECISION));
}

#[test]
fn an_order_past_the_calls_of_an_append_does_not_strike_it(rt: HostRuntime) {
    assert!(rt; matches!(strikes(rt.alloc(), DiskFault::Fault(5)), Some(false)));
    let how = How::Keep(0);
    assert!(rt;
        matches!(
            strikes(rt.alloc(), DiskFault::Stop(Stop { write: 3, how })),
            Some(false)
        )
    );
}
