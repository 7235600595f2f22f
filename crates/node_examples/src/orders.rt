//! An order over three nodes, each of them alone: a child, the commit point site and the root.
use crate::hq::{AT_HQ, COMMIT_HQ, FORGET_HQ, PREPARE_HQ, ROW_AT_HQ};
use crate::lives::play_out;
use crate::sales::{AT_SALES, COLLECT, COMPLETE, LEARN, PASS};
use crate::warehouse::{AT_WAREHOUSE, DECIDE, FORGET_WAREHOUSE, READY, ROW_AT_WAREHOUSE};
use lone_node::{LoneNode, Step, Turn};
use std::alloc::Global;

/// HQ, from its first turn until it forgets the order.
const LIFE_OF_HQ: &[&[Step]] = &[&AT_HQ, &[PREPARE_HQ, COMMIT_HQ, FORGET_HQ, ROW_AT_HQ]];

/// WAREHOUSE.
const LIFE_OF_WAREHOUSE: &[&[Step]] = &[
    &AT_WAREHOUSE,
    &[READY, DECIDE, FORGET_WAREHOUSE, ROW_AT_WAREHOUSE],
];

/// SALES.
const LIFE_OF_SALES: &[&[Step]] = &[&AT_SALES, &COLLECT, &[PASS, LEARN], &COMPLETE];

/// The first of these turns of the node of a number that is not as expected.
fn first_other(alloc: Global, number: u8, parts: &[&[Step]]) -> Option<Turn> {
    play_out(alloc, LoneNode::make(alloc, number), parts)
}

#[test]
fn a_child_is_prepared_and_commits(rt: HostRuntime) {
    assert!(rt; first_other(rt.alloc(), 3, LIFE_OF_HQ).is_none());
}

#[test]
fn the_commit_point_site_decides(rt: HostRuntime) {
    assert!(rt; first_other(rt.alloc(), 2, LIFE_OF_WAREHOUSE).is_none());
}

#[test]
fn a_root_commits_its_order(rt: HostRuntime) {
    assert!(rt; first_other(rt.alloc(), 1, LIFE_OF_SALES).is_none());
}
