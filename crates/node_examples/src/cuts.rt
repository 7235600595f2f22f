//! Points of crash-test comments: each cuts a turn before its record or after it.
use crate::branches::ROOT;
use crate::hq::{AT_HQ, COMMIT_HQ, FORGET_HQ, KEY_IN_DOUBT, NO_ROW_AT_HQ, PREPARE_HQ, ROW_AT_HQ};
use crate::lives::{goes_on, played};
use crate::sales::{AT_SALES, COLLECT, KEY_IN_DOUBT_AT_SALES, LEARN, NO_ROW_AT_SALES, PASS};
use crate::warehouse::{
    AT_WAREHOUSE, DECIDE, FORGET_WAREHOUSE, OLD_ROW_AT_WAREHOUSE, READY, ROW_AT_WAREHOUSE,
};
use lone_node::{LoneNode, Step};
use node_disk::CutAt;
use node_points::Point;
use std::alloc::Global;

/// A turn that a point cuts.
#[derive(Clone, Copy)]
struct Cut {
    /// The number of the node.
    node: u8,
    /// The turns before it.
    before: &'static [&'static [Step]],
    /// The turn that the point cuts, as it is without the point.
    turn: Step,
    /// Where the turn is cut.
    at: CutAt,
    /// The turns after a start.
    after: &'static [&'static [Step]],
}

/// HQ is cut before it is prepared.
const HQ_UNPREPARED: Cut = Cut {
    node: 3,
    before: &[&AT_HQ],
    turn: PREPARE_HQ,
    at: CutAt::BeforeRecord,
    after: &[&[NO_ROW_AT_HQ]],
};

/// SALES is cut before it is prepared.
const SALES_UNPREPARED: Cut = Cut {
    node: 1,
    before: &[&AT_SALES, &COLLECT],
    turn: PASS,
    at: CutAt::BeforeRecord,
    after: &[&[NO_ROW_AT_SALES]],
};

/// Each point of the order, with the turn that it cuts at a node that reaches it.
const REACHES: &[(u8, Cut)] = &[
    (
        1,
        Cut {
            node: 2,
            before: &[&AT_WAREHOUSE],
            turn: READY,
            at: CutAt::BeforeRecord,
            after: &[&[OLD_ROW_AT_WAREHOUSE]],
        },
    ),
    (2, HQ_UNPREPARED),
    (3, HQ_UNPREPARED),
    (
        4,
        Cut {
            node: 3,
            before: &[&AT_HQ],
            turn: PREPARE_HQ,
            at: CutAt::AfterRecord,
            after: &[&[KEY_IN_DOUBT, COMMIT_HQ, ROW_AT_HQ]],
        },
    ),
    (2, SALES_UNPREPARED),
    (3, SALES_UNPREPARED),
    (
        4,
        Cut {
            node: 1,
            before: &[&AT_SALES, &COLLECT],
            turn: PASS,
            at: CutAt::AfterRecord,
            after: &[&[KEY_IN_DOUBT_AT_SALES, LEARN]],
        },
    ),
    (
        5,
        Cut {
            node: 2,
            before: &[&AT_WAREHOUSE, &[READY]],
            turn: DECIDE,
            at: CutAt::BeforeRecord,
            after: &[&[OLD_ROW_AT_WAREHOUSE]],
        },
    ),
    (
        6,
        Cut {
            node: 2,
            before: &[&AT_WAREHOUSE, &[READY]],
            turn: DECIDE,
            at: CutAt::AfterRecord,
            after: &[&[ROW_AT_WAREHOUSE, FORGET_WAREHOUSE]],
        },
    ),
    (
        7,
        Cut {
            node: 3,
            before: &[&AT_HQ, &[PREPARE_HQ]],
            turn: COMMIT_HQ,
            at: CutAt::BeforeRecord,
            after: &[&[KEY_IN_DOUBT, COMMIT_HQ, ROW_AT_HQ]],
        },
    ),
    (
        8,
        Cut {
            node: 3,
            before: &[&AT_HQ, &[PREPARE_HQ]],
            turn: COMMIT_HQ,
            at: CutAt::AfterRecord,
            after: &[&[ROW_AT_HQ, FORGET_HQ]],
        },
    ),
    (
        9,
        Cut {
            node: 2,
            before: &[&AT_WAREHOUSE, &[READY, DECIDE]],
            turn: FORGET_WAREHOUSE,
            at: CutAt::BeforeRecord,
            after: &[&[ROW_AT_WAREHOUSE, FORGET_WAREHOUSE]],
        },
    ),
    (
        10,
        Cut {
            node: 3,
            before: &[&AT_HQ, &[PREPARE_HQ, COMMIT_HQ]],
            turn: FORGET_HQ,
            at: CutAt::BeforeRecord,
            after: &[&[ROW_AT_HQ, FORGET_HQ]],
        },
    ),
    (
        7,
        Cut {
            node: 1,
            before: &[&AT_SALES, &COLLECT, &[PASS]],
            turn: LEARN,
            at: CutAt::BeforeRecord,
            after: &[&[KEY_IN_DOUBT_AT_SALES, LEARN]],
        },
    ),
];

/// A point of the order that was not reached yet.
fn point(number: u8) -> Point {
    Point {
        root: ROOT,
        number,
        command: 1,
        reached: false,
    }
}

/// Whether the point cuts the turn where it should, and the disk is as it was exactly where that is before the record. None
/// where memory runs out.
fn is_cut(alloc: Global, node: &mut LoneNode, number: u8, cut: &Cut) -> Option<bool> {
    let before = node.bytes().to_vec(alloc).ok()?;
    let at = node.cut(alloc, &cut.turn.0, &[point(number)]);
    let is_unwritten = before.as_slice() == node.bytes();
    Some(at == Some(cut.at) && is_unwritten == (cut.at == CutAt::BeforeRecord))
}

/// Whether a turn is cut at the point of a number, and the node starts from what is left and goes on as it should.
fn is_reached(alloc: Global, number: u8, cut: &Cut) -> bool {
    match played(alloc, cut.node, cut.before) {
        Some(mut node) => {
            let is_cut = matches!(is_cut(alloc, &mut node, number, cut), Some(true));
            goes_on(alloc, node, is_cut, cut.after)
        }
        None => false,
    }
}

/// The place of the first of the points above that is not reached so, from 0.
fn first_unreached(alloc: Global) -> Option<usize> {
    for place in 0..REACHES.len() {
        let (number, cut) = &REACHES[place];
        if !is_reached(alloc, *number, cut) {
            return Some(place);
        }
    }
    None
}

#[test]
fn a_point_cuts_a_turn_before_its_record_or_after_it(rt: HostRuntime) {
    assert!(rt; first_unreached(rt.alloc()).is_none());
}

/// Whether the turn in which HQ is prepared is as it is without this point. None where there is no such node.
fn is_whole(alloc: Global, point: Point) -> Option<bool> {
    let mut node = played(alloc, 3, &[&AT_HQ])?;
    let is_whole = node.does(alloc, &PREPARE_HQ, &[point]);
    node.end();
    Some(is_whole)
}

#[test]
fn a_point_elsewhere_cuts_nothing(rt: HostRuntime) {
    // It is of another place, of another transaction, or was reached.
    assert!(rt; matches!(is_whole(rt.alloc(), point(5)), Some(true)));
    let mut other = point(3);
    other.root.seq = 2;
    assert!(rt; matches!(is_whole(rt.alloc(), other), Some(true)));
    let mut reached = point(3);
    reached.reached = true;
    assert!(rt; matches!(is_whole(rt.alloc(), reached), Some(true)));
    assert!(rt; matches!(is_whole(rt.alloc(), point(3)), Some(false)));
}
