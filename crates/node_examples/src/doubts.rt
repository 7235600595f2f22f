//! A branch that is prepared when its node stops: it is in doubt after the start, until the decision comes.
use crate::branches::{LEDGER, ROOT};
use crate::hq::{
    AT_HQ, COMMIT_HQ, FORGET_HQ, IN_DOUBT, KEY_IN_DOUBT, NO_ROW_AT_HQ, PREPARE_HQ, ROW_AT_HQ,
};
use crate::lives::{play_out, restarted};
use lone_node::{Comes, Says, Step, Turn, Wrote};
use redo_record::Decision;
use std::alloc::Global;

/// The branch in doubt keeps readers and writers from its key, and nobody from others; RECO asks for the decision.
const DOUBT: [Step; 4] = [
    KEY_IN_DOUBT,
    (
        Comes::Call(1, b"INSERT INTO LEDGER VALUES (1, 7)"),
        Wrote::Nothing,
        &[],
        &[IN_DOUBT],
    ),
    (
        Comes::Call(1, b"INSERT INTO LEDGER VALUES (2, 7)"),
        Wrote::Nothing,
        &[],
        &[b"1 row created."],
    ),
    (
        Comes::Reco,
        Wrote::Nothing,
        &[(LEDGER, ROOT, 1, Says::Ask)],
        &[],
    ),
];

/// HQ learns of a rollback.
const ROLL_BACK_HQ: Step = (
    Comes::Message((ROOT, LEDGER, 1, Says::RolledBack)),
    Wrote::Ended(Decision::Rollback),
    &[],
    &[],
);

/// A commit of which HQ keeps nothing is acknowledged.
const COMMIT_GONE: Step = (
    Comes::Message((ROOT, LEDGER, 2, Says::Committed { scn: 2 })),
    Wrote::Nothing,
    &[(LEDGER, ROOT, 2, Says::Ack)],
    &[],
);

/// HQ until it is prepared.
const PREPARED: &[&[Step]] = &[&AT_HQ, &[PREPARE_HQ]];

/// The commit comes.
const COMMITS: &[&[Step]] = &[&DOUBT, &[COMMIT_HQ, ROW_AT_HQ, FORGET_HQ, ROW_AT_HQ]];

/// The rollback comes.
const ROLLS_BACK: &[&[Step]] = &[&DOUBT, &[ROLL_BACK_HQ, NO_ROW_AT_HQ, COMMIT_GONE]];

/// The first of these turns that is not as expected where HQ is prepared, stops and starts.
fn first_other_in_doubt(alloc: Global, parts: &[&[Step]]) -> Option<Turn> {
    play_out(alloc, restarted(alloc, 3, PREPARED), parts)
}

#[test]
fn a_branch_is_in_doubt_after_a_start_until_its_commit_comes(rt: HostRuntime) {
    assert!(rt; first_other_in_doubt(rt.alloc(), COMMITS).is_none());
}

#[test]
fn a_branch_is_in_doubt_after_a_start_until_its_rollback_comes(rt: HostRuntime) {
    assert!(rt; first_other_in_doubt(rt.alloc(), ROLLS_BACK).is_none());
}
