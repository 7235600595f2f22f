//! A branch in doubt whose outcome is forced, and the decision that it meets later.
use crate::branches::{LEDGER, ROOT};
use crate::hq::{AT_HQ, NO_ROW_AT_HQ, PREPARE_HQ, ROW_AT_HQ};
use crate::lives::{play_out, played, restarted};
use lone_node::{Comes, Letter, LoneNode, Says, Step, Turn, Wrote};
use redo_record::Decision;
use std::alloc::Global;

const COMMIT_FORCE: Step = (
    Comes::Call(1, b"COMMIT FORCE '1.65.1'"),
    Wrote::Forced(Decision::Commit(2)),
    &[],
    &[b"Commit complete."],
);

const ROLLBACK_FORCE: Step = (
    Comes::Call(1, b"ROLLBACK FORCE '1.65.1'"),
    Wrote::Forced(Decision::Rollback),
    &[],
    &[b"Rollback complete."],
);

/// No branch in doubt has this id.
const FORCE_NOBODY: Step = (
    Comes::Call(1, b"COMMIT FORCE '1.65.1'"),
    Wrote::Nothing,
    &[],
    &[b"ORA-02058: no prepared transaction found with ID 1.65.1"],
);

const COMMITTED: Comes = Comes::Message((ROOT, LEDGER, 2, Says::Committed { scn: 2 }));

const ACK: &[Letter] = &[(LEDGER, ROOT, 2, Says::Ack)];

const MEET_COMMIT: Step = (COMMITTED, Wrote::Met(Decision::Commit(2), false), ACK, &[]);

const MEET_COMMIT_MIXED: Step = (COMMITTED, Wrote::Met(Decision::Commit(2), true), ACK, &[]);

const ROLLED_BACK: Comes = Comes::Message((ROOT, LEDGER, 1, Says::RolledBack));

const MEET_ROLLBACK: Step = (ROLLED_BACK, Wrote::Met(Decision::Rollback, false), &[], &[]);

const MEET_ROLLBACK_MIXED: Step = (ROLLED_BACK, Wrote::Met(Decision::Rollback, true), &[], &[]);

const PURGE_MIXED: Step = (
    Comes::Call(1, b"EXECUTE DBMS_TRANSACTION.PURGE_MIXED('1.65.1')"),
    Wrote::Hidden,
    &[],
    &[b"PL/SQL procedure successfully completed."],
);

/// HQ is prepared, rolls back by force, and learns of the commit.
const ROLLBACK_MEETS_COMMIT: &[&[Step]] = &[
    &AT_HQ,
    &[PREPARE_HQ, ROLLBACK_FORCE, FORCE_NOBODY, NO_ROW_AT_HQ],
    &[MEET_COMMIT_MIXED, NO_ROW_AT_HQ],
];

/// It commits by force, and learns of the rollback.
const COMMIT_MEETS_ROLLBACK: &[&[Step]] = &[
    &AT_HQ,
    &[PREPARE_HQ, COMMIT_FORCE, FORCE_NOBODY, ROW_AT_HQ],
    &[MEET_ROLLBACK_MIXED, ROW_AT_HQ],
];

/// It commits by force, and learns of the commit.
const COMMIT_MEETS_COMMIT: &[&[Step]] = &[
    &AT_HQ,
    &[PREPARE_HQ, COMMIT_FORCE, MEET_COMMIT, ROW_AT_HQ],
];

/// It rolls back by force, and learns of the rollback.
const ROLLBACK_MEETS_ROLLBACK: &[&[Step]] = &[
    &AT_HQ,
    &[PREPARE_HQ, ROLLBACK_FORCE, MEET_ROLLBACK, NO_ROW_AT_HQ],
];

/// It rolls back by force.
const ROLLED_BACK_BY_FORCE: &[&[Step]] = &[&AT_HQ, &[PREPARE_HQ, ROLLBACK_FORCE]];

/// It learns of the commit after a start.
const COMMIT_COMES_LATE: &[&[Step]] = &[&[
    NO_ROW_AT_HQ,
    MEET_COMMIT_MIXED,
    NO_ROW_AT_HQ,
    PURGE_MIXED,
]];

/// Whether the one row that the node keeps is marked so as mixed or not, or it does not keep one where that is due.
fn is_marked(node: &LoneNode, due: Option<bool>) -> bool {
    match node.kept() {
        [row] => due == Some(row.mixed),
        _ => due.is_none(),
    }
}

/// Whether that is so before a start and after it, where HQ goes through these turns as expected.
fn stays_marked(alloc: Global, parts: &[&[Step]], due: Option<bool>) -> bool {
    match played(alloc, 3, parts) {
        Some(node) => {
            let before = is_marked(&node, due);
            is_marked_after(alloc, node, due) && before
        }
        None => false,
    }
}

/// Whether it is so after a start of the node, which then ends.
fn is_marked_after(alloc: Global, node: LoneNode, due: Option<bool>) -> bool {
    match node.restart(alloc) {
        Some(node) => {
            let is = is_marked(&node, due);
            node.end();
            is
        }
        None => false,
    }
}

#[test]
fn a_forced_rollback_that_meets_a_commit_is_mixed(rt: HostRuntime) {
    assert!(rt; stays_marked(rt.alloc(), ROLLBACK_MEETS_COMMIT, Some(true)));
}

#[test]
fn a_forced_commit_that_meets_a_rollback_is_mixed(rt: HostRuntime) {
    assert!(rt; stays_marked(rt.alloc(), COMMIT_MEETS_ROLLBACK, Some(true)));
}

#[test]
fn a_forced_outcome_that_meets_its_like_is_not_mixed(rt: HostRuntime) {
    assert!(rt; stays_marked(rt.alloc(), COMMIT_MEETS_COMMIT, Some(false)));
    assert!(rt; stays_marked(rt.alloc(), ROLLBACK_MEETS_ROLLBACK, None));
}

/// The first of those last turns that is not as expected.
fn first_other_when_forced(alloc: Global) -> Option<Turn> {
    play_out(
        alloc,
        restarted(alloc, 3, ROLLED_BACK_BY_FORCE),
        COMMIT_COMES_LATE,
    )
}

#[test]
fn a_forced_outcome_is_known_after_a_start(rt: HostRuntime) {
    assert!(rt; first_other_when_forced(rt.alloc()).is_none());
}
