//! What no clause says of locks: that calls succeed, and who is named where a key is held, by examples.
use dtx_values::{Name, Value};
use row_locks::{Keys, LockErr, Locks};
use std::alloc::Global;
use tran_ids::BranchId;

const FIRST: BranchId = BranchId {
    node: 1,
    boot: 1,
    session: 65,
    seq: 1,
};

const SECOND: BranchId = BranchId {
    node: 1,
    boot: 1,
    session: 66,
    seq: 1,
};

const KEY: i64 = 7;

// Where the name is none, it is as if there were no memory for it.
fn emp(alloc: Global) -> Result<Name, LockErr> {
    match Name::from_bytes(alloc, b"EMP") {
        Ok(name) => Ok(name),
        Err(_) => Err(LockErr::NoMemory),
    }
}

/// What has become of the first branch since it took the key to write its row.
#[derive(Clone, Copy)]
enum First {
    Live,
    InDoubt,
    Ended,
}

/// The first branch takes the key, and that becomes of it.
fn take_first(alloc: Global, locks: &mut Locks, emp: &Name, first: First) -> Result<(), LockErr> {
    locks.take(alloc, &FIRST, emp, &Value::Number(KEY), true)?;
    match first {
        First::Live => {}
        First::InDoubt => locks.mark_in_doubt(&FIRST),
        First::Ended => locks.release(&FIRST),
    }
    Ok(())
}

/// Locks with the key alone, which the first branch has taken.
fn taken(alloc: Global, emp: &Name, first: First) -> Result<Locks, LockErr> {
    let mut locks = Locks::new(alloc);
    match take_first(alloc, &mut locks, emp, first) {
        Ok(()) => Ok(locks),
        Err(error) => {
            drop(locks);
            Err(error)
        }
    }
}

/// What the second branch is told where it takes the key only to read its row.
fn told(alloc: Global, first: First) -> Result<(), LockErr> {
    let emp = emp(alloc)?;
    let mut locks = taken(alloc, &emp, first)?;
    let told = locks.take(alloc, &SECOND, &emp, &Value::Number(KEY), false);
    drop(locks);
    told
}

#[test]
fn a_key_is_held_until_its_branch_ends(rt: HostRuntime) {
    for (first, due) in [
        (
            First::Live,
            Err(LockErr::Held {
                by: FIRST,
                in_doubt: false,
            }),
        ),
        (
            First::InDoubt,
            Err(LockErr::Held {
                by: FIRST,
                in_doubt: true,
            }),
        ),
        (First::Ended, Ok(())),
    ] {
        assert!(rt; told(rt.alloc(), first) == due);
    }
}

/// The branch that holds the key, and whether it is in doubt.
fn holder(alloc: Global, first: First) -> Result<Option<(BranchId, bool)>, LockErr> {
    let emp = emp(alloc)?;
    let locks = taken(alloc, &emp, first)?;
    let holder = locks.holder(&emp, &Value::Number(KEY));
    drop(locks);
    Ok(holder)
}

#[test]
fn the_holder_of_a_key_is_named(rt: HostRuntime) {
    for (first, due) in [
        (First::Live, Some((FIRST, false))),
        (First::InDoubt, Some((FIRST, true))),
        (First::Ended, None),
    ] {
        assert!(rt; holder(rt.alloc(), first) == Ok(due));
    }
}

/// The keys that are left of the first branch once it has read another row, and gives back those that it only read.
fn keys_kept(alloc: Global, locks: &mut Locks, emp: &Name) -> Result<Keys, LockErr> {
    locks.take(alloc, &FIRST, emp, &Value::Number(1), false)?;
    locks.drop_reads(&FIRST);
    Ok(locks.keys(alloc, emp)?)
}

/// Whether the key alone is left.
fn keeps_the_key(alloc: Global) -> Result<bool, LockErr> {
    let emp = emp(alloc)?;
    let mut locks = taken(alloc, &emp, First::Live)?;
    let left = keys_kept(alloc, &mut locks, &emp);
    drop(locks);
    Ok(left?.as_slice() == [Value::Number(KEY)].as_slice())
}

#[test]
fn keys_that_were_only_read_are_given_back(rt: HostRuntime) {
    assert!(rt; keeps_the_key(rt.alloc()) == Ok(true));
}
