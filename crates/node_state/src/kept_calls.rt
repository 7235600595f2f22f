//! The calls of a branch up to a step, by what it noted, and its savepoints.
ghost use Rattle.std.specs.Prelude.{◌≡◌, ◌+◌, ◌≤◌, find, length, unwrap_or, IfOk};
ghost use Rattle.std.specs.Option.{option_copied};
ghost use Rattle.tran_ids.specs.Listed.{numbered};
ghost use Rattle.savepoints.specs.Marks.{calls_until as calls_until_of, has_name, savepoint_at};
ghost use Rattle.node_rules.specs.Marks.{kept_call as kept_call_of, next_back as next_back_of};

use dtx_values::Name;
use node_rules::Work;
use savepoints::{Marks, Savepoint};
use std::alloc::AllocError;

/// The step of a savepoint, where one of this name is set.
pub(crate) fn savepoint(marks: &Marks, name: &Name) -> Option<u32>
    ensures { result ≡ savepoint_at marks.now name.now }
{
    match named(marks.savepoints.as_slice(), name) {
        None => None,
        Some(savepoint) => Some(savepoint.step),
    }
}

fn named<'a>(savepoints: &'a [Savepoint], name: &Name) -> Option<&'a Savepoint>
    ensures { option_copied result ≡ find (has_name name.now) savepoints.now }
{
    savepoints.iter().find(|savepoint| savepoint.name.is(name))
}

/// The last call of an edge up to a step, 0 where there was none.
pub(crate) fn kept_call(marks: &Marks, step: u32, number: u8) -> u32
    ensures { result ≡ kept_call_of marks.now step number }
{
    call_at(calls_until(marks, step), number)
}

// The call numbers that were noted last up to a step.
fn calls_until(marks: &Marks, step: u32) -> &[u32]
    ensures { result.now ≡ calls_until_of marks.now step }
{
    let mut calls: &[u32] = &[];
    for note in marks.notes.as_slice() {
        if note.step <= step {
            calls = note.calls.as_slice();
        }
    }
    calls
}

fn call_at(calls: &[u32], number: u8) -> u32
    ensures { result ≡ unwrap_or (numbered calls.now number) 0 }
{
    let Some(place) = usize::from(number).checked_sub(1) else {
        return 0;
    };
    match calls.get(place) {
        None => 0,
        Some(call) => *call,
    }
}

/// The child behind this number that has to go back next. A number beyond 255 is answered as out of memory.
pub(crate) fn next_back(work: &Work, step: u32, last: u8) -> Result<Option<u8>, AllocError>
    ensures { IfOk result (λ next. next ≡ next_back_of work.now step (last + 1)) }
{
    let calls = work.calls.as_slice();
    if calls.len() > 255 {
        return Err(AllocError);
    }
    Ok(went_on(work, calls, step, last))
}

// The first child behind a number whose calls went on since the step.
#[tactic(auto, using(crate::proofs::NextLaws::passed, crate::proofs::NextLaws::goes_next, crate::proofs::NextLaws::none_next, crate::proofs::NextLaws::none_far))]
fn went_on(work: &Work, calls: &[u32], step: u32, last: u8) -> Option<u8>
    requires all { calls.now ≡ work.now.calls }
    requires few { length calls.now ≤ 255 }
    ensures { result ≡ next_back_of work.now step (last + 1) }
{
    for place in last..u8::MAX {
        match calls.get(usize::from(place)) {
            None => return None,
            Some(call) => {
                let number = place + 1;
                if *call != kept_call(&work.marks, step, number) {
                    return Some(number);
                }
            }
        }
    }
    None
}
