//! What the rules make of the calls of one branch. The branch stays.
ghost use Rattle.std.specs.Prelude.{◌≡◌, ◌<◌, ◌≤◌, ◌^◌, not, filter, IfOk, IsFalse, IsTrue, OnOk, OnErr};
ghost use Rattle.link_session.specs.Calls.{admit as admit_of};
ghost use Rattle.tran_ids.specs.Listed.{set_numbered};
ghost use Rattle.savepoints.specs.Marks.{has_name, no_marks as no_marks_of};
ghost use Rattle.node_rules.specs.NodeState.{no_work as no_work_of};
ghost use Rattle.node_rules.specs.Calls.{calls_with as calls_with_of, next_call as next_call_of};
ghost use Rattle.node_state.specs.Works.{with_call_taken, call_noted, called_over, waits_for_child, run_noted, with_savepoint_at, back_at, with_child, answered_with, given_up};

use dtx_values::{Listing, Name};
use link_session::{Admit, Calls, ReplyFields};
use node_rules::{Errand, Going, Waits, Work};
use savepoints::{Marks, Note, RowKeys, Savepoint};
use sql_statement::Stmt;
use std::alloc::{AllocError, Global};
use std::mem;
use tran_ids::BranchId;

/// What a branch does about a call of this number.
#[tactic(auto, unfolding(link_session::specs::Calls::admit))]
pub(crate) fn admit(came: &Calls, call: u32) -> Admit
    ensures { result ≡ admit_of came.now call }
{
    if came.last_call < call {
        Admit::Run
    } else if call == came.last_call && came.reply.is_some() {
        Admit::Again
    } else {
        Admit::Ignore
    }
}

/// A branch to which no call came, and which made none.
pub fn no_work(alloc: Global, branch: &BranchId) -> Work
    ensures { result ≡ no_work_of branch.now }
{
    Work {
        branch: *branch,
        came: Calls::new(),
        calls: Listing::new(alloc),
        going: None,
        marks: no_marks(alloc),
    }
}

// Nothing was noted, and no savepoint is set.
fn no_marks(alloc: Global) -> Marks
    ensures { result ≡ no_marks_of }
{
    Marks {
        notes: Listing::new(alloc),
        savepoints: Listing::new(alloc),
    }
}

/// A branch to which no call came, with one child. Fails where memory runs out.
pub(crate) fn first_child(alloc: Global, branch: &BranchId) -> Result<Work, AllocError>
    ensures { IfOk result (λ work. work ≡ with_child (no_work_of branch.now)) }
{
    let mut work = no_work(alloc, branch);
    match add_child(&mut work) {
        Ok(()) => Ok(work),
        Err(error) => {
            drop(work);
            Err(error)
        }
    }
}

/// One more child, to which no call was made. Fails where memory runs out, and then nothing changes.
pub(crate) fn add_child(work: &mut Work) -> Result<(), AllocError>
    ensures ok { OnOk result (work.new ≡ with_child work.old) }
    ensures err { OnErr result (work.new ≡ work.old) }
{
    work.calls.push(0)
}

/// The next call number of an edge.
pub(crate) fn next_call(work: &Work, number: u8) -> u32
    requires { next_call_of work.now number < 2 ^ 32 }
    ensures { result ≡ next_call_of work.now number }
{
    let calls = work.calls.as_slice();
    match usize::from(number).checked_sub(1) {
        None => 1,
        Some(place) => match calls.get(place) {
            None => 1,
            Some(last) => *last + 1,
        },
    }
}

/// Whether 32 bits hold the next call number of an edge.
pub(crate) fn has_next_call(work: &Work, number: u8) -> bool
    ensures yes { IsTrue result → next_call_of work.now number < 2 ^ 32 }
    ensures no { IsFalse result → 2 ^ 32 ≤ next_call_of work.now number }
{
    let calls = work.calls.as_slice();
    match usize::from(number).checked_sub(1) {
        None => true,
        Some(place) => match calls.get(place) {
            None => true,
            Some(last) => *last < u32::MAX,
        },
    }
}

/// The branch is back at a step.
pub(crate) fn go_back(alloc: Global, work: &mut Work, step: u32)
    ensures { work.new ≡ back_at step work.old }
{
    work.marks.go_back(alloc, step);
}

/// A call is taken.
pub(crate) fn take_call(work: &mut Work, call: u32)
    ensures { work.new ≡ with_call_taken call work.old }
{
    let taken = Calls {
        last_call: call,
        reply: None,
    };
    drop(mem::replace(&mut work.came, taken));
}

/// An errand goes on to the child of a number; the call is noted at this step. Fails where memory runs out, and then nothing
/// changes.
pub(crate) fn call_over(
    alloc: Global,
    work: &mut Work,
    number: u8,
    errand: Errand,
    step: u32,
) -> Result<(), AllocError>
    requires { next_call_of work.old number < 2 ^ 32 }
    ensures ok { OnOk result (work.new ≡ called_over number errand step work.old) }
    ensures err { OnErr result (work.new ≡ work.old) }
{
    match note_call(alloc, work, number, step) {
        Err(error) => {
            drop(errand);
            Err(error)
        }
        Ok(()) => {
            let waits = Waits::ForReply(number);
            wait_for(work, Some(Going { errand, waits }));
            Ok(())
        }
    }
}

/// The first call of a branch to which no call came. Fails where memory runs out.
pub(crate) fn first_call(
    alloc: Global,
    branch: &BranchId,
    number: u8,
    errand: Errand,
    step: u32,
) -> Result<Work, AllocError>
    requires { next_call_of (no_work_of branch.now) number < 2 ^ 32 }
    ensures { IfOk result (λ work. work ≡ called_over number errand step (no_work_of branch.now)) }
{
    let mut work = no_work(alloc, branch);
    match call_over(alloc, &mut work, number, errand, step) {
        Ok(()) => Ok(work),
        Err(error) => {
            drop(work);
            Err(error)
        }
    }
}

// One more call of the child of a number, with its note.
fn note_call(alloc: Global, work: &mut Work, number: u8, step: u32) -> Result<(), AllocError>
    requires { next_call_of work.old number < 2 ^ 32 }
    ensures ok { OnOk result (work.new ≡ call_noted number step work.old) }
    ensures err { OnErr result (work.new ≡ work.old) }
{
    let calls = calls_with(alloc, work, number)?;
    let note = Note {
        step,
        sets: 0,
        keys: Listing::new(alloc),
        calls: Listing::of(Vec::from_slice(alloc, calls.as_slice())?),
    };
    work.marks.notes.push(note)?;
    drop(mem::replace(&mut work.calls, Listing::of(calls)));
    Ok(())
}

// The call numbers with one more call of an edge.
fn calls_with(alloc: Global, work: &Work, number: u8) -> Result<Vec<u32>, AllocError>
    requires { next_call_of work.now number < 2 ^ 32 }
    ensures { IfOk result (λ calls. calls.items ≡ calls_with_of work.now number) }
{
    let call = next_call(work, number);
    let mut calls = Vec::from_slice(alloc, work.calls.as_slice())?;
    set_call(&mut calls, number, call);
    Ok(calls)
}

fn set_call(calls: &mut Vec<u32>, number: u8, call: u32)
    ensures { calls.new.items ≡ set_numbered calls.old.items number call }
{
    let Some(place) = usize::from(number).checked_sub(1) else {
        return;
    };
    if place < calls.len() {
        calls[place] = call;
    }
}

/// A statement waits for a child to be opened over a link.
pub(crate) fn wait_for_opened(work: &mut Work, link: Name, statement: Stmt, room: u16)
    ensures { work.new ≡ waits_for_child link statement room work.old }
{
    let errand = Errand::Statement { statement, room };
    let waits = Waits::ForOpened(link);
    wait_for(work, Some(Going { errand, waits }));
}

/// A run is noted: its step, its sets of changes, and the keys that it wrote. Fails where memory runs out, and then nothing
/// changes.
pub(crate) fn note_run(
    alloc: Global,
    work: &mut Work,
    step: u32,
    sets: u32,
    keys: RowKeys,
) -> Result<(), AllocError>
    ensures ok { OnOk result (work.new ≡ run_noted step sets keys work.old) }
    ensures err { OnErr result (work.new ≡ work.old) }
{
    match Vec::from_slice(alloc, work.calls.as_slice()) {
        Err(error) => {
            drop(keys);
            Err(error)
        }
        Ok(calls) => work.marks.notes.push(Note {
            step,
            sets,
            keys,
            calls: Listing::of(calls),
        }),
    }
}

/// The first run of a branch to which no call came. Fails where memory runs out.
pub(crate) fn first_run(
    alloc: Global,
    branch: &BranchId,
    step: u32,
    sets: u32,
    keys: RowKeys,
) -> Result<Work, AllocError>
    ensures { IfOk result (λ work. work ≡ run_noted step sets keys (no_work_of branch.now)) }
{
    let mut work = no_work(alloc, branch);
    match note_run(alloc, &mut work, step, sets, keys) {
        Ok(()) => Ok(work),
        Err(error) => {
            drop(work);
            Err(error)
        }
    }
}

/// A savepoint is set at a step, in the place of one of its name. Fails where memory runs out, and then one of its name may be
/// gone.
pub(crate) fn set_savepoint(
    alloc: Global,
    work: &mut Work,
    name: Name,
    step: u32,
) -> Result<(), AllocError>
    ensures ok { OnOk result (work.new ≡ with_savepoint_at name step work.old) }
    ensures branch { work.new.branch ≡ work.old.branch }
{
    let mut savepoints = mem::replace(&mut work.marks.savepoints, Listing::new(alloc)).into_vec();
    forget(&mut savepoints, &name);
    work.marks.savepoints = Listing::of(savepoints);
    work.marks.savepoints.push(Savepoint { name, step })
}

// Savepoints of this name are forgotten.
fn forget(savepoints: &mut Vec<Savepoint>, name: &Name)
    ensures { savepoints.new.items ≡ filter (λ s. not (has_name name.now s)) savepoints.old.items }
{
    savepoints.retain(|savepoint| !savepoint.name.is(name));
}

/// The first savepoint of a branch to which no call came. Fails where memory runs out.
pub(crate) fn first_savepoint(
    alloc: Global,
    branch: &BranchId,
    name: Name,
    step: u32,
) -> Result<Work, AllocError>
    ensures { IfOk result (λ work. work ≡ with_savepoint_at name step (no_work_of branch.now)) }
{
    let mut work = no_work(alloc, branch);
    match set_savepoint(alloc, &mut work, name, step) {
        Ok(()) => Ok(work),
        Err(error) => {
            drop(work);
            Err(error)
        }
    }
}

/// The statement is answered; the answer is kept where there is one.
pub(crate) fn answer(work: &mut Work, reply: Option<ReplyFields>)
    ensures { work.new ≡ answered_with reply work.old }
{
    wait_for(work, None);
    if reply.is_some() {
        drop(mem::replace(&mut work.came.reply, reply));
    } else {
        drop(reply);
    }
}

/// The branch waits for nothing.
pub(crate) fn give_up(work: &mut Work)
    ensures { work.new ≡ given_up work.old }
{
    wait_for(work, None);
}

// The branch waits for this from now on.
fn wait_for(work: &mut Work, going: Option<Going>)
    ensures { work.new ≡ record work.old { going = going } }
{
    drop(mem::replace(&mut work.going, going));
}
