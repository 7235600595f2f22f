//! The branch that COMMIT FORCE or ROLLBACK FORCE names.
ghost use Rattle.std.specs.Prelude.{◌≡◌, if◌then◌else◌, IfOk};
ghost use Rattle.std.specs.Str.{bytes_eq};
ghost use Rattle.tran_ids.specs.Texts.{local_text as local_text_of, global_text as global_text_of};
ghost use Rattle.force_cmds.specs.Named.{is_sealed as is_sealed_state, is_id_of, is_named_by as is_named, named, one_more};

use crate::IdNames;
use dtx_values::Name;
use redo_record::{KeptRow, State};
use std::alloc::{AllocError, Global};
use tran_ids::{BranchId, global_text, local_text};

/// The branch that an id of COMMIT FORCE or ROLLBACK FORCE names, where `names` are the names of all nodes: a branch that
/// is neither ended nor forced, whose printed local id it is, or whose transaction's global id. Fails where memory runs out.
pub fn find(
    alloc: Global,
    names: &[Name],
    kept: &[KeptRow],
    id: &[u8],
) -> Result<IdNames, AllocError>
    ensures { IfOk result (λ found. found ≡ named names.now kept.now id.now) }
{
    let mut found = IdNames::Nobody;
    for row in kept {
        let named = is_named_by(alloc, names, id, row)?;
        found = with_row(found, row.me, named);
    }
    Ok(found)
}

// With one more row, which is named or not.
fn with_row(found: IdNames, me: BranchId, named: bool) -> IdNames
    ensures { result ≡ (if named then one_more found me else found) }
{
    if named { with_one(found, me) } else { found }
}

// With one more that is named.
fn with_one(found: IdNames, me: BranchId) -> IdNames
    ensures { result ≡ one_more found me }
{
    match found {
        IdNames::Nobody => IdNames::One(me),
        IdNames::One(first) => IdNames::Several(first, me),
        IdNames::Several(_, _) => found,
    }
}

/// Whether a branch is neither ended nor forced.
pub(crate) fn is_sealed(state: State) -> bool
    ensures { result ≡ is_sealed_state state }
{
    matches!(state, State::Sealed)
}

/// Whether this text is the printed local id of a branch.
pub(crate) fn is_local(alloc: Global, me: &BranchId, id: &[u8]) -> Result<bool, AllocError>
    ensures { IfOk result (λ is. is ≡ bytes_eq (local_text_of me.now) id.now) }
{
    let text = local_text(alloc, me)?;
    Ok(text.as_slice() == id)
}

fn is_global(alloc: Global, names: &[Name], root: &BranchId, id: &[u8]) -> Result<bool, AllocError>
    ensures { IfOk result (λ is. is ≡ bytes_eq (global_text_of names.now root.now) id.now) }
{
    let text = global_text(alloc, names, root)?;
    Ok(text.as_slice() == id)
}

fn is_id(alloc: Global, names: &[Name], id: &[u8], row: &KeptRow) -> Result<bool, AllocError>
    ensures { IfOk result (λ is. is ≡ is_id_of names.now id.now row.now) }
{
    let local = is_local(alloc, &row.me, id)?;
    let global = is_global(alloc, names, &row.root, id)?;
    Ok(local || global)
}

fn is_named_by(alloc: Global, names: &[Name], id: &[u8], row: &KeptRow) -> Result<bool, AllocError>
    ensures { IfOk result (λ is. is ≡ is_named names.now id.now row.now) }
{
    let fits = is_id(alloc, names, id, row)?;
    Ok(is_sealed(row.state) && fits)
}
