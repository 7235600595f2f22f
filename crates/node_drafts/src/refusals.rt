//! Refusals whose texts name something.
ghost use Rattle.std.specs.Prelude.{◌≡◌, [], ◌∷◌, IfOk};
ghost use Rattle.tran_ids.specs.Numbers.{decimal};
ghost use Rattle.tran_ids.specs.Texts.{local_text as local_text_of};
ghost use Rattle.sql_check.specs.Refusals.{ora, dtx};
ghost use Rattle.sql_check.specs.Words.{one};

use crate::codes::{
    BRANCH_GONE, IS_READ_ONLY, NO_ANSWER, NO_ROW, NO_SAVEPOINT, NOT_IN_DOUBT, ONLY_ROLLBACK,
    SEVERAL_IN_DOUBT,
};
use dtx_values::{Bytes, Listing, Refusal};
use std::alloc::{AllocError, Global};
use tran_ids::{BranchId, local_text, put_decimal};

fn text_of(alloc: Global, bytes: &[u8]) -> Result<Bytes, AllocError>
    ensures { IfOk result (λ text. text ≡ bytes.now) }
{
    Ok(Listing::of(Vec::from_slice(alloc, bytes)?))
}

fn number_text(alloc: Global, number: u16) -> Result<Bytes, AllocError>
    ensures { IfOk result (λ text. text ≡ decimal number) }
{
    let mut text = Vec::new(alloc);
    put_decimal(&mut text, u64::from(number))?;
    Ok(Listing::of(text))
}

// A refusal that names one thing.
fn of_text(alloc: Global, code: u16, text: Bytes) -> Result<Refusal, AllocError>
    ensures { IfOk result (λ refusal. refusal ≡ ora code (one text)) }
{
    Ok(Refusal {
        code,
        args: Listing::of(vec![in alloc; text]?),
    })
}

/// A refusal that names a branch by its local id.
pub(crate) fn of_branch(alloc: Global, code: u16, branch: BranchId) -> Result<Refusal, AllocError>
    ensures { IfOk result (λ refusal. refusal ≡ ora code (one (local_text_of branch))) }
{
    of_text(alloc, code, local_text(alloc, &branch)?)
}

/// ORA-02067: the transaction can only be rolled back, after an answer of this code.
pub fn needs_rollback(alloc: Global, code: u16) -> Result<Refusal, AllocError>
    ensures { IfOk result (λ refusal. refusal ≡ ora 2067 (one (decimal code))) }
{
    of_text(alloc, ONLY_ROLLBACK, number_text(alloc, code)?)
}

/// ORA-02058: no branch in doubt has this id.
pub(crate) fn no_branch(alloc: Global, id: &[u8]) -> Result<Refusal, AllocError>
    ensures { IfOk result (λ refusal. refusal ≡ ora 2058 (one id.now)) }
{
    of_text(alloc, NOT_IN_DOUBT, text_of(alloc, id)?)
}

/// DTX-07: this id is that of several branches in doubt, these first.
pub(crate) fn several_branches(
    alloc: Global,
    id: &[u8],
    first: BranchId,
    second: BranchId,
) -> Result<Refusal, AllocError>
    ensures { IfOk result (λ refusal. refusal ≡ dtx 7 (id.now ∷ local_text_of first ∷ local_text_of second ∷ [])) }
{
    let id = text_of(alloc, id)?;
    let first = local_text(alloc, &first)?;
    let second = local_text(alloc, &second)?;
    Ok(Refusal {
        code: SEVERAL_IN_DOUBT,
        args: Listing::of(vec![in alloc; id, first, second]?),
    })
}

/// DTX-06: no row that may be purged has this id.
pub fn nothing_to_purge(alloc: Global, id: &[u8]) -> Result<Refusal, AllocError>
    ensures { IfOk result (λ refusal. refusal ≡ dtx 6 (one id.now)) }
{
    of_text(alloc, NO_ROW, text_of(alloc, id)?)
}

/// DTX-03: no answer came over this link.
pub(crate) fn unanswered(alloc: Global, link: &[u8]) -> Result<Refusal, AllocError>
    ensures { IfOk result (λ refusal. refusal ≡ dtx 3 (one link.now)) }
{
    of_text(alloc, NO_ANSWER, text_of(alloc, link)?)
}

/// DTX-08: the branch that a call came to is gone.
pub(crate) fn gone(alloc: Global) -> Refusal
    ensures { result ≡ dtx 8 [] }
{
    Refusal {
        code: BRANCH_GONE,
        args: Listing::new(alloc),
    }
}

/// DTX-08: the branch behind this link is gone.
pub(crate) fn gone_behind(alloc: Global, link: &[u8]) -> Result<Refusal, AllocError>
    ensures { IfOk result (λ refusal. refusal ≡ dtx 8 (one link.now)) }
{
    of_text(alloc, BRANCH_GONE, text_of(alloc, link)?)
}

/// DTX-21: the transaction is READ ONLY.
pub fn is_read_only(alloc: Global) -> Refusal
    ensures { result ≡ dtx 21 [] }
{
    Refusal {
        code: IS_READ_ONLY,
        args: Listing::new(alloc),
    }
}

/// DTX-22: the transaction has no savepoint of this name.
pub fn no_savepoint(alloc: Global, name: &[u8]) -> Result<Refusal, AllocError>
    ensures { IfOk result (λ refusal. refusal ≡ dtx 22 (one name.now)) }
{
    of_text(alloc, NO_SAVEPOINT, text_of(alloc, name)?)
}
