//! The refusals of statements that find a key held, or no space.
ghost use Rattle.std.specs.Prelude.{◌≡◌, [], ◌∷◌, IfOk};
ghost use Rattle.tran_ids.specs.Numbers.{decimal};
ghost use Rattle.sql_check.specs.Refusals.{ora, dtx};
ghost use Rattle.stmt_run.specs.Run.{held_refusal};

use dtx_values::{Bytes, Listing, Refusal};
use std::alloc::{AllocError, Global};
use tran_ids::{BranchId, local_text, put_decimal};

/// The refusal that names the branch that holds a key, where one does.
pub fn held(
    alloc: Global,
    code: u16,
    holder: Option<BranchId>,
) -> Result<Option<Refusal>, AllocError>
    ensures { IfOk result (λ refusal. refusal ≡ held_refusal code holder) }
{
    match holder {
        None => Ok(None),
        Some(branch) => {
            let text = local_text(alloc, &branch)?;
            let args = Listing::of(vec![in alloc; text]?);
            Ok(Some(Refusal { code, args }))
        }
    }
}

/// DTX-16: the branch's changes take too many bytes.
pub fn too_many_changes(alloc: Global) -> Refusal
    ensures { result ≡ dtx 16 [] }
{
    Refusal {
        code: 60016,
        args: Listing::new(alloc),
    }
}

/// ORA-30036: so many extents are needed, and so many are free.
pub fn no_extents(alloc: Global, needed: u64, free: u64) -> Result<Refusal, AllocError>
    ensures { IfOk result (λ refusal. refusal ≡ ora 30036 (decimal needed ∷ decimal free ∷ [])) }
{
    let needed = number_text(alloc, needed)?;
    let free = number_text(alloc, free)?;
    Ok(Refusal {
        code: 30036,
        args: Listing::of(vec![in alloc; needed, free]?),
    })
}

fn number_text(alloc: Global, number: u64) -> Result<Bytes, AllocError>
    ensures { IfOk result (λ text. text ≡ decimal number) }
{
    let mut text = Vec::new(alloc);
    put_decimal(&mut text, number)?;
    Ok(Listing::of(text))
}
