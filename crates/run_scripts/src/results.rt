//! The results of jobs: the exit status and what was printed. `specs/Results.antt` says their form.
ghost use Rattle.std.specs.Prelude.{◌≡◌, IfOk};
ghost use Rattle.run_scripts.specs.Results.{result_text as text_of_result};

use std::alloc::{AllocError, Global};
use tran_ids::put_decimal;

/// The result of a run that ended with this status and printed this. Fails where memory runs out.
pub fn result_text(alloc: Global, status: u8, output: &[u8]) -> Result<Vec<u8>, AllocError>
    ensures { IfOk result (λ text. text.items ≡ text_of_result status output.now) }
{
    let mut text = Vec::new(alloc);
    put_decimal(&mut text, u64::from(status))?;
    text.extend_from_slice(b" ")?;
    put_decimal(&mut text, output.len() as u64)?;
    text.extend_from_slice(b"\n")?;
    text.extend_from_slice(output)?;
    Ok(text)
}
