//! The words in which the world answers a command: ok, lines that are shown, or a refusal.
ghost use Rattle.std.specs.Prelude.{◌≡◌, ◌≤◌, ◌-◌, ◌∷◌, [], IfOk};
ghost use Rattle.sql_check.specs.Refusals.{dtx};
ghost use Rattle.sql_check.specs.Words.{one as one_of};
ghost use Rattle.dtx_values.specs.declared.answer.Notice.TheVariants as notices;
ghost use Rattle.book.specs.declared.line.Said.TheVariants as saids;
ghost use Rattle.run_rules.specs.Commands.{if_may as if_may_by};
ghost use Rattle.run_rules.specs.Lines.{fine as fine_by, refuses_with};

use book::Said;
use dtx_values::{Bytes, Listing, Notice, Refusal, Texts};
use std::alloc::{AllocError, Global};
use tran_ids::put_decimal;

/// The code of DTX-11.
const NO_MESSAGE: u16 = 60_011;

/// What a command says.
pub type Says = Listing<Said>;

fn one(alloc: Global, said: Said) -> Result<Says, AllocError>
    ensures { IfOk result (λ says. says ≡ said ∷ []) }
{
    Ok(Listing::of(vec![in alloc; said]?))
}

/// ok. Fails where memory runs out.
pub fn fine(alloc: Global) -> Result<Says, AllocError>
    ensures { IfOk result (λ says. says ≡ fine_by) }
{
    one(alloc, Said::World(Notice::Fine))
}

/// These lines. Fails where memory runs out.
pub fn shows(alloc: Global, lines: Texts) -> Result<Says, AllocError>
    ensures { IfOk result (λ says. says ≡ saids.World (notices.Shown lines) ∷ []) }
{
    one(alloc, Said::World(Notice::Shown(lines)))
}

/// A refusal of this code, with nothing to name. Fails where memory runs out.
pub fn refused(alloc: Global, code: u16) -> Result<Says, AllocError>
    requires { 60000 ≤ code }
    ensures { IfOk result (λ says. says ≡ refuses_with (dtx (code - 60000) []) ∷ []) }
{
    let args = Listing::new(alloc);
    one(alloc, Said::World(Notice::Refused(Refusal { code, args })))
}

/// A refusal of this code that names this. Fails where memory runs out.
pub fn refused_with(alloc: Global, code: u16, text: Bytes) -> Result<Says, AllocError>
    requires { 60000 ≤ code }
    ensures { IfOk result (λ says. says ≡ refuses_with (dtx (code - 60000) (one_of text)) ∷ []) }
{
    let args = Listing::of(vec![in alloc; text]?);
    one(alloc, Said::World(Notice::Refused(Refusal { code, args })))
}

/// ok, or DTX-11 where the message may not come. Fails where memory runs out.
pub fn if_may(alloc: Global, may: bool, k: u32) -> Result<Says, AllocError>
    ensures { IfOk result (λ says. says ≡ if_may_by may k) }
{
    if may {
        fine(alloc)
    } else {
        let mut text = Vec::new(alloc);
        put_decimal(&mut text, u64::from(k))?;
        refused_with(alloc, NO_MESSAGE, Listing::of(text))
    }
}
