//! Whole texts, by any grammar that is exact.
ghost use Rattle.std.specs.Prelude.{◌≡◌, ℕ, List, IfOk, IsErrOf};
ghost use Rattle.token_grammar.specs.Gives.{Gives};
ghost use Rattle.token_grammar.specs.Grammar.{anything};
ghost use Rattle.token_grammar.specs.Exact.{IsExact};
ghost use Rattle.token_grammar.specs.Text.{IsTextOf, value_in};

use crate::{Part, ReadErr, tokens_of, whole};
use std::alloc::Global;

fn value_in<P: Part>(alloc: Global, text: &[u8]) -> Result<P::Item, ReadErr>
    ensures { Gives (λ value. value) result (value_in P.grammar text.now) }
{
    let tokens = tokens_of(alloc, text)?;
    let (value, rest) = P::take(alloc, tokens.as_slice())?;
    whole(value, rest)
}

/// The value that a text spells, all of it. Fails with Bad where it spells none, and with NoMemory where memory runs out.
pub fn read_text<P: Part>(alloc: Global, text: &[u8]) -> Result<P::Item, ReadErr>
    requires { IsExact P.grammar anything }
    // The text spells what is returned.
    ensures found { IfOk result (λ value. IsTextOf P.grammar value text.now) }
    // What is refused spells no value.
    ensures bad { IsErrOf result ReadErr.Bad → (value : P.Item) → IsTextOf P.grammar value text.now → ⊥ }
{
    value_in::<P>(alloc, text)
}

/// No text spells two values. This function does nothing: its contract is the theorem.
pub fn one_reading<P: Part>()
    requires { IsExact P.grammar anything }
    ensures { (text : List ℕ) (a b : P.Item) → IsTextOf P.grammar a text → IsTextOf P.grammar b text → a ≡ b }
{}
