//! Lists between brackets.
ghost use Rattle.std.specs.Prelude.{◌≡◌};
ghost use Rattle.token_grammar.specs.Gives.{Gives};
ghost use Rattle.token_grammar.specs.Grammar as spec;
ghost use Rattle.token_grammar.specs.Grammar.{identifier};
ghost use Rattle.sql_parse.specs.Parts.{in_brackets};

use dtx_values::Name;
use std::alloc::Global;
use token_grammar::{Mark, Part, ReadErr, Token, commas, take_identifier, take_mark};

/// The name of a column.
pub(crate) struct ColumnName;

impl Part for ColumnName {
    type Item = Name;

    ghost grammar = { identifier };

    fn take(alloc: Global, tokens: &[Token]) -> Result<(Name, &[Token]), ReadErr> {
        take_identifier(alloc, tokens)
    }
}

/// One item or more between brackets, with commas between them. Fails where no such list is next, and where memory runs out.
pub(crate) fn bracketed<P: Part>(
    alloc: Global,
    tokens: &[Token],
) -> Result<(Vec<P::Item>, &[Token]), ReadErr>
    ensures { Gives (λ x. (x.0.items, x.1.now)) result ((in_brackets (spec.commas P.grammar)).read tokens.now) }
{
    let rest = take_mark(tokens, Mark::Open)?;
    let (items, rest) = commas::<P>(alloc, rest)?;
    let rest = take_mark(rest, Mark::Close)?;
    Ok((items, rest))
}
