//! Nodes, sessions, numbers and kinds of messages, as they are read in a command.
ghost use Rattle.std.specs.Prelude.{◌≡◌, ◌<◌, ◌≤◌, length, position, IfSome};
ghost use Rattle.std.specs.Str.{bytes_eq};
ghost use Rattle.dtx_values.specs.Limits.{node_limit};
ghost use Rattle.token_grammar.specs.Gives.{Gives};
ghost use Rattle.token_grammar.specs.Grammar.{meant};
ghost use Rattle.token_grammar.specs.Forms.{word_in};
ghost use Rattle.script_read.specs.Words.{kind_of};
ghost use Rattle.script_read.specs.Forms as spec;

use crate::meanings::kind_in;
use dtx_values::{Name, SESSION_LIMIT};
use std::alloc::Global;
use token_grammar::{ReadErr, Token, take_between, take_name, take_word};
use wire_msg::KindName;

/// Where a name stands among others.
fn place_of(names: &[Name], wanted: &Name) -> Option<usize>
    ensures place { result ≡ position (λ other. bytes_eq other wanted.now) names.now }
    ensures bound { IfSome result (λ place. place < length names.now) }
{
    names.iter().position(|other| other.is(wanted))
}

/// The number of the node with this name, from 1 on; 0 if there is none.
fn number_of(names: &[Name], wanted: &Name) -> u8
    requires { length names.now ≤ node_limit }
    ensures { result ≡ spec.number_of names.now wanted.now }
{
    match place_of(names, wanted) {
        Some(place) => (place + 1) as u8,
        None => 0,
    }
}

/// A name, as the number of its node.
pub(crate) fn take_node<'t>(
    alloc: Global,
    names: &[Name],
    tokens: &'t [Token],
) -> Result<(u8, &'t [Token]), ReadErr>
    requires { length names.now ≤ node_limit }
    ensures { Gives (λ x. (x.0, x.1.now)) result ((spec.node names.now).read tokens.now) }
{
    let (name, rest) = take_name(alloc, tokens)?;
    Ok((number_of(names, &name), rest))
}

/// `name name`, of two names that differ.
pub(crate) fn take_two_nodes<'t>(
    alloc: Global,
    names: &[Name],
    tokens: &'t [Token],
) -> Result<((u8, u8), &'t [Token]), ReadErr>
    requires { length names.now ≤ node_limit }
    ensures { Gives (λ x. (x.0, x.1.now)) result ((spec.two_nodes names.now).read tokens.now) }
{
    let (a, rest) = take_name(alloc, tokens)?;
    let (b, rest) = take_name(alloc, rest)?;
    if a.is(&b) {
        return Err(ReadErr::Bad);
    }
    Ok(((number_of(names, &a), number_of(names, &b)), rest))
}

/// `num`
pub(crate) fn take_number(tokens: &[Token]) -> Result<(u32, &[Token]), ReadErr>
    ensures { Gives (λ x. (x.0, x.1.now)) result (spec.number.read tokens.now) }
{
    take_between(tokens, 0, u32::MAX)
}

/// `num`, from 1 on
pub(crate) fn take_count(tokens: &[Token]) -> Result<(u32, &[Token]), ReadErr>
    ensures { Gives (λ x. (x.0, x.1.now)) result (spec.count.read tokens.now) }
{
    take_between(tokens, 1, u32::MAX)
}

/// `AT name SESSION num`
pub(crate) fn take_at_session<'t>(
    alloc: Global,
    names: &[Name],
    tokens: &'t [Token],
) -> Result<((u8, u32), &'t [Token]), ReadErr>
    requires { length names.now ≤ node_limit }
    ensures { Gives (λ x. (x.0, x.1.now)) result ((spec.at_session names.now).read tokens.now) }
{
    let rest = take_word(tokens, b"AT")?;
    let (node, rest) = take_node(alloc, names, rest)?;
    let rest = take_word(rest, b"SESSION")?;
    let (session, rest) = take_between(rest, 1, SESSION_LIMIT)?;
    Ok(((node, session), rest))
}

/// `kind`
pub(crate) fn take_kind(tokens: &[Token]) -> Result<(KindName, &[Token]), ReadErr>
    ensures { Gives (λ x. (x.0, x.1.now)) result ((meant (word_in kind_of)).read tokens.now) }
{
    match tokens {
        [first, rest @ ..] => match kind_in(first) {
            Some(kind) => Ok((kind, rest)),
            None => Err(ReadErr::Bad),
        },
        [] => Err(ReadErr::Bad),
    }
}
