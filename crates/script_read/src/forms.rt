//! The forms of a command, as they are read: what follows the first word of each.
ghost use Rattle.std.specs.Prelude.{◌≡◌, ◌≤◌, length, codes};
ghost use Rattle.dtx_values.specs.Limits.{node_limit};
ghost use Rattle.token_grammar.specs.Gives.{Gives};
ghost use Rattle.token_grammar.specs.Grammar.{meant, word, optional, ◌·◌, ◌▹◌};
ghost use Rattle.token_grammar.specs.Forms.{forms, built, word_in};
ghost use Rattle.script_read.specs.declared.command.Command.TheVariants as commands;
ghost use Rattle.script_read.specs.declared.words.Lost.TheVariants as lost;
ghost use Rattle.script_read.specs.Words as words;
ghost use Rattle.script_read.specs.Forms as spec;

use crate::command::{Command, How};
use crate::hex::take_hex;
use crate::meanings::{left_in, lost_in, switch_in, verb_in, view_in};
use crate::nodes::{
    take_at_session, take_count, take_kind, take_node, take_number, take_two_nodes,
};
use crate::settings::{take_settings, with_settings};
use crate::words::{Left, Lost, Settings, Verb, View};
use dtx_values::Name;
use std::alloc::Global;
use token_grammar::{ReadErr, Token, take_name, take_word};

/// `name {STRENGTH num | LINKS num | UNDO num}`
fn take_made(alloc: Global, tokens: &[Token]) -> Result<(Command, &[Token]), ReadErr>
    ensures { Gives (λ x. (x.0, x.1.now)) result (spec.node_form.read tokens.now) }
{
    let (name, rest) = take_name(alloc, tokens)?;
    let (settings, rest) = take_settings(alloc, rest)?;
    let Settings {
        strength,
        links,
        undo,
    } = with_settings(&settings);
    let node = Command::Node {
        name,
        strength,
        links,
        undo,
    };
    Ok((node, rest))
}

/// `kind FROM name TO name`
fn take_lose_next<'t>(
    alloc: Global,
    names: &[Name],
    tokens: &'t [Token],
) -> Result<(Command, &'t [Token]), ReadErr>
    requires { length names.now ≤ node_limit }
    ensures { Gives (λ x. (x.0, x.1.now)) result ((spec.lost_form names.now lost.Next).read tokens.now) }
{
    let (kind, rest) = take_kind(tokens)?;
    let rest = take_word(rest, b"FROM")?;
    let (from, rest) = take_node(alloc, names, rest)?;
    let rest = take_word(rest, b"TO")?;
    let (to, rest) = take_node(alloc, names, rest)?;
    Ok((Command::LoseNext { kind, from, to }, rest))
}

/// `num`, or `NEXT` and what follows it
fn take_lose<'t>(
    alloc: Global,
    names: &[Name],
    tokens: &'t [Token],
) -> Result<(Command, &'t [Token]), ReadErr>
    requires { length names.now ≤ node_limit }
    ensures { Gives (λ x. (x.0, x.1.now)) result ((forms words.lost_in (spec.lost_form names.now)).read tokens.now) }
{
    match tokens {
        [first, rest @ ..] => match lost_in(first) {
            Some(Lost::Number(k)) => Ok((Command::Lose { k }, rest)),
            Some(Lost::Next) => take_lose_next(alloc, names, rest),
            None => Err(ReadErr::Bad),
        },
        [] => Err(ReadErr::Bad),
    }
}

fn take_keep(tokens: &[Token]) -> Result<(How, &[Token]), ReadErr>
    ensures { Gives (λ x. (x.0, x.1.now)) result ((spec.left_form Left.Keep).read tokens.now) }
{
    let (bytes, rest) = take_number(tokens)?;
    Ok((How::Keep(bytes), rest))
}

fn take_leave(alloc: Global, tokens: &[Token]) -> Result<(How, &[Token]), ReadErr>
    ensures { Gives (λ x. (x.0, x.1.now)) result ((spec.left_form Left.Leave).read tokens.now) }
{
    let (bytes, rest) = take_hex(alloc, tokens)?;
    Ok((How::Leave(bytes), rest))
}

/// `KEEP num`, or `LEAVE 'hex'`
fn take_left(alloc: Global, tokens: &[Token]) -> Result<(How, &[Token]), ReadErr>
    ensures { Gives (λ x. (x.0, x.1.now)) result ((forms (word_in words.left_of) spec.left_form).read tokens.now) }
{
    match tokens {
        [first, rest @ ..] => match left_in(first) {
            Some(Left::Keep) => take_keep(rest),
            Some(Left::Leave) => take_leave(alloc, rest),
            None => Err(ReadErr::Bad),
        },
        [] => Err(ReadErr::Bad),
    }
}

/// `name WRITE num`, and what is left on the disk
fn take_crash<'t>(
    alloc: Global,
    names: &[Name],
    tokens: &'t [Token],
) -> Result<(Command, &'t [Token]), ReadErr>
    requires { length names.now ≤ node_limit }
    ensures { Gives (λ x. (x.0, x.1.now)) result ((spec.crash_form names.now).read tokens.now) }
{
    let (node, rest) = take_node(alloc, names, tokens)?;
    let rest = take_word(rest, b"WRITE")?;
    let (write, rest) = take_count(rest)?;
    let (how, rest) = take_left(alloc, rest)?;
    Ok((Command::Crash { node, write, how }, rest))
}

/// `name CALL num`
fn take_fault<'t>(
    alloc: Global,
    names: &[Name],
    tokens: &'t [Token],
) -> Result<(Command, &'t [Token]), ReadErr>
    requires { length names.now ≤ node_limit }
    ensures { Gives (λ x. (x.0, x.1.now)) result ((built (λ x. commands.Fault x.0 x.1) (spec.node names.now · (word (codes "CALL") ▹ spec.count))).read tokens.now) }
{
    let (node, rest) = take_node(alloc, names, tokens)?;
    let rest = take_word(rest, b"CALL")?;
    let (call, rest) = take_count(rest)?;
    Ok((Command::Fault { node, call }, rest))
}

/// `ON` or `OFF`
fn take_hold(tokens: &[Token]) -> Result<(Command, &[Token]), ReadErr>
    ensures { Gives (λ x. (x.0, x.1.now)) result ((built commands.Hold (meant (word_in words.switch_of))).read tokens.now) }
{
    match tokens {
        [first, rest @ ..] => match switch_in(first) {
            Some(on) => Ok((Command::Hold { on }, rest)),
            None => Err(ReadErr::Bad),
        },
        [] => Err(ReadErr::Bad),
    }
}

/// `[num]`
fn take_pump(tokens: &[Token]) -> Result<(Command, &[Token]), ReadErr>
    ensures { Gives (λ x. (x.0, x.1.now)) result ((built commands.Pump (optional spec.is_number spec.number)).read tokens.now) }
{
    match tokens {
        [Token::Number(_), ..] => {
            let (most, rest) = take_number(tokens)?;
            Ok((Command::Pump { most: Some(most) }, rest))
        }
        _ => Ok((Command::Pump { most: None }, tokens)),
    }
}

/// What a SHOW asks for.
fn take_view<'t>(
    alloc: Global,
    names: &[Name],
    view: View,
    tokens: &'t [Token],
) -> Result<(Command, &'t [Token]), ReadErr>
    requires { length names.now ≤ node_limit }
    ensures { Gives (λ x. (x.0, x.1.now)) result ((spec.view_form names.now view).read tokens.now) }
{
    match view {
        View::Pending => {
            let (node, rest) = take_node(alloc, names, tokens)?;
            Ok((Command::ShowPending { node }, rest))
        }
        View::Neighbors => {
            let (node, rest) = take_node(alloc, names, tokens)?;
            Ok((Command::ShowNeighbors { node }, rest))
        }
        View::Book => Ok((Command::ShowBook, tokens)),
        View::Net => Ok((Command::ShowNet, tokens)),
        View::Disk => {
            let (node, rest) = take_node(alloc, names, tokens)?;
            Ok((Command::ShowDisk { node }, rest))
        }
        View::Undo => {
            let (node, rest) = take_node(alloc, names, tokens)?;
            Ok((Command::ShowUndo { node }, rest))
        }
    }
}

fn take_show<'t>(
    alloc: Global,
    names: &[Name],
    tokens: &'t [Token],
) -> Result<(Command, &'t [Token]), ReadErr>
    requires { length names.now ≤ node_limit }
    ensures { Gives (λ x. (x.0, x.1.now)) result ((forms (word_in words.view_of) (spec.view_form names.now)).read tokens.now) }
{
    match tokens {
        [first, rest @ ..] => match view_in(first) {
            Some(view) => take_view(alloc, names, view, rest),
            None => Err(ReadErr::Bad),
        },
        [] => Err(ReadErr::Bad),
    }
}

/// `name name`
fn take_cut<'t>(
    alloc: Global,
    names: &[Name],
    tokens: &'t [Token],
) -> Result<(Command, &'t [Token]), ReadErr>
    requires { length names.now ≤ node_limit }
    ensures { Gives (λ x. (x.0, x.1.now)) result ((built (λ x. commands.Cut x.0 x.1) (spec.two_nodes names.now)).read tokens.now) }
{
    let ((a, b), rest) = take_two_nodes(alloc, names, tokens)?;
    Ok((Command::Cut { a, b }, rest))
}

/// `name name`
fn take_join<'t>(
    alloc: Global,
    names: &[Name],
    tokens: &'t [Token],
) -> Result<(Command, &'t [Token]), ReadErr>
    requires { length names.now ≤ node_limit }
    ensures { Gives (λ x. (x.0, x.1.now)) result ((built (λ x. commands.Join x.0 x.1) (spec.two_nodes names.now)).read tokens.now) }
{
    let ((a, b), rest) = take_two_nodes(alloc, names, tokens)?;
    Ok((Command::Join { a, b }, rest))
}

/// `name`
fn take_stop<'t>(
    alloc: Global,
    names: &[Name],
    tokens: &'t [Token],
) -> Result<(Command, &'t [Token]), ReadErr>
    requires { length names.now ≤ node_limit }
    ensures { Gives (λ x. (x.0, x.1.now)) result ((built commands.Stop (spec.node names.now)).read tokens.now) }
{
    let (node, rest) = take_node(alloc, names, tokens)?;
    Ok((Command::Stop { node }, rest))
}

/// `name`
fn take_start<'t>(
    alloc: Global,
    names: &[Name],
    tokens: &'t [Token],
) -> Result<(Command, &'t [Token]), ReadErr>
    requires { length names.now ≤ node_limit }
    ensures { Gives (λ x. (x.0, x.1.now)) result ((built commands.Start (spec.node names.now)).read tokens.now) }
{
    let (node, rest) = take_node(alloc, names, tokens)?;
    Ok((Command::Start { node }, rest))
}

/// `name`
fn take_reco<'t>(
    alloc: Global,
    names: &[Name],
    tokens: &'t [Token],
) -> Result<(Command, &'t [Token]), ReadErr>
    requires { length names.now ≤ node_limit }
    ensures { Gives (λ x. (x.0, x.1.now)) result ((built commands.Reco (spec.node names.now)).read tokens.now) }
{
    let (node, rest) = take_node(alloc, names, tokens)?;
    Ok((Command::Reco { node }, rest))
}

/// `AT name SESSION num`
fn take_give_up<'t>(
    alloc: Global,
    names: &[Name],
    tokens: &'t [Token],
) -> Result<(Command, &'t [Token]), ReadErr>
    requires { length names.now ≤ node_limit }
    ensures { Gives (λ x. (x.0, x.1.now)) result ((built (λ x. commands.GiveUp x.0 x.1) (spec.at_session names.now)).read tokens.now) }
{
    let ((node, session), rest) = take_at_session(alloc, names, tokens)?;
    Ok((Command::GiveUp { node, session }, rest))
}

/// `num`
fn take_deliver(tokens: &[Token]) -> Result<(Command, &[Token]), ReadErr>
    ensures { Gives (λ x. (x.0, x.1.now)) result ((built commands.Deliver spec.number).read tokens.now) }
{
    let (k, rest) = take_number(tokens)?;
    Ok((Command::Deliver { k }, rest))
}

/// `num`
fn take_again(tokens: &[Token]) -> Result<(Command, &[Token]), ReadErr>
    ensures { Gives (λ x. (x.0, x.1.now)) result ((built commands.Again spec.number).read tokens.now) }
{
    let (k, rest) = take_number(tokens)?;
    Ok((Command::Again { k }, rest))
}

/// What follows the first word of a command.
#[tactic(auto, unfolding(crate::specs::Forms::form))]
fn take_form<'t>(
    alloc: Global,
    names: &[Name],
    verb: Verb,
    tokens: &'t [Token],
) -> Result<(Command, &'t [Token]), ReadErr>
    requires { length names.now ≤ node_limit }
    ensures { Gives (λ x. (x.0, x.1.now)) result ((spec.form names.now verb).read tokens.now) }
{
    match verb {
        Verb::Node => take_made(alloc, tokens),
        Verb::Cut => take_cut(alloc, names, tokens),
        Verb::Join => take_join(alloc, names, tokens),
        Verb::Lose => take_lose(alloc, names, tokens),
        Verb::Stop => take_stop(alloc, names, tokens),
        Verb::Start => take_start(alloc, names, tokens),
        Verb::Crash => take_crash(alloc, names, tokens),
        Verb::Fault => take_fault(alloc, names, tokens),
        Verb::Hold => take_hold(tokens),
        Verb::Deliver => take_deliver(tokens),
        Verb::Again => take_again(tokens),
        Verb::Pump => take_pump(tokens),
        Verb::GiveUp => take_give_up(alloc, names, tokens),
        Verb::Reco => take_reco(alloc, names, tokens),
        Verb::Show => take_show(alloc, names, tokens),
    }
}

/// A command that is no call of a client.
pub(crate) fn take_other<'t>(
    alloc: Global,
    names: &[Name],
    tokens: &'t [Token],
) -> Result<(Command, &'t [Token]), ReadErr>
    requires { length names.now ≤ node_limit }
    ensures { Gives (λ x. (x.0, x.1.now)) result ((spec.other_command names.now).read tokens.now) }
{
    match tokens {
        [first, rest @ ..] => match verb_in(first) {
            Some(verb) => take_form(alloc, names, verb, rest),
            None => Err(ReadErr::Bad),
        },
        [] => Err(ReadErr::Bad),
    }
}
