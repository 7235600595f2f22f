//! A command among those before it: what it is, or why it is bad.
ghost use Rattle.std.specs.Prelude.{◌≡◌, ◌+◌, ◌<◌, ◌≤◌, ◌++◌, length, position, take, drop, Option, Some, None, IfOk, OnErr, OnOk};
ghost use Rattle.std.specs.List.{list_all, list_any};
ghost use Rattle.std.specs.Str.{bytes_eq};
ghost use Rattle.dtx_values.specs.Limits.{node_limit};
ghost use Rattle.token_grammar.specs.Gives.{Gives};
ghost use Rattle.token_grammar.specs.Text.{value_in};
ghost use Rattle.sql_parse.specs.Statement as sql;
ghost use Rattle.script_read.specs.Parts as parts;
ghost use Rattle.script_read.specs.Forms as forms;
ghost use Rattle.script_read.specs.Asked as spec;

use crate::before::Before;
use crate::command::Command;
use crate::cut::{is_clean, said};
use crate::forms::take_other;
use crate::nodes::take_at_session;
use crate::why::Why;
use dtx_values::{Duplicate, NODE_LIMIT, Name};
use sql_parse::{ParseErr, parse};
use sql_statement::Stmt;
use std::alloc::{AllocError, Global};
use token_grammar::{ReadErr, has_first_word, tokens_of, whole};

/// The statement that a text is, or nothing where the text is outside the grammar.
fn statement_of(alloc: Global, text: &[u8]) -> Result<Option<Stmt>, ReadErr>
    ensures { Gives (λ statement. statement) result (Some (sql.statement_of text.now)) }
{
    match parse(alloc, text) {
        Ok(statement) => Ok(Some(statement)),
        Err(ParseErr::BadSql) => Ok(None),
        Err(ParseErr::NoMemory) => Err(ReadErr::NoMemory),
    }
}

/// The node and the session of a call, whose text follows them.
fn session_of(alloc: Global, names: &[Name], head: &[u8]) -> Result<(u8, u32), ReadErr>
    requires { length names.now ≤ node_limit }
    ensures { Gives (λ x. x) result (value_in (forms.at_session names.now) head.now) }
{
    let tokens = tokens_of(alloc, head)?;
    let (asked, rest) = take_at_session(alloc, names, tokens.as_slice())?;
    whole(asked, rest)
}

#[tactic(auto, unfolding(crate::specs::Asked::call_of))]
fn call_of(alloc: Global, names: &[Name], head: &[u8], text: &[u8]) -> Result<Command, ReadErr>
    requires { length names.now ≤ node_limit }
    ensures { Gives (λ command. command) result (spec.call_of names.now head.now text.now) }
{
    let (node, session) = session_of(alloc, names, head)?;
    let statement = statement_of(alloc, text)?;
    Ok(Command::At {
        node,
        session,
        statement,
    })
}

fn other_of(alloc: Global, names: &[Name], text: &[u8]) -> Result<Command, ReadErr>
    requires { length names.now ≤ node_limit }
    ensures { Gives (λ command. command) result (value_in (forms.other_command names.now) text.now) }
{
    let tokens = tokens_of(alloc, text)?;
    let (command, rest) = take_other(alloc, names, tokens.as_slice())?;
    whole(command, rest)
}

/// Where the first colon stands.
fn colon_at(text: &[u8]) -> Option<usize>
    ensures { result ≡ position spec.is_colon text.now }
{
    text.iter().position(|byte| *byte == b':')
}

/// What stands before a place and after it.
fn around(text: &[u8], place: usize) -> (&[u8], &[u8])
    requires { place < length text.now }
    ensures before { result.0.now ≡ take place text.now }
    ensures behind { result.1.now ≡ drop (place + 1) text.now }
{
    (&text[..place], &text[place + 1..])
}

/// The command that is said: a call where there is a colon, else one of another form.
#[tactic(auto, unfolding(crate::specs::Asked::command_of))]
fn command_of(alloc: Global, names: &[Name], text: &[u8]) -> Result<Command, ReadErr>
    requires { length names.now ≤ node_limit }
    ensures { Gives (λ command. command) result (spec.command_of names.now text.now) }
{
    match colon_at(text) {
        Some(place) => {
            let (head, behind) = around(text, place);
            call_of(alloc, names, head, behind)
        }
        None => other_of(alloc, names, text),
    }
}

fn is_node(command: &Command) -> bool
    ensures { result ≡ spec.is_node command.now }
{
    matches!(command, Command::Node { .. })
}

/// Whether all nodes are there that a command names.
fn knows_all(command: &Command) -> bool
    ensures { result ≡ list_all spec.is_known (spec.nodes_in command.now) }
{
    match command {
        Command::At { node, .. } => *node != 0,
        Command::Cut { a, b } => *a != 0 && *b != 0,
        Command::Join { a, b } => *a != 0 && *b != 0,
        Command::LoseNext { from, to, .. } => *from != 0 && *to != 0,
        Command::Stop { node } => *node != 0,
        Command::Start { node } => *node != 0,
        Command::Crash { node, .. } => *node != 0,
        Command::Fault { node, .. } => *node != 0,
        Command::GiveUp { node, .. } => *node != 0,
        Command::Reco { node } => *node != 0,
        Command::ShowPending { node } => *node != 0,
        Command::ShowNeighbors { node } => *node != 0,
        Command::ShowDisk { node } => *node != 0,
        Command::ShowUndo { node } => *node != 0,
        _ => true,
    }
}

fn is_taken(names: &[Name], made: &Name) -> bool
    ensures { result ≡ list_any (λ other. bytes_eq other made.now) names.now }
{
    names.iter().any(|other| other.is(made))
}

/// Why a NODE command is bad that is in the grammar.
fn naming_trouble(names: &[Name], made: &Name) -> Option<Why>
    ensures { result ≡ spec.naming_trouble names.now made.now }
{
    if is_taken(names, made) {
        return Some(Why::Twice);
    }
    if names.len() == NODE_LIMIT {
        return Some(Why::Many);
    }
    None
}

/// Why a command is bad that is in the grammar.
fn trouble_of(names: &[Name], command: &Command) -> Option<Why>
    ensures { result ≡ spec.trouble_of names.now command.now }
{
    match command {
        Command::Node { name, .. } => naming_trouble(names, name),
        other => {
            if knows_all(other) {
                None
            } else {
                Some(Why::Unknown)
            }
        }
    }
}

/// A command that is in the grammar, or why it is bad.
fn accepted(names: &[Name], command: Command) -> Result<Command, Why>
    ensures { result ≡ spec.accepted names.now command }
{
    match trouble_of(names, &command) {
        Some(why) => Err(why),
        None => Ok(command),
    }
}

/// Why a command is bad that was not read: it has none of the forms. Fails exactly where memory ran out for it.
fn unread(err: ReadErr) -> Result<Why, AllocError>
    ensures form { IfOk result (λ why. (why ≡ Why.Form) × (err ≡ ReadErr.Bad)) }
    ensures memory { OnErr result (err ≡ ReadErr.NoMemory) }
{
    match err {
        ReadErr::Bad => Ok(Why::Form),
        ReadErr::NoMemory => Err(AllocError),
    }
}

/// A command that `;` ends: itself, or the first reason for which it is bad.
#[tactic(auto, unfolding(crate::specs::Asked::judged))]
pub(crate) fn judged(
    alloc: Global,
    before: &Before,
    piece: &[u8],
) -> Result<Result<Command, Why>, AllocError>
    requires { length before.now.names ≤ node_limit }
    ensures { IfOk result (λ judgement. judgement ≡ spec.judged before.now piece.now) }
{
    if !is_clean(piece) {
        return Ok(Err(Why::Byte));
    }
    let text = said(alloc, piece)?;
    if before.others && has_first_word(&text, b"NODE") {
        return Ok(Err(Why::LateNode));
    }
    let names = before.names.as_slice();
    match command_of(alloc, names, &text) {
        Ok(command) => Ok(accepted(names, command)),
        Err(err) => Ok(Err(unread(err)?)),
    }
}

impl Before {
    /// This command has come too.
    pub(crate) fn take_in(&mut self, alloc: Global, command: &Command) -> Result<(), AllocError>
        ensures { OnOk result (self.new ≡ spec.with_command self.old command.now) }
    {
        if let Command::Node { name, .. } = command {
            let name = name.copy(alloc)?;
            self.names.push(name)?;
        }
        self.others = self.others || !is_node(command);
        Ok(())
    }
}
