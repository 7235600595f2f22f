//! The texts of commands.
ghost use Rattle.std.specs.Prelude.{◌≡◌, ◌++◌, codes, OnOk};
ghost use Rattle.wire_msg.specs.Names.{kind_text};
ghost use Rattle.chart_captions.specs.Commands.{statement_text, of_node, of_pair, counted, how_text, hold_text, pump_text, node_text, net_text, command_text};

use dtx_values::Name;
use script_read::{Command, How};
use sql_print::print_stmt;
use sql_statement::Stmt;
use std::alloc::{AllocError, Global};
use tran_ids::{node_name, put_decimal};
use wire_msg::KindName;

fn put_stmt(out: &mut Vec<u8>, alloc: Global, statement: &Option<Stmt>) -> Result<(), AllocError>
    ensures { OnOk result (out.new.items ≡ out.old.items ++ statement_text statement.now) }
{
    match statement {
        None => out.extend_from_slice(b"(not a statement)"),
        Some(statement) => {
            let text = print_stmt(alloc, statement)?;
            out.extend_from_slice(text.as_slice())
        }
    }
}

fn put_node(out: &mut Vec<u8>, names: &[Name], words: &[u8], node: u8) -> Result<(), AllocError>
    ensures { OnOk result (out.new.items ≡ out.old.items ++ of_node names.now words.now node) }
{
    out.extend_from_slice(words)?;
    out.extend_from_slice(node_name(names, node))
}

fn put_pair(out: &mut Vec<u8>, names: &[Name], words: &[u8], a: u8, b: u8) -> Result<(), AllocError>
    ensures { OnOk result (out.new.items ≡ out.old.items ++ of_pair names.now words.now a b) }
{
    out.extend_from_slice(words)?;
    out.extend_from_slice(node_name(names, a))?;
    out.extend_from_slice(b" ")?;
    out.extend_from_slice(node_name(names, b))
}

fn put_number(out: &mut Vec<u8>, words: &[u8], number: u64) -> Result<(), AllocError>
    ensures { OnOk result (out.new.items ≡ out.old.items ++ counted words.now number) }
{
    out.extend_from_slice(words)?;
    put_decimal(out, number)
}

fn put_counted(out: &mut Vec<u8>, words: &[u8], number: u32) -> Result<(), AllocError>
    ensures { OnOk result (out.new.items ≡ out.old.items ++ counted words.now number) }
{
    put_number(out, words, u64::from(number))
}

fn put_how(out: &mut Vec<u8>, how: &How) -> Result<(), AllocError>
    ensures { OnOk result (out.new.items ≡ out.old.items ++ how_text how.now) }
{
    match how {
        How::Keep(count) => put_counted(out, b" KEEP ", *count),
        How::Leave(bytes) => put_number(out, b" LEAVE, bytes: ", bytes.as_slice().len() as u64),
    }
}

fn put_node_command(
    out: &mut Vec<u8>,
    name: &Name,
    strength: u8,
    links: u32,
    undo: u32,
) -> Result<(), AllocError>
    ensures { OnOk result (out.new.items ≡ out.old.items ++ codes "NODE " ++ name.now ++ counted (codes " STRENGTH ") strength ++ counted (codes " LINKS ") links ++ counted (codes " UNDO ") undo) }
{
    out.extend_from_slice(b"NODE ")?;
    out.extend_from_slice(name.as_bytes())?;
    put_counted(out, b" STRENGTH ", u32::from(strength))?;
    put_counted(out, b" LINKS ", links)?;
    put_counted(out, b" UNDO ", undo)
}

fn put_at(
    out: &mut Vec<u8>,
    alloc: Global,
    names: &[Name],
    node: u8,
    session: u32,
    statement: &Option<Stmt>,
) -> Result<(), AllocError>
    ensures { OnOk result (out.new.items ≡ out.old.items ++ of_node names.now (codes "AT ") node ++ counted (codes " SESSION ") session ++ codes ": " ++ statement_text statement.now) }
{
    put_node(out, names, b"AT ", node)?;
    put_counted(out, b" SESSION ", session)?;
    out.extend_from_slice(b": ")?;
    put_stmt(out, alloc, statement)
}

fn put_crash(
    out: &mut Vec<u8>,
    names: &[Name],
    node: u8,
    write: u32,
    how: &How,
) -> Result<(), AllocError>
    ensures { OnOk result (out.new.items ≡ out.old.items ++ of_node names.now (codes "CRASH ") node ++ counted (codes " WRITE ") write ++ how_text how.now) }
{
    put_node(out, names, b"CRASH ", node)?;
    put_counted(out, b" WRITE ", write)?;
    put_how(out, how)
}

fn put_node_and(
    out: &mut Vec<u8>,
    names: &[Name],
    words: &[u8],
    node: u8,
    what: &[u8],
    number: u32,
) -> Result<(), AllocError>
    ensures { OnOk result (out.new.items ≡ out.old.items ++ of_node names.now words.now node ++ counted what.now number) }
{
    put_node(out, names, words, node)?;
    put_counted(out, what, number)
}

fn put_lose_next(
    out: &mut Vec<u8>,
    names: &[Name],
    kind: KindName,
    from: u8,
    to: u8,
) -> Result<(), AllocError>
    ensures { OnOk result (out.new.items ≡ out.old.items ++ codes "LOSE NEXT " ++ kind_text kind ++ of_pair names.now (codes " ") from to) }
{
    out.extend_from_slice(b"LOSE NEXT ")?;
    out.extend_from_slice(kind.text())?;
    put_pair(out, names, b" ", from, to)
}

fn put_hold(out: &mut Vec<u8>, on: bool) -> Result<(), AllocError>
    ensures { OnOk result (out.new.items ≡ out.old.items ++ hold_text on) }
{
    if on {
        out.extend_from_slice(b"HOLD ON")
    } else {
        out.extend_from_slice(b"HOLD OFF")
    }
}

fn put_pump(out: &mut Vec<u8>, most: Option<u32>) -> Result<(), AllocError>
    ensures { OnOk result (out.new.items ≡ out.old.items ++ pump_text most) }
{
    match most {
        None => out.extend_from_slice(b"PUMP"),
        Some(most) => put_counted(out, b"PUMP ", most),
    }
}

// A command about one node, and what it shows.
fn put_node_text(out: &mut Vec<u8>, names: &[Name], command: &Command) -> Result<(), AllocError>
    ensures { OnOk result (out.new.items ≡ out.old.items ++ node_text names.now command.now) }
{
    match command {
        Command::Stop { node } => put_node(out, names, b"STOP ", *node),
        Command::Start { node } => put_node(out, names, b"START ", *node),
        Command::Fault { node, call } => {
            put_node_and(out, names, b"FAULT ", *node, b" CALL ", *call)
        }
        Command::Reco { node } => put_node(out, names, b"RECO ", *node),
        Command::ShowPending { node } => put_node(out, names, b"SHOW PENDING ", *node),
        Command::ShowNeighbors { node } => put_node(out, names, b"SHOW NEIGHBORS ", *node),
        Command::ShowDisk { node } => put_node(out, names, b"SHOW DISK ", *node),
        Command::ShowUndo { node } => put_node(out, names, b"SHOW UNDO ", *node),
        Command::ShowBook => out.extend_from_slice(b"SHOW BOOK"),
        Command::ShowNet => out.extend_from_slice(b"SHOW NET"),
        _ => Ok(()),
    }
}

// A command about messages, or another one.
fn put_net_text(out: &mut Vec<u8>, names: &[Name], command: &Command) -> Result<(), AllocError>
    ensures { OnOk result (out.new.items ≡ out.old.items ++ net_text names.now command.now) }
{
    match command {
        Command::Cut { a, b } => put_pair(out, names, b"CUT ", *a, *b),
        Command::Join { a, b } => put_pair(out, names, b"JOIN ", *a, *b),
        Command::Lose { k } => put_counted(out, b"LOSE ", *k),
        Command::LoseNext { kind, from, to } => put_lose_next(out, names, *kind, *from, *to),
        Command::Hold { on } => put_hold(out, *on),
        Command::Deliver { k } => put_counted(out, b"DELIVER ", *k),
        Command::Again { k } => put_counted(out, b"AGAIN ", *k),
        Command::Pump { most } => put_pump(out, *most),
        _ => put_node_text(out, names, command),
    }
}

/// Adds the text of a command, where these are the names of all nodes.
#[tactic(auto, unfolding(crate::specs::Commands::command_text))]
pub(crate) fn put_command(
    out: &mut Vec<u8>,
    alloc: Global,
    names: &[Name],
    command: &Command,
) -> Result<(), AllocError>
    ensures { OnOk result (out.new.items ≡ out.old.items ++ command_text names.now command.now) }
{
    match command {
        Command::Node {
            name,
            strength,
            links,
            undo,
        } => put_node_command(out, name, *strength, *links, *undo),
        Command::At {
            node,
            session,
            statement,
        } => put_at(out, alloc, names, *node, *session, statement),
        Command::Crash { node, write, how } => put_crash(out, names, *node, *write, how),
        Command::GiveUp { node, session } => {
            put_node_and(out, names, b"GIVEUP AT ", *node, b" SESSION ", *session)
        }
        _ => put_net_text(out, names, command),
    }
}
