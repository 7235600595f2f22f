//! Commands as lines.

use dtx_values::Name;
use script_read::{Command, How};
use std::alloc::{AllocError, Global};

fn text_of(name: &Name) -> &str {
    std::str::from_utf8(name.as_bytes()).unwrap_or("")
}

fn crash_line(alloc: Global, node: u8, write: u32, how: &How) -> Result<String, AllocError> {
    match how {
        How::Keep(bytes) => format!(in alloc; "CRASH {node} WRITE {write} KEEP {bytes}"),
        How::Leave(bytes) => {
            let bytes = bytes.as_slice();
            format!(in alloc; "CRASH {node} WRITE {write} LEAVE {bytes:?}")
        }
    }
}

fn said_of(holds: bool) -> &'static str {
    if holds { "statement" } else { "no statement" }
}

/// A command as a line, in the words of the script; a node as its number, and a call's text as whether it is a statement.
/// Fails where memory runs out.
pub fn line_of(alloc: Global, command: &Command) -> Result<String, AllocError> {
    match command {
        Command::Node {
            name,
            strength,
            links,
            undo,
        } => format!(in alloc; "NODE {} {strength} {links} {undo}", text_of(name)),
        Command::At {
            node,
            session,
            statement,
        } => format!(in alloc; "AT {node} {session} {}", said_of(statement.is_some())),
        Command::Cut { a, b } => format!(in alloc; "CUT {a} {b}"),
        Command::Join { a, b } => format!(in alloc; "JOIN {a} {b}"),
        Command::Lose { k } => format!(in alloc; "LOSE {k}"),
        Command::LoseNext { kind, from, to } => {
            format!(in alloc; "LOSE NEXT {kind:?} {from} {to}")
        }
        Command::Stop { node } => format!(in alloc; "STOP {node}"),
        Command::Start { node } => format!(in alloc; "START {node}"),
        Command::Crash { node, write, how } => crash_line(alloc, *node, *write, how),
        Command::Fault { node, call } => format!(in alloc; "FAULT {node} {call}"),
        other => short_line(alloc, other),
    }
}

fn pump_line(alloc: Global, most: Option<u32>) -> Result<String, AllocError> {
    match most {
        Some(most) => format!(in alloc; "PUMP {most}"),
        None => format!(in alloc; "PUMP"),
    }
}

fn short_line(alloc: Global, command: &Command) -> Result<String, AllocError> {
    match command {
        Command::Hold { on: true } => format!(in alloc; "HOLD ON"),
        Command::Hold { on: false } => format!(in alloc; "HOLD OFF"),
        Command::Deliver { k } => format!(in alloc; "DELIVER {k}"),
        Command::Again { k } => format!(in alloc; "AGAIN {k}"),
        Command::Pump { most } => pump_line(alloc, *most),
        Command::GiveUp { node, session } => format!(in alloc; "GIVEUP AT {node} {session}"),
        Command::Reco { node } => format!(in alloc; "RECO {node}"),
        Command::ShowPending { node } => format!(in alloc; "SHOW PENDING {node}"),
        Command::ShowNeighbors { node } => format!(in alloc; "SHOW NEIGHBORS {node}"),
        Command::ShowBook => format!(in alloc; "SHOW BOOK"),
        Command::ShowNet => format!(in alloc; "SHOW NET"),
        Command::ShowDisk { node } => format!(in alloc; "SHOW DISK {node}"),
        Command::ShowUndo { node } => format!(in alloc; "SHOW UNDO {node}"),
        _ => format!(in alloc; ""),
    }
}
