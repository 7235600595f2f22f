//! What no clause says of commands: what is read of the last command of a script.
use dtx_values::SCRIPT_LIMIT;
use script_read::{Command, How, read_script};
use std::alloc::Global;
use wire_msg::KindName;

/// The form of a command, and its numbers in the order in which they are written, with zeros behind them.
type Read = (&'static str, [u32; 4]);

/// What is read of a command of none of the forms below.
const OTHER: Read = ("other", [0; 4]);

/// What is read of an order to stop a node in a write and to leave these bytes.
fn read_of_leave(node: u8, write: u32, bytes: &[u8]) -> Read {
    match bytes {
        [first, last] => ("leave", [node as u32, write, *first as u32, *last as u32]),
        _ => OTHER,
    }
}

/// What is read of an order to stop a node in a write.
fn read_of_crash(node: u8, write: u32, how: &How) -> Read {
    match how {
        How::Keep(count) => ("keep", [node as u32, write, *count, 0]),
        How::Leave(bytes) => read_of_leave(node, write, bytes.as_slice()),
    }
}

/// What is read of a client's call.
fn read_of_call(node: u8, session: u32, has_statement: bool) -> Read {
    let form = if has_statement { "call" } else { "empty call" };
    (form, [node as u32, session, 0, 0])
}

/// What is read of a command of one of the forms below.
fn read_of(command: &Command) -> Read {
    match command {
        Command::Node {
            strength,
            links,
            undo,
            ..
        } => ("node", [*strength as u32, *links, *undo, 0]),
        Command::At {
            node,
            session,
            statement,
        } => read_of_call(*node, *session, statement.is_some()),
        Command::LoseNext {
            kind: KindName::CommitPoint,
            from,
            to,
        } => ("lose commit point", [*from as u32, *to as u32, 0, 0]),
        Command::Pump { most: Some(most) } => ("pump some", [*most, 0, 0, 0]),
        Command::Pump { most: None } => ("pump all", [0; 4]),
        Command::Crash { node, write, how } => read_of_crash(*node, *write, how),
        Command::Fault { node, call } => ("fault", [*node as u32, *call, 0, 0]),
        _ => OTHER,
    }
}

/// What is read of the last command of a script.
fn last(alloc: Global, script: &[u8]) -> Option<Read> {
    if script.len() > SCRIPT_LIMIT {
        return None;
    }
    match read_script(alloc, script) {
        Ok(commands) => {
            let last = commands.as_slice().last().map(read_of);
            drop(commands);
            last
        }
        Err(_) => None,
    }
}

/// Scripts, each with the form and the numbers of its last command.
const LAST: [(&[u8], &str, [u32; 4]); 9] = [
    // an option that is left out has its default
    (b"NODE a Undo 7;", "node", [1, 4, 7, 0]),
    // a node is known by its number, in the order of the NODE commands
    (
        b"NODE a; NODE b; At b\nsession 3: commit;",
        "call",
        [2, 3, 0, 0],
    ),
    (b"NODE a; AT a SESSION 1: ;", "empty call", [1, 1, 0, 0]),
    (
        b"NODE a; NODE b; LOSE NEXT CommitPoint FROM b TO a;",
        "lose commit point",
        [2, 1, 0, 0],
    ),
    (b"PUMP;", "pump all", [0, 0, 0, 0]),
    (b"PUMP 2;", "pump some", [2, 0, 0, 0]),
    (b"NODE a; CRASH a WRITE 2 KEEP 3;", "keep", [1, 2, 3, 0]),
    (
        b"NODE a; crash a write 1 leave 'fF00';",
        "leave",
        [1, 1, 0xff, 0],
    ),
    (b"NODE a; FAULT a CALL 7;", "fault", [1, 7, 0, 0]),
];

fn first_misread(alloc: Global) -> Option<&'static [u8]> {
    for (script, form, numbers) in &LAST {
        if last(alloc, script) != Some((*form, *numbers)) {
            return Some(*script);
        }
    }
    None
}

#[test]
fn commands_are_read(rt: HostRuntime) {
    assert!(rt; first_misread(rt.alloc()).is_none());
}
