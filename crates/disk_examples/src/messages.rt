//! The bytes of messages by examples from outside, and that calls succeed.
ghost use Rattle.std.specs.Prelude.{◌≡◌, true, IfOk};
ghost use Rattle.msg_codec.specs.Fits.{IsShort};
ghost use Rattle.msg_codec.specs.Message.{HasSpelling, IsMessage};

use msg_codec::{
    WireErr, decode_msg, encode_msg, message_fits, messages_are_read, read_messages_fit,
};
use sql_print::print_stmt;
use std::alloc::{AllocError, Global};
use tran_ids::BranchId;
use wire_msg::{Kind, Msg, Task};

const SENDER: BranchId = BranchId {
    node: 1,
    boot: 1,
    session: 1,
    seq: 1,
};

const RECEIVER: BranchId = BranchId {
    node: 2,
    boot: 1,
    session: 65,
    seq: 1,
};

/// The Ack of the sender to the receiver at clock 2.
const ACK: [u8; 35] = [
    14, 1, 0, 0, 0, 1, 0, 0, 0, 1, 0, 0, 0, 1, 2, 0, 0, 0, 1, 0, 0, 0, 65, 0, 0, 0, 1, 0, 0, 0, 0,
    0, 0, 0, 2,
];

/// Whether the message is the Ack.
fn is_ack(msg: &Msg) -> bool {
    msg.from == SENDER && msg.to == RECEIVER && msg.scn == 2 && matches!(msg.kind, Kind::Ack)
}

/// Whether the Ack is written as its bytes.
fn is_ack_written(alloc: Global) -> Result<bool, AllocError> {
    let ack = Msg {
        from: SENDER,
        to: RECEIVER,
        scn: 2,
        kind: Kind::Ack,
    };
    message_fits(&ack);
    Ok(encode_msg(alloc, &ack)?.as_slice() == ACK.as_slice())
}

/// Whether the bytes are no message's.
fn is_refused(alloc: Global, bytes: &[u8]) -> bool {
    matches!(decode_msg(alloc, bytes), Err(WireErr::NotAMessage))
}

#[test]
fn an_ack_is_written_and_read(rt: HostRuntime) {
    assert!(rt; is_ack_written(rt.alloc()) == Ok(true));
    assert!(rt; matches!(&decode_msg(rt.alloc(), &ACK), Ok(msg) if is_ack(msg)));
    assert!(rt; is_refused(rt.alloc(), &ACK[..34]));
    assert!(rt; is_refused(rt.alloc(), &[]));
}

/// The bytes of a message of this kind from the sender to the receiver at clock 2, with these fields.
fn bytes_of(alloc: Global, kind: u8, fields: &[u8]) -> Result<Vec<u8>, AllocError> {
    let mut bytes = Vec::new(alloc);
    bytes.push(kind)?;
    bytes.extend_from_slice(&ACK[1..])?;
    bytes.extend_from_slice(fields)?;
    Ok(bytes)
}

/// The kind of the message.
fn name_of(kind: &Kind) -> &'static str {
    match kind {
        Kind::Open { .. } => "open",
        Kind::Opened { .. } => "opened",
        Kind::Exec { .. } => "exec",
        Kind::Reply { .. } => "reply",
        Kind::Prepare { .. } => "prepare",
        Kind::Prepared => "prepared",
        Kind::ReadOnly => "read only",
        Kind::Ready => "ready",
        Kind::Abort => "abort",
        Kind::CommitPoint => "commit point",
        Kind::Committed { .. } => "committed",
        Kind::RolledBack => "rolled back",
        Kind::InDoubt => "in doubt",
        Kind::Ack => "ack",
        Kind::Forgotten => "forgotten",
        Kind::Rollback => "rollback",
        Kind::Ask => "ask",
    }
}

/// Whether the statement of the message, if it has one, is short.
fn is_short(alloc: Global, kind: &Kind) -> Result<bool, AllocError>
    ensures { IfOk result (λ short. short ≡ true → IsShort kind.now) }
{
    match kind {
        Kind::Exec {
            task: Task::Run { statement, .. },
            ..
        } => Ok(print_stmt(alloc, statement)?.as_slice().len() < 1000),
        _ => Ok(true),
    }
}

/// A message that was read has a spelling if its statement is short.
fn read_message_fits(msg: &Msg, read: &[u8])
    requires read { IsMessage msg.now read.now }
    requires short { IsShort msg.now.kind }
    ensures { HasSpelling msg.now }
{
    read_messages_fit();
}

/// Whether the message that was read from some bytes is written as these.
fn is_written(alloc: Global, msg: &Msg, read: &[u8], bytes: &[u8]) -> Result<bool, AllocError>
    requires { IsMessage msg.now read.now }
{
    let short = is_short(alloc, &msg.kind)?;
    if !short {
        return Ok(false);
    }
    read_message_fits(msg, read);
    Ok(encode_msg(alloc, msg)?.as_slice() == bytes)
}

/// Whether a message of this kind is read from these bytes, and written as those.
fn is_read(alloc: Global, what: &str, bytes: &[u8], written: &[u8]) -> Result<bool, AllocError> {
    match decode_msg(alloc, bytes) {
        Ok(msg) => Ok(name_of(&msg.kind) == what && is_written(alloc, &msg, bytes, written)?),
        Err(_) => Ok(false),
    }
}

/// Whether a message with these fields is read as one of this kind, and written as it was.
fn is_kept(alloc: Global, what: &str, kind: u8, fields: &[u8]) -> Result<bool, AllocError> {
    let bytes = bytes_of(alloc, kind, fields)?;
    is_read(alloc, what, &bytes, &bytes)
}

/// A message of each kind: its kind, the byte of it, and its fields.
const KINDS: [(&str, u8, &[u8]); 19] = [
    ("open", 1, &[1, 1, 0, 0, 0, 1, 0, 0, 0, 65, 0, 0, 0, 1, 2]),
    ("opened", 2, &[1, 5]),
    (
        "exec",
        3,
        b"\x00\x00\x00\x07\x00\x3c\x01\x00\x00\x00\x19DELETE FROM T WHERE K = 1",
    ),
    ("reply", 4, &[0, 0, 0, 7, 1, 5, 0, 2, 1, 2, 0, 0, 0, 3]),
    (
        "reply",
        4,
        &[
            0, 0, 0, 7, 0, 0, 1, 2, 0, 0, 0, 1, 0, 1, 75, 0, 0, 0, 1, 1, 1, 0, 0, 0, 0, 0, 0, 0, 7,
        ],
    ),
    (
        "reply",
        4,
        &[0, 0, 0, 7, 0, 0, 1, 3, 234, 104, 0, 0, 0, 1, 0, 2, 72, 81],
    ),
    ("prepare", 5, &[1, 0, 2, 104, 105]),
    ("prepared", 6, &[]),
    ("read only", 7, &[]),
    ("ready", 8, &[]),
    ("abort", 9, &[]),
    ("commit point", 10, &[]),
    ("committed", 11, &[0, 0, 0, 0, 0, 0, 0, 9]),
    ("rolled back", 12, &[]),
    ("in doubt", 13, &[]),
    ("ack", 14, &[]),
    ("forgotten", 15, &[]),
    ("rollback", 16, &[]),
    ("ask", 17, &[]),
];

#[test]
fn each_kind_is_read_and_written_again(rt: HostRuntime) {
    for (what, kind, fields) in KINDS {
        assert!(rt;
            is_kept(rt.alloc(), what, kind, fields) == Ok(true),
            "{what}"
        );
    }
}

/// Whether a statement is read from another text of it, and written as it is printed.
fn reads_other_texts(alloc: Global) -> Result<bool, AllocError> {
    let sent = b"\x00\x00\x00\x07\x00\x3c\x00\x00\x00\x00\x16delete  t  where K='a'";
    let printed = b"\x00\x00\x00\x07\x00\x3c\x00\x00\x00\x00\x1bDELETE FROM T WHERE K = 'a'";
    let sent = bytes_of(alloc, 3, sent)?;
    let printed = bytes_of(alloc, 3, printed)?;
    is_read(alloc, "exec", &sent, &printed)
}

#[test]
fn a_statement_is_read_from_each_of_its_texts(rt: HostRuntime) {
    assert!(rt; reads_other_texts(rt.alloc()) == Ok(true));
}

/// Kinds and fields that are no message's.
const NO_MESSAGES: [(&str, u8, &[u8]); 14] = [
    ("a byte too many", 14, &[0]),
    ("a byte too few", 11, &[0, 0, 0, 0, 0, 0, 9]),
    ("no kind", 0, &[]),
    ("no such kind", 18, &[]),
    (
        "no such advice",
        3,
        b"\0\0\0\x07\0\x3c\x03\0\0\0\x08ROLLBACK",
    ),
    ("no statement", 3, b"\0\0\0\x07\0\x3c\0\0\0\0\x08ROLLBAKC"),
    ("an empty text", 3, b"\0\0\0\x07\0\x3c\0\0\0\0\0"),
    (
        "a text cut short",
        3,
        b"\0\0\0\x07\0\x3c\0\0\0\0\x09ROLLBACK",
    ),
    (
        "neither weight nor none",
        4,
        &[0, 0, 0, 7, 2, 0, 1, 1, 1, 0, 0, 0, 3],
    ),
    (
        "nothing that is done to rows",
        4,
        &[0, 0, 0, 7, 0, 0, 1, 1, 4, 0, 0, 0, 3],
    ),
    (
        "no such answer",
        4,
        &[0, 0, 0, 7, 0, 0, 1, 4, 1, 0, 0, 0, 3],
    ),
    (
        "an argument that is no text",
        4,
        &[0, 0, 0, 7, 0, 0, 1, 3, 0, 1, 0, 0, 0, 1, 0, 1, 255],
    ),
    ("neither true nor false", 5, &[2, 0, 0]),
    ("a comment that is no text", 5, &[0, 0, 1, 255]),
];

/// Whether a message of this kind cannot have these fields.
fn is_refused_with(alloc: Global, kind: u8, fields: &[u8]) -> Result<bool, AllocError> {
    let bytes = bytes_of(alloc, kind, fields)?;
    Ok(is_refused(alloc, &bytes))
}

#[test]
fn what_is_no_message_is_refused(rt: HostRuntime) {
    for (what, kind, fields) in NO_MESSAGES {
        assert!(rt;
            is_refused_with(rt.alloc(), kind, fields) == Ok(true),
            "{what}"
        );
    }
}

#[test]
fn the_laws_hold() {
    messages_are_read();
    read_messages_fit();
}
