//! What comes to a node, as tests write it.
ghost use Rattle.std.specs.Prelude.{◌≡◌, true, false, Some, IfSome};
ghost use Rattle.lone_node.specs.Played.{is_prepare as is_prepare_by, IsCalled, IsPlayed, IsComing};
ghost use Rattle.msg_codec.specs.Message.{message_of};
ghost use Rattle.node_rules.specs.Inputs.{IsSession};

use crate::says::{Letter, encoded, msg_of};
use dtx_values::Bytes;
use node_disk::Incoming;
use sql_parse::{ParseErr, parse, spelled_statements_are_whole};
use sql_print::printed_statements_are_read;
use sql_statement::Stmt;
use std::alloc::Global;
use wire_msg::{Kind, Msg};

/// What comes to a node.
#[derive(Clone, Copy)]
pub enum Comes {
    /// A call of a client session: its number, and the text of the statement.
    Call(u32, &'static [u8]),
    /// A message.
    Message(Letter),
    /// RECO.
    Reco,
}

/// The statement of a call; none where the text spells none. None where memory runs out.
fn called(alloc: Global, text: &[u8]) -> Option<Option<Stmt>>
    ensures { IfSome result (λ statement. IfSome statement IsCalled) }
{
    printed_statements_are_read();
    spelled_statements_are_whole();
    match parse(alloc, text) {
        Ok(statement) => Some(Some(statement)),
        Err(ParseErr::BadSql) => Some(None),
        Err(ParseErr::NoMemory) => None,
    }
}

/// Whether this is the number of a session.
fn is_session(session: u32) -> bool
    ensures { result ≡ true → IsSession session }
{
    session >= 1 && session <= 64
}

/// A call of a client session. None where there is no such session, or memory runs out.
fn call(alloc: Global, session: u32, text: &[u8]) -> Option<Incoming>
    ensures { IfSome result (IsComing false) }
{
    if !is_session(session) {
        return None;
    }
    match called(alloc, text) {
        Some(statement) => Some(Incoming::Call { session, statement }),
        None => None,
    }
}

/// Whether a message is Prepare.
fn is_prepare(kind: &Kind) -> bool
    ensures { result ≡ is_prepare_by kind.now }
{
    matches!(kind, Kind::Prepare { .. })
}

/// The bytes of this message as they come, and whether it is Prepare.
fn brings(bytes: Option<Bytes>, msg: &Msg) -> Option<(Incoming, bool)>
    requires bytes { IfSome bytes (λ b. message_of b ≡ Some msg.now) }
    requires played { IsPlayed msg.now }
    ensures { IfSome result (λ coming. IsComing coming.1 coming.0) }
{
    match bytes {
        Some(bytes) => Some((Incoming::Message(bytes), is_prepare(&msg.kind))),
        None => None,
    }
}

/// A message, and whether it is Prepare. None where it can't be said, or memory runs out.
fn message(alloc: Global, letter: &Letter) -> Option<(Incoming, bool)>
    ensures { IfSome result (λ coming. IsComing coming.1 coming.0) }
{
    let msg = msg_of(alloc, letter)?;
    let coming = brings(encoded(alloc, &msg), &msg);
    drop(msg);
    coming
}

/// What comes, for a node to read, and whether it is Prepare. None where it can't come, or memory runs out.
pub(crate) fn incoming(alloc: Global, comes: &Comes) -> Option<(Incoming, bool)>
    ensures { IfSome result (λ coming. IsComing coming.1 coming.0) }
{
    match comes {
        Comes::Call(session, text) => match call(alloc, *session, text) {
            Some(incoming) => Some((incoming, false)),
            None => None,
        },
        Comes::Message(letter) => message(alloc, letter),
        Comes::Reco => Some((Incoming::Reco, false)),
    }
}
