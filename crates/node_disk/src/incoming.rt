//! What comes to a node from outside.
ghost use Rattle.std.specs.Prelude.{◌≡◌, Some, IfOk};
ghost use Rattle.wire_msg.specs.declared.msg.Msg.{Msg};
ghost use Rattle.msg_codec.specs.Message.{message_of};
ghost use Rattle.wire_msg.specs.declared.input.Input.{Input as InputBy};
ghost use Rattle.node_disk.specs.Incoming.{IsReadAs};

use dtx_values::Bytes;
use msg_codec::{WireErr, decode_msg};
use sql_statement::Stmt;
use std::alloc::{AllocError, Global};
use wire_msg::{Input, Msg as MsgValue};

/// What comes to a node from outside.
#[derive(Drop)]
pub enum Incoming {
    /// A call of a client session.
    Call {
        /// The session's number, 1 to 64.
        session: u32,
        /// The statement, or nothing where the text is outside the grammar.
        statement: Option<Stmt>,
    },
    /// The pending call of a client session is given up, since no answer comes.
    GiveUp {
        /// The session's number, 1 to 64.
        session: u32,
    },
    /// The bytes of a message are delivered.
    Message(Bytes),
    /// The recoverer process RECO is called.
    Reco,
}

// The message of these bytes, which spell one. Fails where memory runs out.
fn message(alloc: Global, bytes: &[u8]) -> Result<MsgValue, AllocError>
    requires { (m : Msg) × (message_of bytes.now ≡ Some m) }
    ensures { IfOk result (λ m. message_of bytes.now ≡ Some m) }
{
    match decode_msg(alloc, bytes) {
        Ok(msg) => Ok(msg),
        Err(WireErr::NoMemory) => Err(AllocError),
        Err(WireErr::NotAMessage) => unreachable!(),
    }
}

/// Reads what comes. Fails where memory runs out.
#[tactic(auto, using(crate::proofs::ReadLaws::spells_one, crate::proofs::ReadLaws::read_so))]
pub(crate) fn read(alloc: Global, incoming: Incoming) -> Result<Input, AllocError>
    requires { (i : InputBy) × IsReadAs incoming i }
    ensures { IfOk result (λ input. IsReadAs incoming input) }
{
    match incoming {
        Incoming::Call { session, statement } => Ok(Input::Call { session, statement }),
        Incoming::GiveUp { session } => Ok(Input::GiveUp { session }),
        Incoming::Message(bytes) => Ok(Input::Message(message(alloc, bytes.as_slice())?)),
        Incoming::Reco => Ok(Input::Reco),
    }
}
