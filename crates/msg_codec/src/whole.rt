//! The bytes of whole messages.
ghost use Rattle.std.specs.Prelude.{◌≡◌, ℕ, List, Some, None, IfOk, IsErrOf};
ghost use Rattle.byte_format.specs.Reads.{ReadsInMemory};
ghost use Rattle.wire_msg.specs.declared.msg.Msg.{Msg};
ghost use Rattle.msg_codec.specs.Message.{msg_format, HasSpelling, IsMessage, message_of};

use crate::WireErr;
use crate::message::MsgField;
use byte_format::{Field, TakeErr, write_whole};
use dtx_values::Bytes;
use std::alloc::{AllocError, Global};
use wire_msg::Msg;

/// The bytes of the message, which has to have a spelling. Fails where memory runs out.
#[tactic(auto, unfolding(crate::specs::Message::msg_format))]
pub fn encode_msg(alloc: Global, msg: &Msg) -> Result<Bytes, AllocError>
    requires { HasSpelling msg.now }
    ensures { IfOk result (λ bytes. bytes ≡ msg_format.text msg.now) }
{
    Ok(Bytes::of(write_whole::<MsgField>(alloc, msg)?))
}

/// The message that these bytes spell, with nothing after it. Fails with `NoSpelling` exactly where they spell none, and
/// with `NoMemory` where memory runs out.
#[tactic(auto, unfolding(crate::specs::Message::msg_format))]
fn take_whole(alloc: Global, bytes: &[u8]) -> Result<Msg, TakeErr>
    ensures { ReadsInMemory (λ m. m) result (message_of bytes.now) }
{
    let (msg, rest) = MsgField::take_from(alloc, bytes)?;
    match rest {
        [] => Ok(msg),
        _ => Err(TakeErr::NoSpelling),
    }
}

/// Why no message is made of bytes that were not read as one.
fn wire_err(err: TakeErr) -> WireErr
    ensures none { result ≡ WireErr.NotAMessage → err ≡ TakeErr.NoSpelling }
    ensures memory { result ≡ WireErr.NoMemory → err ≡ TakeErr.NoMemory }
{
    match err {
        TakeErr::NoSpelling => WireErr::NotAMessage,
        TakeErr::NoMemory => WireErr::NoMemory,
    }
}

/// The message that these bytes spell. Fails with `NotAMessage` exactly where they spell none, and with `NoMemory` where
/// memory runs out.
pub fn decode_msg(alloc: Global, bytes: &[u8]) -> Result<Msg, WireErr>
    // The bytes spell the message.
    ensures found { IfOk result (λ m. IsMessage m bytes.now) }
    // Bytes that are refused spell no message.
    ensures refused { IsErrOf result WireErr.NotAMessage → (m : Msg) → IsMessage m bytes.now → ⊥ }
    // The same, in the words of the function that finds the message.
    ensures is { IfOk result (λ m. message_of bytes.now ≡ Some m) }
    ensures is_none { IsErrOf result WireErr.NotAMessage → message_of bytes.now ≡ None }
{
    match take_whole(alloc, bytes) {
        Ok(msg) => Ok(msg),
        Err(err) => Err(wire_err(err)),
    }
}
