//! What holds of messages and bytes. These functions do nothing: their contracts are the theorems.
ghost use Rattle.std.specs.Prelude.{◌≡◌, ℕ, List, Some};
ghost use Rattle.byte_format.specs.Format.{IsBytes};
ghost use Rattle.wire_msg.specs.declared.msg.Msg.{Msg};
ghost use Rattle.msg_codec.specs.Message.{msg_format, HasSpelling, IsMessage, message_of};
ghost use Rattle.msg_codec.specs.Fits.{IsShort};

/// Each message with a spelling is read back; what is read is what the bytes spell; and no bytes spell two messages.
pub fn messages_are_read()
    // What is written of a message spells it,
    ensures written { (m : Msg) → HasSpelling m → IsMessage m (msg_format.text m) }
    // and is read as it.
    ensures again { (m : Msg) → HasSpelling m → message_of (msg_format.text m) ≡ Some m }
    // Bytes that spell a message are read as it,
    ensures found { (bytes : List ℕ) (m : Msg) → IsMessage m bytes → message_of bytes ≡ Some m }
    // and spell each message that they are read as.
    ensures spelled { (bytes : List ℕ) (m : Msg) → IsBytes bytes → message_of bytes ≡ Some m → IsMessage m bytes }
    // No bytes spell two messages,
    ensures one { (bytes : List ℕ) (a b : Msg) → IsMessage a bytes → IsMessage b bytes → a ≡ b }
    // and different messages are written differently.
    ensures differ { (a b : Msg) → HasSpelling a → HasSpelling b → msg_format.text a ≡ msg_format.text b → a ≡ b }
{}

/// A message that was read has a spelling, so that it can be sent on, if the printed text of its statement is not too long.
pub fn read_messages_fit()
    ensures { (bytes : List ℕ) (m : Msg) → IsMessage m bytes → IsShort m.kind → HasSpelling m }
{}
