//! What a node says and writes has bytes: the comments, the statements and the answers in its messages, and the records of its
//! turns.
//!
//! None of this speaks of sizes: how long a printed text, a list of rows or the body of a record may be is tested where it is
//! written.
#![tactic(auto)]

ghost use Rattle.node_spell_laws.specs.Bytes.{SentFits, StatementsAreRenamed, AnswersHaveBytes, TurnsKeepBytes, TurnsNameTables, StartsKeepBytes};
ghost use Rattle.node_spell_laws.specs.Written.{ChangesFit, CommentsFit, WaysLead, NumbersFit, RecordsHaveBytes};

mod record;

pub use record::{has_few, record_fits};

/// What a node keeps of comments, statements and answers can be sent, and so can what it says in a turn, where that is so of
/// what comes to it. Such messages have a spelling, where nothing in them is too long for its count. A node starts so from the
/// records of such turns.
pub fn messages_fit()
    ensures fits { SentFits }
    ensures turns { TurnsKeepBytes }
    ensures names { TurnsNameTables }
    ensures starts { StartsKeepBytes }
{}

/// A statement that its printed text spells is spelled by it with another table too, and is answered so that the answer can be
/// sent.
pub fn statements_go_on()
    ensures renamed { StatementsAreRenamed }
    ensures answers { AnswersHaveBytes }
{}

/// The record that a ready node writes in a turn has bytes (`record_fits`): its changes have keys that are not NULL, and rows
/// whose cells one byte counts; its comment is one; the way of a prepared branch leads to a parent, or to a child that the
/// record names; its SCN is one that six bytes tell.
pub fn records_fit()
    ensures records { RecordsHaveBytes }
    ensures changes { ChangesFit }
    ensures comments { CommentsFit }
    ensures ways { WaysLead }
    ensures numbers { NumbersFit }
{}
