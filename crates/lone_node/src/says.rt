//! Messages as tests write them, and their bytes.
ghost use Rattle.std.specs.Prelude.{◌≡◌, ◌≤◌, ◌<◌, ◌^◌, true, length, Some, IfSome};
ghost use Rattle.node_spell_laws.specs.Bytes.{IsOfTable, StatementHasBytes};
ghost use Rattle.msg_codec.specs.Fits.{KindFits};
ghost use Rattle.msg_codec.specs.Message.{message_of};
ghost use Rattle.lone_node.specs.Played.{IsChange, IsSaid, IsPlayed};
ghost use Rattle.sql_print.specs.Printing.{IsPrintable, printed};

use dtx_values::{Answer, Bytes, Done, Listing};
use msg_codec::{encode_msg, message_fits, messages_are_read};
use sql_parse::parse;
use sql_print::{print_stmt, printed_statements_are_read};
use sql_statement::Stmt;
use std::alloc::{AllocError, Global};
use tran_ids::BranchId;
use wire_msg::{Kind, Msg, Task};

/// What a message says.
#[derive(Clone, Copy)]
pub enum Says {
    Open {
        edge: u8,
        root: BranchId,
        depth: u8,
    },
    Opened {
        edge: u8,
        strength: u8,
    },
    Exec {
        call: u32,
        room: u16,
        text: &'static [u8],
    },
    /// A Reply that rows were changed.
    Did {
        call: u32,
        weight: u8,
        done: Done,
    },
    Prepare {
        site_below: bool,
    },
    Prepared,
    Ready,
    Abort,
    CommitPoint,
    Committed {
        scn: u64,
    },
    RolledBack,
    Ack,
    Forgotten,
    Ask,
}

/// A message: who sends it, who it is for, the sender's clock, and what it says.
pub type Letter = (BranchId, BranchId, u64, Says);

/// The greatest SCN in a message of a test.
const SCN_LIMIT: u64 = 1000;

/// Whether a statement is over the rows of a table.
fn is_of_table(statement: &Stmt) -> bool
    ensures { result ≡ true → IsOfTable statement.now }
{
    match statement {
        Stmt::Insert { .. } => true,
        Stmt::Update { .. } => true,
        Stmt::Delete { .. } => true,
        Stmt::Select { .. } => true,
        _ => false,
    }
}

/// Whether four bytes count the printed text of a statement.
fn is_short(alloc: Global, statement: &Stmt) -> bool
    ensures { result ≡ true → length (printed statement.now) < 2 ^ 32 }
{
    match print_stmt(alloc, statement) {
        Ok(text) => text.as_slice().len() < 4_294_967_296,
        Err(AllocError) => false,
    }
}

/// Whether a statement may be sent: it is over the rows of a table, and four bytes count its text.
fn may_be_sent(alloc: Global, statement: &Stmt) -> bool
    ensures of_table { result ≡ true → IsOfTable statement.now }
    ensures short { result ≡ true → length (printed statement.now) < 2 ^ 32 }
{
    is_of_table(statement) && is_short(alloc, statement)
}

/// The statement, where it may be sent.
fn sendable(alloc: Global, statement: Stmt) -> Option<Stmt>
    requires { IsPrintable statement }
    ensures bytes { IfSome result StatementHasBytes }
    ensures short { IfSome result (λ s. length (printed s) < 2 ^ 32) }
{
    if may_be_sent(alloc, &statement) {
        Some(statement)
    } else {
        drop(statement);
        None
    }
}

/// The statement of an Exec: one that this text spells, over the rows of a table.
fn statement_of(alloc: Global, text: &[u8]) -> Option<Stmt>
    ensures bytes { IfSome result StatementHasBytes }
    ensures short { IfSome result (λ s. length (printed s) < 2 ^ 32) }
{
    printed_statements_are_read();
    match parse(alloc, text) {
        Ok(statement) => sendable(alloc, statement),
        Err(_why) => None,
    }
}

/// An answer that rows were changed.
fn changed(done: Done) -> Option<Answer>
    ensures { IfSome result IsChange }
{
    match done {
        Done::Created => Some(Answer::Did(Done::Created, 1)),
        Done::Updated => Some(Answer::Did(Done::Updated, 1)),
        Done::Deleted => Some(Answer::Did(Done::Deleted, 1)),
        _ => None,
    }
}

/// An Exec of a statement. None where the text spells none that may be sent, or memory runs out.
fn exec(alloc: Global, call: u32, room: u16, text: &[u8]) -> Option<Kind>
    ensures { IfSome result IsSaid }
{
    match statement_of(alloc, text) {
        Some(statement) => Some(Kind::Exec {
            call,
            task: Task::Run {
                room,
                advice: None,
                statement,
            },
        }),
        None => None,
    }
}

/// A Reply that a row was changed.
fn did(call: u32, weight: u8, done: Done) -> Option<Kind>
    ensures { IfSome result IsSaid }
{
    match changed(done) {
        Some(result) => Some(Kind::Reply {
            call,
            weight: Some(weight),
            count: 1,
            result,
        }),
        None => None,
    }
}

/// A Prepare, of a COMMIT without a comment.
#[tactic(auto, using(crate::proofs::SaidLemmas::prepare_said))]
fn prepare(alloc: Global, site_below: bool) -> Kind
    ensures { IsSaid result }
{
    let comment = Listing::new(alloc);
    Kind::Prepare {
        site_below,
        comment,
    }
}

/// A Committed.
fn committed(scn: u64) -> Option<Kind>
    ensures { IfSome result IsSaid }
{
    if scn <= SCN_LIMIT {
        Some(Kind::Committed { scn })
    } else {
        None
    }
}

/// What a message says. None where it can't be said, or memory runs out.
fn kind_of(alloc: Global, says: &Says) -> Option<Kind>
    ensures { IfSome result IsSaid }
{
    match says {
        Says::Open { edge, root, depth } => Some(Kind::Open {
            edge: *edge,
            root: *root,
            depth: *depth,
            read_at: None,
        }),
        Says::Opened { edge, strength } => Some(Kind::Opened {
            edge: *edge,
            strength: *strength,
        }),
        Says::Exec { call, room, text } => exec(alloc, *call, *room, text),
        Says::Did { call, weight, done } => did(*call, *weight, *done),
        Says::Prepare { site_below } => Some(prepare(alloc, *site_below)),
        Says::Prepared => Some(Kind::Prepared),
        Says::Ready => Some(Kind::Ready),
        Says::Abort => Some(Kind::Abort),
        Says::CommitPoint => Some(Kind::CommitPoint),
        Says::Committed { scn } => committed(*scn),
        Says::RolledBack => Some(Kind::RolledBack),
        Says::Ack => Some(Kind::Ack),
        Says::Forgotten => Some(Kind::Forgotten),
        Says::Ask => Some(Kind::Ask),
    }
}

/// A message. None where it can't be said, or memory runs out.
pub(crate) fn msg_of(alloc: Global, letter: &Letter) -> Option<Msg>
    ensures { IfSome result IsPlayed }
{
    let (from, to, scn, says) = letter;
    if *scn > SCN_LIMIT {
        return None;
    }
    match kind_of(alloc, says) {
        Some(kind) => Some(Msg {
            from: *from,
            to: *to,
            scn: *scn,
            kind,
        }),
        None => None,
    }
}

/// The bytes of a message. None where memory runs out.
pub(crate) fn encoded(alloc: Global, msg: &Msg) -> Option<Bytes>
    requires { KindFits msg.now.kind }
    ensures { IfSome result (λ bytes. message_of bytes ≡ Some msg.now) }
{
    messages_are_read();
    message_fits(msg);
    match encode_msg(alloc, msg) {
        Ok(bytes) => Some(bytes),
        Err(AllocError) => None,
    }
}

/// The bytes of a message, as a test writes it. None where it can't be said, or memory runs out.
pub(crate) fn bytes_of(alloc: Global, letter: &Letter) -> Option<Bytes> {
    let msg = msg_of(alloc, letter)?;
    let bytes = encoded(alloc, &msg);
    drop(msg);
    bytes
}
