//! The calls of clients, by the form of the statement.
ghost use Rattle.std.specs.Prelude.{◌≡◌, [], IfOk, IfSome};
ghost use Rattle.node_rules.specs.Inputs.{IsSession};
ghost use Rattle.node_rules.specs.Client.{refuses, begun, read_only_by, savepoint_call as savepoint_call_of, statement_call as statement_call_of, call_turn as call_turn_of, read_turn as read_turn_of};
ghost use Rattle.node_rules.specs.Sessions.{session_at};
ghost use Rattle.node_rules.specs.Refusals.{ora};
ghost use Rattle.node_memory.specs.Parts.{kept_in};
ghost use Rattle.node_drafts.specs.Gives.{GivesDraft};
ghost use Rattle.node_core.specs.Able.{IsAble, EndsWork};

use crate::able::{may_begin, takes_statements};
use crate::committing::commit_call;
use dtx_values::Name;
use node_calls::{
    advise, back_call, create_link, create_synonym, create_table, refuse_text, rollback_by,
    savepoint_call, set_read_only, set_recovery, set_strength, statement_call,
};
use node_commit::{commit_force, purge, rollback_force};
use node_drafts::TurnDraft;
use node_memory::Memory;
use sql_statement::Stmt;
use std::alloc::{AllocError, Global};

// INSERT, UPDATE, DELETE or SELECT.
fn table_call(
    memory: &mut Memory,
    alloc: Global,
    session: u32,
    statement: &Stmt,
) -> Result<TurnDraft, AllocError>
    requires able { IsAble memory.old.place (kept_in memory.old) }
    requires fit { IsSession session }
    ensures gives { IfOk result (λ draft. GivesDraft (statement_call_of memory.old.place (begun memory.old.place (kept_in memory.old) session) session statement.now) (kept_in memory.new) draft) }
    ensures place { memory.new.place ≡ memory.old.place }
{
    takes_statements(memory);
    may_begin(memory, session);
    statement_call(memory, alloc, session, statement)
}

// SET TRANSACTION READ ONLY.
fn read_only_call(memory: &mut Memory, alloc: Global, session: u32) -> Result<TurnDraft, AllocError>
    requires able { IsAble memory.old.place (kept_in memory.old) }
    requires fit { IsSession session }
    ensures gives { IfOk result (λ draft. GivesDraft (read_only_by memory.old.place (kept_in memory.old) session (session_at memory.old.sessions session).root) (kept_in memory.new) draft) }
    ensures place { memory.new.place ≡ memory.old.place }
{
    may_begin(memory, session);
    set_read_only(memory, alloc, session)
}

// SAVEPOINT.
fn mark_call(
    memory: &mut Memory,
    alloc: Global,
    session: u32,
    name: &Name,
) -> Result<TurnDraft, AllocError>
    requires able { IsAble memory.old.place (kept_in memory.old) }
    requires fit { IsSession session }
    ensures gives { IfOk result (λ draft. GivesDraft (savepoint_call_of (begun memory.old.place (kept_in memory.old) session) session name.now) (kept_in memory.new) draft) }
    ensures place { memory.new.place ≡ memory.old.place }
{
    may_begin(memory, session);
    savepoint_call(memory, alloc, session, name)
}

// A statement of a client.
fn call_turn(
    memory: &mut Memory,
    alloc: Global,
    session: u32,
    statement: &Stmt,
) -> Result<TurnDraft, AllocError>
    requires able { IsAble memory.old.place (kept_in memory.old) }
    requires fit { IsSession session }
    requires commit { EndsWork (kept_in memory.old) session statement.now }
    ensures gives { IfOk result (λ draft. GivesDraft (call_turn_of memory.old.place (kept_in memory.old) session statement.now) (kept_in memory.new) draft) }
    ensures place { memory.new.place ≡ memory.old.place }
{
    match statement {
        Stmt::CreateTable(table) => create_table(memory, alloc, session, table),
        Stmt::CreateLink(link) => create_link(memory, alloc, session, link),
        Stmt::CreateSynonym(synonym) => create_synonym(memory, alloc, session, synonym),
        Stmt::Insert { .. } | Stmt::Update { .. } | Stmt::Delete { .. } | Stmt::Select { .. } => {
            table_call(memory, alloc, session, statement)
        }
        Stmt::Commit { comment } => commit_call(memory, alloc, session, comment),
        Stmt::CommitForce { id, scn } => commit_force(memory, alloc, session, id.as_slice(), *scn),
        Stmt::Rollback => rollback_by(memory, alloc, session),
        Stmt::RollbackForce { id } => rollback_force(memory, alloc, session, id.as_slice()),
        Stmt::Advise(advice) => advise(memory, alloc, session, *advice),
        Stmt::Recovery(on) => set_recovery(memory, alloc, session, *on),
        Stmt::SetStrength(strength) => set_strength(memory, alloc, session, *strength),
        Stmt::SetReadOnly => read_only_call(memory, alloc, session),
        Stmt::Savepoint(name) => mark_call(memory, alloc, session, name),
        Stmt::RollbackTo(name) => back_call(memory, alloc, session, name),
        Stmt::PurgeMixed { id } => purge(memory, alloc, session, true, id.as_slice()),
        Stmt::PurgeLost { id } => purge(memory, alloc, session, false, id.as_slice()),
    }
}

// A text outside the grammar: ORA-00900.
fn text_refused(memory: &Memory, alloc: Global, session: u32) -> Result<TurnDraft, AllocError>
    ensures gives { IfOk result (λ draft. GivesDraft (refuses (kept_in memory.now) session (ora 900 [])) (kept_in memory.now) draft) }
{
    let draft = refuse_text(alloc, session)?;
    Ok(draft)
}

/// A call of a client's session, ORA-00900 where its text is outside the grammar.
pub(crate) fn read_turn(
    memory: &mut Memory,
    alloc: Global,
    session: u32,
    statement: &Option<Stmt>,
) -> Result<TurnDraft, AllocError>
    requires able { IsAble memory.old.place (kept_in memory.old) }
    requires fit { IsSession session }
    requires commit { IfSome statement.now (EndsWork (kept_in memory.old) session) }
    ensures gives { IfOk result (λ draft. GivesDraft (read_turn_of memory.old.place (kept_in memory.old) session statement.now) (kept_in memory.new) draft) }
    ensures place { memory.new.place ≡ memory.old.place }
{
    match statement {
        None => text_refused(memory, alloc, session),
        Some(statement) => call_turn(memory, alloc, session, statement),
    }
}
