//! CREATE TABLE, CREATE DATABASE LINK, CREATE SYNONYM, and ALTER SYSTEM of recovery and of the commit point strength: each writes
//! one record.
ghost use Rattle.std.specs.Prelude.{◌≡◌, [], IfOk};
ghost use Rattle.dtx_values.specs.declared.answer.Answer.TheVariants.{Refused};
ghost use Rattle.sql_check.specs.Refusals.{ora};
ghost use Rattle.node_rules.specs.NodeState.{NodeState};
ghost use Rattle.node_rules.specs.Client.{writes as writes_of, refuses as refuses_of, create_table as create_table_of, create_link as create_link_of, create_synonym as create_synonym_of, set_recovery as set_recovery_of, set_strength as set_strength_of};
ghost use Rattle.node_ready_laws.specs.Rows.{HasRows};
ghost use Rattle.node_ready_laws.specs.Following.{MayFollow};
ghost use Rattle.node_drafts.specs.Gives.{GivesDraft};
ghost use Rattle.node_memory.specs.Parts.{kept_in, stored_in};
ghost use Rattle.node_memory.specs.Room.{HasRoomFor};

use dtx_values::{Answer, Done, Duplicate, INVALID_SQL, Link, Listing, Synonym, Table};
use node_drafts::{LINK_USED, NAME_USED, TurnDraft, ended};
use node_memory::Memory;
use redo_record::{Param, RedoRecord};
use sql_check::plain;
use std::alloc::{AllocError, Global};

/// A text that no statement has: ORA-00900.
pub fn refuse_text(alloc: Global, session: u32) -> Result<TurnDraft, AllocError>
    ensures gives { IfOk result (λ draft. (k : NodeState) → GivesDraft (refuses_of k session (ora 900 [])) k draft) }
{
    refuse(alloc, session, INVALID_SQL)
}

/// The call of a session ends with a refusal that names nothing.
pub(crate) fn refuse(alloc: Global, session: u32, code: u16) -> Result<TurnDraft, AllocError>
    ensures { IfOk result (λ draft. (k : NodeState) → GivesDraft (refuses_of k session (ora code [])) k draft) }
{
    TurnDraft::ending(alloc, session, Answer::Refused(plain(alloc, code)))
}

/// CREATE TABLE, or ORA-00955 where a table or a synonym has the name.
pub fn create_table(
    memory: &mut Memory,
    alloc: Global,
    session: u32,
    table: &Table,
) -> Result<TurnDraft, AllocError>
    requires { HasRows (kept_in memory.old) }
    ensures gives { IfOk result (λ draft. GivesDraft (create_table_of (kept_in memory.old) session table.now) (kept_in memory.new) draft) }
    ensures place { memory.new.place ≡ memory.old.place }
{
    if memory.catalog.is_used(&table.name) {
        refuse(alloc, session, NAME_USED)
    } else {
        let redo = RedoRecord::Table(table.copy(alloc)?);
        write(memory, alloc, session, redo, Done::TableMade)
    }
}

/// CREATE DATABASE LINK, or ORA-02011 where a link has the name.
pub fn create_link(
    memory: &mut Memory,
    alloc: Global,
    session: u32,
    link: &Link,
) -> Result<TurnDraft, AllocError>
    ensures gives { IfOk result (λ draft. GivesDraft (create_link_of (kept_in memory.old) session link.now) (kept_in memory.new) draft) }
    ensures place { memory.new.place ≡ memory.old.place }
{
    if memory.catalog.is_link_used(&link.name) {
        refuse(alloc, session, LINK_USED)
    } else {
        let redo = RedoRecord::Link(link.copy(alloc)?);
        write(memory, alloc, session, redo, Done::LinkMade)
    }
}

/// CREATE SYNONYM, or ORA-00955 where a table or a synonym has the name.
pub fn create_synonym(
    memory: &mut Memory,
    alloc: Global,
    session: u32,
    synonym: &Synonym,
) -> Result<TurnDraft, AllocError>
    ensures gives { IfOk result (λ draft. GivesDraft (create_synonym_of (kept_in memory.old) session synonym.now) (kept_in memory.new) draft) }
    ensures place { memory.new.place ≡ memory.old.place }
{
    if memory.catalog.is_used(&synonym.name) {
        refuse(alloc, session, NAME_USED)
    } else {
        let redo = RedoRecord::Synonym(synonym.copy(alloc)?);
        write(memory, alloc, session, redo, Done::SynonymMade)
    }
}

/// ALTER SYSTEM ENABLE or DISABLE DISTRIBUTED RECOVERY.
pub fn set_recovery(
    memory: &mut Memory,
    alloc: Global,
    session: u32,
    on: bool,
) -> Result<TurnDraft, AllocError>
    ensures gives { IfOk result (λ draft. GivesDraft (set_recovery_of (kept_in memory.old) session on) (kept_in memory.new) draft) }
    ensures place { memory.new.place ≡ memory.old.place }
{
    let redo = RedoRecord::Param(Param::Recovery(on));
    write(memory, alloc, session, redo, Done::SystemAltered)
}

/// ALTER SYSTEM SET COMMIT_POINT_STRENGTH.
pub fn set_strength(
    memory: &mut Memory,
    alloc: Global,
    session: u32,
    strength: u8,
) -> Result<TurnDraft, AllocError>
    ensures gives { IfOk result (λ draft. GivesDraft (set_strength_of (kept_in memory.old) session strength) (kept_in memory.new) draft) }
    ensures place { memory.new.place ≡ memory.old.place }
{
    let redo = RedoRecord::Param(Param::Strength(strength));
    write(memory, alloc, session, redo, Done::SystemAltered)
}

// One record is written, and the call of a session ends.
fn write(
    memory: &mut Memory,
    alloc: Global,
    session: u32,
    redo: RedoRecord,
    done: Done,
) -> Result<TurnDraft, AllocError>
    requires follow { MayFollow (stored_in memory.old) redo }
    requires room { HasRoomFor memory.old.store redo }
    ensures gives { IfOk result (λ draft. GivesDraft (writes_of (kept_in memory.old) session redo done) (kept_in memory.new) draft) }
    ensures place { memory.new.place ≡ memory.old.place }
{
    match ended(alloc, session, Answer::Did(done, 0)) {
        Err(error) => {
            drop(redo);
            Err(error)
        }
        Ok(ends) => match memory.take_in(alloc, &redo) {
            Err(error) => {
                drop(redo);
                drop(ends);
                Err(error)
            }
            Ok(()) => Ok(TurnDraft::writing(redo, Listing::new(alloc), ends)),
        },
    }
}
