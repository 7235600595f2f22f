//! Statements as texts. Each call fails only where memory runs out.
ghost use Rattle.std.specs.Prelude.{◌≡◌, ◌++◌, ℕ, List, IfOk, OnOk};
ghost use Rattle.sql_print.specs.Printing as spec;
ghost use Rattle.sql_print.specs.Printing.{printed};
ghost use Rattle.sql_parse.specs.Statement.{IsStatement};

use crate::clauses::{put_if, put_names, put_picked, put_table, put_where};
use crate::pieces::{put_bracketed, put_number, put_quoted, put_separated};
use dtx_values::{Advice, Bytes, Column, Link, Listing, Names, Synonym, Table};
use sql_statement::{Conds, Picked, Set, Stmt, Sum, Sums, TableRef};
use std::alloc::{AllocError, Global};

fn put_columns(alloc: Global, out: &mut Vec<u8>, columns: &[Column]) -> Result<(), AllocError>
    ensures { OnOk result (out.new.items ≡ out.old.items ++ spec.columns_text columns.now) }
{
    out.extend_from_slice(b" ")?;
    put_bracketed(alloc, out, columns)
}

fn put_create_table(alloc: Global, out: &mut Vec<u8>, table: &Table) -> Result<(), AllocError>
    ensures { OnOk result (out.new.items ≡ out.old.items ++ spec.create_table_text table.now) }
{
    out.extend_from_slice(b"CREATE TABLE ")?;
    out.extend_from_slice(table.name.as_bytes())?;
    put_columns(alloc, out, table.columns.as_slice())?;
    Ok(())
}

fn put_create_link(out: &mut Vec<u8>, link: &Link) -> Result<(), AllocError>
    ensures { OnOk result (out.new.items ≡ out.old.items ++ spec.create_link_text link.now) }
{
    out.extend_from_slice(b"CREATE DATABASE LINK ")?;
    out.extend_from_slice(link.name.as_bytes())?;
    out.extend_from_slice(b" USING ")?;
    put_quoted(out, link.target.as_bytes())
}

fn put_target(out: &mut Vec<u8>, synonym: &Synonym) -> Result<(), AllocError>
    ensures { OnOk result (out.new.items ≡ out.old.items ++ spec.target_text synonym.now) }
{
    out.extend_from_slice(b" FOR ")?;
    out.extend_from_slice(synonym.table.as_bytes())?;
    out.extend_from_slice(b"@")?;
    out.extend_from_slice(synonym.link.as_bytes())
}

fn put_create_synonym(out: &mut Vec<u8>, synonym: &Synonym) -> Result<(), AllocError>
    ensures { OnOk result (out.new.items ≡ out.old.items ++ spec.create_synonym_text synonym.now) }
{
    out.extend_from_slice(b"CREATE SYNONYM ")?;
    out.extend_from_slice(synonym.name.as_bytes())?;
    put_target(out, synonym)?;
    Ok(())
}

fn put_values(alloc: Global, out: &mut Vec<u8>, values: &[Sum]) -> Result<(), AllocError>
    ensures { OnOk result (out.new.items ≡ out.old.items ++ spec.values_text values.now) }
{
    out.extend_from_slice(b" VALUES ")?;
    put_bracketed(alloc, out, values)
}

fn put_insert(
    alloc: Global,
    out: &mut Vec<u8>,
    table: &TableRef,
    columns: &Option<Names>,
    values: &Sums,
) -> Result<(), AllocError>
    ensures { OnOk result (out.new.items ≡ out.old.items ++ spec.insert_text table.now columns.now values.now) }
{
    out.extend_from_slice(b"INSERT INTO ")?;
    put_table(out, table)?;
    put_names(alloc, out, columns)?;
    put_values(alloc, out, values.as_slice())?;
    Ok(())
}

fn put_update(
    alloc: Global,
    out: &mut Vec<u8>,
    table: &TableRef,
    sets: &[Set],
    conds: &Conds,
) -> Result<(), AllocError>
    ensures { OnOk result (out.new.items ≡ out.old.items ++ spec.update_text table.now sets.now conds.now) }
{
    out.extend_from_slice(b"UPDATE ")?;
    put_table(out, table)?;
    out.extend_from_slice(b" SET ")?;
    put_separated(alloc, out, b", ", sets)?;
    put_where(alloc, out, conds.as_slice())
}

fn put_delete(
    alloc: Global,
    out: &mut Vec<u8>,
    table: &TableRef,
    conds: &Conds,
) -> Result<(), AllocError>
    ensures { OnOk result (out.new.items ≡ out.old.items ++ spec.delete_text table.now conds.now) }
{
    out.extend_from_slice(b"DELETE FROM ")?;
    put_table(out, table)?;
    put_where(alloc, out, conds.as_slice())?;
    Ok(())
}

fn put_source(
    alloc: Global,
    out: &mut Vec<u8>,
    table: &TableRef,
    conds: &Conds,
    for_update: bool,
) -> Result<(), AllocError>
    ensures { OnOk result (out.new.items ≡ out.old.items ++ spec.source_text table.now conds.now for_update) }
{
    out.extend_from_slice(b" FROM ")?;
    put_table(out, table)?;
    put_where(alloc, out, conds.as_slice())?;
    put_if(out, for_update, b" FOR UPDATE")?;
    Ok(())
}

fn put_select(
    alloc: Global,
    out: &mut Vec<u8>,
    list: &Picked,
    table: &TableRef,
    conds: &Conds,
    for_update: bool,
) -> Result<(), AllocError>
    ensures { OnOk result (out.new.items ≡ out.old.items ++ spec.select_text list.now table.now conds.now for_update) }
{
    out.extend_from_slice(b"SELECT ")?;
    put_picked(alloc, out, list)?;
    put_source(alloc, out, table, conds, for_update)
}

fn put_commit(out: &mut Vec<u8>, comment: &Option<Bytes>) -> Result<(), AllocError>
    ensures { OnOk result (out.new.items ≡ out.old.items ++ spec.commit_text comment.now) }
{
    match comment {
        None => out.extend_from_slice(b"COMMIT"),
        Some(comment) => {
            out.extend_from_slice(b"COMMIT COMMENT ")?;
            put_quoted(out, comment.as_slice())
        }
    }
}

fn put_scn(out: &mut Vec<u8>, scn: Option<u64>) -> Result<(), AllocError>
    ensures { OnOk result (out.new.items ≡ out.old.items ++ spec.scn_text scn) }
{
    match scn {
        None => Ok(()),
        Some(scn) => {
            out.extend_from_slice(b", ")?;
            put_number(out, scn)
        }
    }
}

fn put_commit_force(out: &mut Vec<u8>, id: &Bytes, scn: Option<u64>) -> Result<(), AllocError>
    ensures { OnOk result (out.new.items ≡ out.old.items ++ spec.commit_force_text id.now scn) }
{
    out.extend_from_slice(b"COMMIT FORCE ")?;
    put_quoted(out, id.as_slice())?;
    put_scn(out, scn)
}

fn advise_text(advice: Option<Advice>) -> &'static [u8]
    ensures { result.now ≡ spec.advise_text advice }
{
    match advice {
        None => b"ALTER SESSION ADVISE NOTHING",
        Some(Advice::Commit) => b"ALTER SESSION ADVISE COMMIT",
        Some(Advice::Rollback) => b"ALTER SESSION ADVISE ROLLBACK",
    }
}

fn recovery_text(on: bool) -> &'static [u8]
    ensures { result.now ≡ spec.recovery_text on }
{
    if on {
        b"ALTER SYSTEM ENABLE DISTRIBUTED RECOVERY"
    } else {
        b"ALTER SYSTEM DISABLE DISTRIBUTED RECOVERY"
    }
}

fn put_argument(out: &mut Vec<u8>, id: &Bytes) -> Result<(), AllocError>
    ensures { OnOk result (out.new.items ≡ out.old.items ++ spec.argument_text id.now) }
{
    out.extend_from_slice(b"(")?;
    put_quoted(out, id.as_slice())?;
    out.extend_from_slice(b")")
}

fn put_strength(out: &mut Vec<u8>, strength: u8) -> Result<(), AllocError>
    ensures { OnOk result (out.new.items ≡ out.old.items ++ spec.strength_text strength) }
{
    out.extend_from_slice(b"ALTER SYSTEM SET COMMIT_POINT_STRENGTH = ")?;
    put_number(out, strength as u64)
}

fn put_read_only(out: &mut Vec<u8>) -> Result<(), AllocError>
    ensures { OnOk result (out.new.items ≡ out.old.items ++ spec.read_only_text) }
{
    out.extend_from_slice(b"SET TRANSACTION READ ONLY")
}

fn put_purge_mixed(out: &mut Vec<u8>, id: &Bytes) -> Result<(), AllocError>
    ensures { OnOk result (out.new.items ≡ out.old.items ++ spec.purge_mixed_text id.now) }
{
    out.extend_from_slice(b"EXECUTE DBMS_TRANSACTION.PURGE_MIXED")?;
    put_argument(out, id)?;
    Ok(())
}

fn put_purge_lost(out: &mut Vec<u8>, id: &Bytes) -> Result<(), AllocError>
    ensures { OnOk result (out.new.items ≡ out.old.items ++ spec.purge_lost_text id.now) }
{
    out.extend_from_slice(b"EXECUTE DBMS_TRANSACTION.PURGE_LOST_DB_ENTRY")?;
    put_argument(out, id)?;
    Ok(())
}

#[tactic(auto, unfolding(crate::specs::Printing::printed))]
fn put_statement(alloc: Global, out: &mut Vec<u8>, statement: &Stmt) -> Result<(), AllocError>
    ensures { OnOk result (out.new.items ≡ out.old.items ++ printed statement.now) }
{
    match statement {
        Stmt::CreateTable(table) => put_create_table(alloc, out, table),
        Stmt::CreateLink(link) => put_create_link(out, link),
        Stmt::CreateSynonym(synonym) => put_create_synonym(out, synonym),
        Stmt::Insert {
            table,
            columns,
            values,
        } => put_insert(alloc, out, table, columns, values),
        Stmt::Update { table, sets, conds } => {
            put_update(alloc, out, table, sets.as_slice(), conds)
        }
        Stmt::Delete { table, conds } => put_delete(alloc, out, table, conds),
        Stmt::Select {
            list,
            table,
            conds,
            for_update,
        } => put_select(alloc, out, list, table, conds, *for_update),
        Stmt::Commit { comment } => put_commit(out, comment),
        Stmt::CommitForce { id, scn } => put_commit_force(out, id, *scn),
        Stmt::Rollback => out.extend_from_slice(b"ROLLBACK"),
        Stmt::RollbackForce { id } => {
            out.extend_from_slice(b"ROLLBACK FORCE ")?;
            put_quoted(out, id.as_slice())
        }
        Stmt::Advise(advice) => out.extend_from_slice(advise_text(*advice)),
        Stmt::Recovery(on) => out.extend_from_slice(recovery_text(*on)),
        Stmt::SetStrength(strength) => put_strength(out, *strength),
        Stmt::SetReadOnly => put_read_only(out),
        Stmt::Savepoint(name) => {
            out.extend_from_slice(b"SAVEPOINT ")?;
            out.extend_from_slice(name.as_bytes())
        }
        Stmt::RollbackTo(name) => {
            out.extend_from_slice(b"ROLLBACK TO ")?;
            out.extend_from_slice(name.as_bytes())
        }
        Stmt::PurgeMixed { id } => put_purge_mixed(out, id),
        Stmt::PurgeLost { id } => put_purge_lost(out, id),
    }
}

/// The printed text of a statement. Fails where memory runs out.
pub fn print_stmt(alloc: Global, statement: &Stmt) -> Result<Bytes, AllocError>
    ensures text { IfOk result (λ text. text ≡ printed statement.now) }
    // It spells the statement, if any text does.
    ensures again { (text : List ℕ) → IsStatement statement.now text → IfOk result (λ text. IsStatement statement.now text) }
{
    let mut out = Vec::new(alloc);
    put_statement(alloc, &mut out, statement)?;
    Ok(Listing::of(out))
}
