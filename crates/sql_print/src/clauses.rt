//! Tables, sums, conditions, columns and lists of a SELECT, as they are printed. Each call fails only where memory runs out.
ghost use Rattle.std.specs.Prelude.{◌≡◌, ◌++◌, ℕ, List, OnOk};
ghost use Rattle.sql_print.specs.Printing as spec;

use crate::pieces::{Printed, put_bracketed, put_each, put_number, put_separated, put_value};
use dtx_values::{Column, Names};
use sql_statement::{Cond, Picked, Set, Sign, Step, Sum, TableRef, Term};
use std::alloc::{AllocError, Global};

/// Adds a table, and its database link where it is remote.
pub(crate) fn put_table(out: &mut Vec<u8>, table: &TableRef) -> Result<(), AllocError>
    ensures { OnOk result (out.new.items ≡ out.old.items ++ spec.table_text table.now) }
{
    out.extend_from_slice(table.name.as_bytes())?;
    if let Some(link) = &table.link {
        out.extend_from_slice(b"@")?;
        out.extend_from_slice(link.as_bytes())?;
    }
    Ok(())
}

fn put_term(alloc: Global, out: &mut Vec<u8>, term: &Term) -> Result<(), AllocError>
    ensures { OnOk result (out.new.items ≡ out.old.items ++ spec.term_text term.now) }
{
    match term {
        Term::Column(name) => out.extend_from_slice(name.as_bytes()),
        Term::Literal(value) => put_value(alloc, out, value),
    }
}

impl Printed for Step {
    ghost text = { spec.step_text };

    fn put_to(&self, alloc: Global, out: &mut Vec<u8>) -> Result<(), AllocError> {
        if self.minus {
            out.extend_from_slice(b" - ")?;
        } else {
            out.extend_from_slice(b" + ")?;
        }
        put_term(alloc, out, &self.term)
    }
}

impl Printed for Sum {
    ghost text = { spec.sum_text };

    fn put_to(&self, alloc: Global, out: &mut Vec<u8>) -> Result<(), AllocError> {
        put_term(alloc, out, &self.first)?;
        put_each(alloc, out, b"", self.rest.as_slice())
    }
}

impl Printed for Set {
    ghost text = { spec.set_text };

    fn put_to(&self, alloc: Global, out: &mut Vec<u8>) -> Result<(), AllocError> {
        out.extend_from_slice(self.column.as_bytes())?;
        out.extend_from_slice(b" = ")?;
        self.to.put_to(alloc, out)
    }
}

fn sign_text(sign: Sign) -> &'static [u8]
    ensures { result.now ≡ spec.sign_text sign }
{
    match sign {
        Sign::Eq => b" = ",
        Sign::Ne => b" <> ",
        Sign::Lt => b" < ",
        Sign::Le => b" <= ",
        Sign::Gt => b" > ",
        Sign::Ge => b" >= ",
    }
}

fn null_text(negated: bool) -> &'static [u8]
    ensures { result.now ≡ spec.null_text negated }
{
    if negated {
        b" IS NOT NULL"
    } else {
        b" IS NULL"
    }
}

impl Printed for Cond {
    ghost text = { spec.cond_text };

    fn put_to(&self, alloc: Global, out: &mut Vec<u8>) -> Result<(), AllocError> {
        match self {
            Cond::Compare {
                column,
                sign,
                literal,
            } => {
                out.extend_from_slice(column.as_bytes())?;
                out.extend_from_slice(sign_text(*sign))?;
                put_value(alloc, out, literal)
            }
            Cond::IsNull { column, negated } => {
                out.extend_from_slice(column.as_bytes())?;
                out.extend_from_slice(null_text(*negated))
            }
        }
    }
}

/// Adds WHERE and the conditions, where there are any.
pub(crate) fn put_where(alloc: Global, out: &mut Vec<u8>, conds: &[Cond]) -> Result<(), AllocError>
    ensures { OnOk result (out.new.items ≡ out.old.items ++ spec.where_text conds.now) }
{
    match conds {
        [] => Ok(()),
        [first, others @ ..] => {
            out.extend_from_slice(b" WHERE ")?;
            first.put_to(alloc, out)?;
            put_each(alloc, out, b" AND ", others)
        }
    }
}

fn put_type(out: &mut Vec<u8>, text_max: Option<u16>) -> Result<(), AllocError>
    ensures { OnOk result (out.new.items ≡ out.old.items ++ spec.type_text text_max) }
{
    match text_max {
        None => out.extend_from_slice(b" NUMBER"),
        Some(width) => {
            out.extend_from_slice(b" VARCHAR2(")?;
            put_number(out, u64::from(width))?;
            out.extend_from_slice(b")")
        }
    }
}

/// Adds a text, where something holds.
pub(crate) fn put_if(out: &mut Vec<u8>, holds: bool, text: &[u8]) -> Result<(), AllocError>
    ensures { OnOk result (out.new.items ≡ out.old.items ++ spec.if_text holds text.now) }
{
    if !holds {
        return Ok(());
    }
    out.extend_from_slice(text)
}

fn put_rules(out: &mut Vec<u8>, not_null: bool, key: bool) -> Result<(), AllocError>
    ensures { OnOk result (out.new.items ≡ out.old.items ++ spec.rules_text not_null key) }
{
    put_if(out, not_null, b" NOT NULL")?;
    put_if(out, key, b" PRIMARY KEY")
}

impl Printed for Column {
    ghost text = { spec.column_text };

    fn put_to(&self, _: Global, out: &mut Vec<u8>) -> Result<(), AllocError> {
        out.extend_from_slice(self.name.as_bytes())?;
        put_type(out, self.text_max)?;
        put_rules(out, self.not_null, self.key)
    }
}

/// Adds the columns of an INSERT, where it names them.
pub(crate) fn put_names(
    alloc: Global,
    out: &mut Vec<u8>,
    names: &Option<Names>,
) -> Result<(), AllocError>
    ensures { OnOk result (out.new.items ≡ out.old.items ++ spec.names_text names.now) }
{
    match names {
        None => Ok(()),
        Some(names) => {
            out.extend_from_slice(b" ")?;
            put_bracketed(alloc, out, names.as_slice())
        }
    }
}

/// Adds the list of a SELECT.
pub(crate) fn put_picked(alloc: Global, out: &mut Vec<u8>, list: &Picked) -> Result<(), AllocError>
    ensures { OnOk result (out.new.items ≡ out.old.items ++ spec.picked_text list.now) }
{
    match list {
        Picked::All => out.extend_from_slice(b"*"),
        Picked::Count => out.extend_from_slice(b"COUNT(*)"),
        Picked::Sum(name) => {
            out.extend_from_slice(b"SUM(")?;
            out.extend_from_slice(name.as_bytes())?;
            out.extend_from_slice(b")")
        }
        Picked::Columns(names) => put_separated(alloc, out, b", ", names.as_slice()),
    }
}
