//! The lines of a transaction, as they are written.
ghost use Rattle.std.specs.Prelude.{◌≡◌, ◌≤◌, ◌++◌, OnOk, decimal, codes};
ghost use Rattle.make_script.specs.Script.{commit_line, digit, end_lines, line_text, lines_of, loses, loss_line, other_row, own_row, recovery_line, text_of, values_text};

use crate::transaction::Transaction;
use itoa::Buffer;
use std::alloc::AllocError;

// Adds a number in decimal.
fn put_number(out: &mut Vec<u8>, number: u32) -> Result<(), AllocError>
    ensures { OnOk result (out.new.items ≡ out.old.items ++ decimal number) }
{
    out.extend_from_slice(Buffer::new().format(number).as_bytes())
}

// Adds the number of a node, which is of one digit.
fn put_node(out: &mut Vec<u8>, node: u32) -> Result<(), AllocError>
    requires { node ≤ 4 }
    ensures { OnOk result (out.new.items ≡ out.old.items ++ digit node) }
{
    out.push(b'0' + node as u8)?;
    Ok(())
}

// Adds the begin of a call in the session of a node.
fn put_caller(out: &mut Vec<u8>, node: u32) -> Result<(), AllocError>
    requires { node ≤ 4 }
    ensures { OnOk result (out.new.items ≡ out.old.items ++ (codes "AT N" ++ (digit node ++ codes " SESSION 1: "))) }
{
    out.extend_from_slice(b"AT N")?;
    put_node(out, node)?;
    out.extend_from_slice(b" SESSION 1: ")?;
    Ok(())
}

// Adds the values of a row, and the end of its line.
fn put_values(out: &mut Vec<u8>, number: u32, value: u32) -> Result<(), AllocError>
    ensures { OnOk result (out.new.items ≡ out.old.items ++ (values_text number value ++ codes ";\n")) }
{
    out.extend_from_slice(b" VALUES (")?;
    put_number(out, number)?;
    out.extend_from_slice(b", ")?;
    put_number(out, value)?;
    out.extend_from_slice(b");\n")
}

fn put_own_row(out: &mut Vec<u8>, t: Transaction) -> Result<(), AllocError>
    requires { t.root ≤ 4 }
    ensures { OnOk result (out.new.items ≡ out.old.items ++ line_text (own_row t.root t.number t.value)) }
{
    put_caller(out, t.root)?;
    out.extend_from_slice(b"INSERT INTO T")?;
    put_values(out, t.number, t.value)?;
    Ok(())
}

fn put_other_row(out: &mut Vec<u8>, t: Transaction) -> Result<(), AllocError>
    requires root { t.root ≤ 4 }
    requires other { t.other ≤ 4 }
    ensures { OnOk result (out.new.items ≡ out.old.items ++ line_text (other_row t.root t.other t.number t.value)) }
{
    put_caller(out, t.root)?;
    out.extend_from_slice(b"INSERT INTO T@L")?;
    put_node(out, t.other)?;
    put_values(out, t.number, t.value)?;
    Ok(())
}

fn put_commit(out: &mut Vec<u8>, node: u32) -> Result<(), AllocError>
    requires { node ≤ 4 }
    ensures { OnOk result (out.new.items ≡ out.old.items ++ line_text (commit_line node)) }
{
    put_caller(out, node)?;
    out.extend_from_slice(b"COMMIT;\n")?;
    Ok(())
}

fn put_loss(out: &mut Vec<u8>, from: u32, to: u32) -> Result<(), AllocError>
    requires from { from ≤ 4 }
    requires to { to ≤ 4 }
    ensures { OnOk result (out.new.items ≡ out.old.items ++ line_text (loss_line from to)) }
{
    out.extend_from_slice(b"LOSE NEXT COMMITTED FROM N")?;
    put_node(out, from)?;
    out.extend_from_slice(b" TO N")?;
    put_node(out, to)?;
    out.extend_from_slice(b";\n")?;
    Ok(())
}

fn put_recovery(out: &mut Vec<u8>, node: u32) -> Result<(), AllocError>
    requires { node ≤ 4 }
    ensures { OnOk result (out.new.items ≡ out.old.items ++ line_text (recovery_line node)) }
{
    out.extend_from_slice(b"RECO N")?;
    put_node(out, node)?;
    out.extend_from_slice(b";\n")
}

// Adds COMMIT, with what stands before it and after it.
fn put_end(out: &mut Vec<u8>, t: Transaction) -> Result<(), AllocError>
    requires root { t.root ≤ 4 }
    requires other { t.other ≤ 4 }
    ensures { OnOk result (out.new.items ≡ out.old.items ++ text_of (end_lines (loses t) t)) }
{
    if t.number % 10 != 0 {
        return put_commit(out, t.root);
    }
    put_loss(out, t.root.max(t.other), t.root.min(t.other))?;
    put_commit(out, t.root)?;
    put_recovery(out, t.root.min(t.other))
}

/// Adds the lines of a transaction. It is an error only where there is no memory.
pub fn put_transaction(out: &mut Vec<u8>, t: Transaction) -> Result<(), AllocError>
    requires root { t.root ≤ 4 }
    requires other { t.other ≤ 4 }
    ensures { OnOk result (out.new.items ≡ out.old.items ++ text_of (lines_of t)) }
{
    put_own_row(out, t)?;
    put_other_row(out, t)?;
    put_end(out, t)
}
