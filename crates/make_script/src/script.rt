//! The whole script.
ghost use Rattle.std.specs.Prelude.{◌≡◌, ◌≤◌, ◌++◌, Ok, length, IfOk, OnOk};
ghost use Rattle.std.specs.List.{flat_map};
ghost use Rattle.dtx_values.specs.Limits.{script_limit};
ghost use Rattle.script_read.specs.Asked.{asked};
ghost use Rattle.script_read.specs.Sound.{IsOfAScript};
ghost use Rattle.script_read.specs.Spelled.{IsScript};
ghost use Rattle.make_script.specs.Draws.{transactions};
ghost use Rattle.make_script.specs.Script.{first_lines, last_lines, lines_of, script_of, text_of, transaction_count};

use crate::laws::made_scripts_are_read;
use crate::lines::put_transaction;
use crate::transaction::{Transaction, next};
use script_read::{Commands, ScriptErr, read_script};
use std::alloc::{AllocError, Global};

// Adds the lines before the transactions.
fn put_first_lines(out: &mut Vec<u8>) -> Result<(), AllocError>
    ensures { OnOk result (out.new.items ≡ out.old.items ++ text_of first_lines) }
{
    out.extend_from_slice(
        b"NODE N1 STRENGTH 10;\n\
        NODE N2 STRENGTH 20;\n\
        NODE N3 STRENGTH 30;\n\
        NODE N4 STRENGTH 40;\n\
        AT N1 SESSION 1: CREATE TABLE T (K NUMBER PRIMARY KEY, V NUMBER);\n\
        AT N2 SESSION 1: CREATE TABLE T (K NUMBER PRIMARY KEY, V NUMBER);\n\
        AT N3 SESSION 1: CREATE TABLE T (K NUMBER PRIMARY KEY, V NUMBER);\n\
        AT N4 SESSION 1: CREATE TABLE T (K NUMBER PRIMARY KEY, V NUMBER);\n\
        AT N1 SESSION 1: CREATE DATABASE LINK L2 USING 'N2';\n\
        AT N1 SESSION 1: CREATE DATABASE LINK L3 USING 'N3';\n\
        AT N1 SESSION 1: CREATE DATABASE LINK L4 USING 'N4';\n\
        AT N2 SESSION 1: CREATE DATABASE LINK L1 USING 'N1';\n\
        AT N2 SESSION 1: CREATE DATABASE LINK L3 USING 'N3';\n\
        AT N2 SESSION 1: CREATE DATABASE LINK L4 USING 'N4';\n\
        AT N3 SESSION 1: CREATE DATABASE LINK L1 USING 'N1';\n\
        AT N3 SESSION 1: CREATE DATABASE LINK L2 USING 'N2';\n\
        AT N3 SESSION 1: CREATE DATABASE LINK L4 USING 'N4';\n\
        AT N4 SESSION 1: CREATE DATABASE LINK L1 USING 'N1';\n\
        AT N4 SESSION 1: CREATE DATABASE LINK L2 USING 'N2';\n\
        AT N4 SESSION 1: CREATE DATABASE LINK L3 USING 'N3';\n",
    )?;
    Ok(())
}

// Adds the lines of the transactions.
fn put_transactions(out: &mut Vec<u8>, number: u16) -> Result<(), AllocError>
    ensures { OnOk result (out.new.items ≡ out.old.items ++ text_of (flat_map lines_of (transactions number transaction_count))) }
{
    let mut draw = u32::from(number);
    for count in 0..500u32 {
        let first = next(draw);
        let second = next(first);
        let third = next(second);
        put_transaction(out, Transaction::drawn(count + 1, first, second, third))?;
        draw = third;
    }
    Ok(())
}

// Adds the lines behind them.
fn put_last_lines(out: &mut Vec<u8>) -> Result<(), AllocError>
    ensures { OnOk result (out.new.items ≡ out.old.items ++ text_of last_lines) }
{
    out.extend_from_slice(
        b"AT N1 SESSION 1: SELECT COUNT(*) FROM T;\n\
        AT N2 SESSION 1: SELECT COUNT(*) FROM T;\n\
        AT N3 SESSION 1: SELECT COUNT(*) FROM T;\n\
        AT N4 SESSION 1: SELECT COUNT(*) FROM T;\n",
    )?;
    Ok(())
}

/// The script of a number. It is an error only where there is no memory.
pub fn make_script(alloc: Global, number: u16) -> Result<Vec<u8>, AllocError>
    ensures { IfOk result (λ text. text.items ≡ script_of number) }
{
    let mut out = Vec::new(alloc);
    put_first_lines(&mut out)?;
    put_transactions(&mut out, number)?;
    put_last_lines(&mut out)?;
    Ok(out)
}

/// The commands that the script of a number asks for. It is an error only where there is no memory.
pub fn made_commands(alloc: Global, number: u16) -> Result<Commands, AllocError>
    ensures asked { IfOk result (λ commands. asked (script_of number) ≡ Ok commands) }
    ensures spelled { IfOk result (λ commands. IsScript commands (script_of number)) }
    ensures sound { IfOk result IsOfAScript }
    ensures within { length (script_of number) ≤ script_limit }
{
    made_scripts_are_read();
    let text = make_script(alloc, number)?;
    match read_script(alloc, &text) {
        Ok(commands) => Ok(commands),
        Err(ScriptErr::NoMemory) => Err(AllocError),
        // The script of a number is a good one.
        Err(
            ScriptErr::Bad {
                line: _line,
                why: _why,
            },
        ) => unreachable!(),
    }
}
