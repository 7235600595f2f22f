//! The bytes of statements.
ghost use Rattle.std.specs.Prelude.{◌≡◌, ◌++◌, OnOk};
ghost use Rattle.std.specs.Io.{StartsWith};
ghost use Rattle.byte_format.specs.Reads.{ReadsInMemory};
ghost use Rattle.sql_print.specs.Printing.{printed};
ghost use Rattle.msg_codec.specs.Statement.{statement_as};

use byte_format::{Field, TakeErr, put_run_u32, take_run_u32};
use sql_parse::{ParseErr, parse};
use sql_print::print_stmt;
use sql_statement::Stmt;
use std::alloc::{AllocError, Global};

/// A statement: written as its printed text, after the text's length of four bytes, and read from any text of it.
pub(crate) struct StatementField;

impl Field for StatementField {
    type Value = Stmt;

    ghost format = { statement_as printed };

    fn put_into(out: &mut Vec<u8>, statement: &Stmt) -> Result<(), AllocError> {
        let text = print_stmt(*out.allocator(), statement)?;
        put_run_u32(out, text.as_slice())
    }

    fn take_from(alloc: Global, bytes: &[u8]) -> Result<(Stmt, &[u8]), TakeErr> {
        let (text, rest) = take_run_u32(bytes)?;
        match parse(alloc, text) {
            Ok(statement) => Ok((statement, rest)),
            Err(ParseErr::BadSql) => Err(TakeErr::NoSpelling),
            Err(ParseErr::NoMemory) => Err(TakeErr::NoMemory),
        }
    }
}
