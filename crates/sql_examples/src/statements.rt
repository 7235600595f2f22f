//! What no clause says of statements: texts that are statements, texts that are none, and how statements are printed.
use sql_parse::{ParseErr, parse};
use sql_print::print_stmt;
use sql_statement::Stmt;
use std::alloc::{AllocError, Global};
use token_grammar::ReadErr;

/// The statement of a text.
pub(crate) fn statement(alloc: Global, text: &[u8]) -> Result<Box<Stmt>, ReadErr> {
    match parse(alloc, text) {
        Ok(statement) => Ok(Box::new(alloc, statement)?),
        Err(ParseErr::BadSql) => Err(ReadErr::Bad),
        Err(ParseErr::NoMemory) => Err(ReadErr::NoMemory),
    }
}

/// Why a text is no statement.
fn refusal(alloc: Global, text: &[u8]) -> Option<ReadErr> {
    match statement(alloc, text) {
        Ok(statement) => {
            drop(statement);
            None
        }
        Err(error) => Some(error),
    }
}

fn is_statement(alloc: Global, text: &[u8]) -> bool {
    refusal(alloc, text).is_none()
}

fn is_refused(alloc: Global, text: &[u8]) -> bool {
    refusal(alloc, text) == Some(ReadErr::Bad)
}

/// Texts that are statements.
const STATEMENTS: [&[u8]; 38] = [
    b"create table stock (item varchar2(2000) primary key not null, n number)",
    b"CREATE DATABASE LINK hq.acme.com USING 'hq'",
    b"CREATE PUBLIC DATABASE LINK L CONNECT TO scott IDENTIFIED BY tiger USING 'a.b'",
    b"CREATE DATABASE LINK CONNECT USING 'X'",
    b"CREATE SYNONYM S FOR T@hq.acme.com",
    b"INSERT INTO T (A, B) VALUES (1 - -2 + NULL, 'x')",
    b"INSERT INTO T @ L VALUES (9223372036854775807)",
    b"UPDATE T@L SET A = B + 1 - C, B = '' WHERE K <> 1AND V IS NOT NULL",
    b"DELETE FROM T WHERE A != 'x' AND B >= -1 AND C <= 2 AND D < 3 AND E > 4",
    b"delete t",
    b"SELECT * FROM T FOR UPDATE",
    b"SELECT COUNT ( * ) FROM T@L WHERE A IS NULL",
    b"SELECT SUM(N) FROM T",
    b"SELECT COUNT, SUM, WORK FROM COMMIT FOR UPDATE",
    b" COMMIT\r\n\tWORK ",
    b"COMMIT COMMENT ''",
    b"COMMIT WORK FORCE '1.65.1', 281474976710655",
    b"COMMIT FORCE ''",
    b"ROLLBACK",
    b"ROLLBACK WORK FORCE 'HQ.00000001.1.65.1'",
    b"set transaction\tread only",
    b"SAVEPOINT a",
    b"savepoint SAVEPOINT",
    b"SAVEPOINT TO",
    b"ROLLBACK TO a",
    b"ROLLBACK WORK TO SAVEPOINT a",
    b"rollback to savepoint",
    b"ROLLBACK TO SAVEPOINT SAVEPOINT",
    b"ROLLBACK TO TO",
    b"ROLLBACK TO FORCE",
    b"ALTER SESSION ADVISE NOTHING",
    b"alter session advise commit",
    b"ALTER SYSTEM DISABLE DISTRIBUTED RECOVERY",
    b"ALTER SYSTEM SET COMMIT_POINT_STRENGTH = 0",
    b"alter system set commit_point_strength=255",
    b"ALTER SYSTEM SET COMMIT_POINT_STRENGTH = 007",
    b"exec dbms_transaction.purge_mixed('1.65.1')",
    b"EXECUTE DBMS_TRANSACTION.PURGE_LOST_DB_ENTRY ( '' )",
];

#[test]
fn statements_are_read(rt: HostRuntime) {
    for text in STATEMENTS {
        assert!(rt; is_statement(rt.alloc(), text));
    }
}

/// Texts that are no statement.
const NO_STATEMENTS: [&[u8]; 55] = [
    b"",
    b"SELECT COUNT(*) FROM T FOR UPDATE",
    b"SELECT SUM(N) FROM T FOR UPDATE",
    b"SELECT A, COUNT(*) FROM T",
    b"SELECT A FROM SELECT",
    b"SELECT A FROM T.U",
    b"SELECT * FROM T WHERE A = B",
    b"SELECT * FROM T WHERE A < = 1",
    b"SELECT * FROM T;",
    b"INSERT INTO T VALUES (1, A)",
    b"INSERT INTO T VALUES (1 + A)",
    b"INSERT INTO T (A, a) VALUES (1, 2)",
    b"INSERT INTO T VALUES (9223372036854775808)",
    b"INSERT INTO T VALUES (-9223372036854775809)",
    b"INSERT INTO T VALUES ('\xFF')",
    b"INSERT INTO T VALUES ()",
    b"UPDATE T SET A = 1, a = 2",
    b"UPDATE T SET A = 1 WHERE",
    b"CREATE TABLE T (A NUMBER)",
    b"CREATE TABLE T (A NUMBER PRIMARY KEY, B NUMBER PRIMARY KEY)",
    b"CREATE TABLE T (A NUMBER PRIMARY KEY PRIMARY KEY)",
    b"CREATE TABLE T (A NUMBER NOT NULL PRIMARY KEY NOT NULL)",
    b"CREATE TABLE T (A NUMBER PRIMARY KEY, a NUMBER)",
    b"CREATE TABLE T (A VARCHAR2(2001) PRIMARY KEY)",
    b"CREATE TABLE T (A VARCHAR2(0) PRIMARY KEY)",
    b"CREATE DATABASE LINK L USING ''",
    b"CREATE SYNONYM S FOR T",
    b"COMMIT COMMENT",
    b"COMMIT COMMENT '\xC3'",
    b"COMMIT FORCE '1', 281474976710656",
    b"COMMIT WORK WORK",
    b"ROLLBACK FORCE",
    b"SET TRANSACTION",
    b"SET TRANSACTION READ",
    b"SET TRANSACTION READ WRITE",
    b"SET TRANSACTION READ ONLY NAME 'A'",
    b"SAVEPOINT",
    b"SAVEPOINT SET",
    b"SAVEPOINT a.b",
    b"SAVEPOINT 'A'",
    b"ROLLBACK TO",
    b"ROLLBACK TO A B",
    b"ROLLBACK TO SAVEPOINT SELECT",
    b"ROLLBACK SAVEPOINT A",
    b"ROLLBACK TO WORK A",
    b"ALTER SESSION ADVISE ABORT",
    b"ALTER SYSTEM ENABLE RECOVERY",
    b"ALTER SYSTEM SET COMMIT_POINT_STRENGTH = 256",
    b"ALTER SYSTEM SET COMMIT_POINT_STRENGTH = -1",
    b"ALTER SYSTEM SET COMMIT_POINT_STRENGTH = '5'",
    b"ALTER SYSTEM SET COMMIT_POINT_STRENGTH 5",
    b"ALTER SYSTEM COMMIT_POINT_STRENGTH = 5",
    b"ALTER SESSION SET COMMIT_POINT_STRENGTH = 5",
    b"EXEC DBMS_TRANSACTION .PURGE_MIXED('1')",
    b"EXEC DBMS_TRANSACTION.PURGE_MIXED '1'",
];

#[test]
fn other_texts_are_refused(rt: HostRuntime) {
    for text in NO_STATEMENTS {
        assert!(rt; is_refused(rt.alloc(), text));
    }
}

/// Statements, each with the text that it is printed as.
const PRINTED: [(&[u8], &[u8]); 14] = [
    (
        b"update stock set n=n-10 where item='BOLT'",
        b"UPDATE STOCK SET N = N - 10 WHERE ITEM = 'BOLT'",
    ),
    (
        b"create table t(a varchar2(010)primary key not null,b number)",
        b"CREATE TABLE T (A VARCHAR2(10) NOT NULL PRIMARY KEY, B NUMBER)",
    ),
    (
        b"create public database link l connect to a identified by b using 'c.d'",
        b"CREATE DATABASE LINK L USING 'C.D'",
    ),
    (
        b"insert into t@l(a,b)values('',-0- -5+'it''s')",
        b"INSERT INTO T@L (A, B) VALUES (NULL, 0 - -5 + 'it''s')",
    ),
    (
        b"delete t where a!=null and b is not null",
        b"DELETE FROM T WHERE A <> NULL AND B IS NOT NULL",
    ),
    (
        b"insert into t values(- 5,NULL,'',-9223372036854775808,00)",
        b"INSERT INTO T VALUES (-5, NULL, NULL, -9223372036854775808, 0)",
    ),
    (b"select sum ( n ) from t", b"SELECT SUM(N) FROM T"),
    (
        b"commit work force '1.65.1',007",
        b"COMMIT FORCE '1.65.1', 7",
    ),
    (b"Set Transaction Read Only", b"SET TRANSACTION READ ONLY"),
    (b"savepoint a", b"SAVEPOINT A"),
    (b"rollback work to savepoint a1", b"ROLLBACK TO A1"),
    (b"rollback to savepoint", b"ROLLBACK TO SAVEPOINT"),
    (
        b"alter system set commit_point_strength=007",
        b"ALTER SYSTEM SET COMMIT_POINT_STRENGTH = 7",
    ),
    (
        b"exec dbms_transaction.purge_mixed ( '' )",
        b"EXECUTE DBMS_TRANSACTION.PURGE_MIXED('')",
    ),
];

/// Whether the statement of a text is printed so.
fn is_printed_as(alloc: Global, text: &[u8], printed: &[u8]) -> bool {
    match statement(alloc, text) {
        Ok(statement) => {
            let is = is_printed(alloc, &statement, printed);
            drop(statement);
            is
        }
        Err(_) => false,
    }
}

fn is_printed(alloc: Global, statement: &Stmt, printed: &[u8]) -> bool {
    matches!(&print_stmt(alloc, statement), Ok(text) if text.as_slice() == printed)
}

#[test]
fn statements_are_printed_in_one_way(rt: HostRuntime) {
    for (text, printed) in PRINTED {
        assert!(rt; is_printed_as(rt.alloc(), text, printed));
    }
}

// The front, so many times the piece, and the end.
fn repeated(
    alloc: Global,
    front: &[u8],
    piece: &[u8],
    count: usize,
    end: &[u8],
) -> Result<Vec<u8>, AllocError> {
    let mut text = front.to_vec(alloc)?;
    for _ in 0..count {
        text.extend_from_slice(piece)?;
    }
    text.extend_from_slice(end)?;
    Ok(text)
}

/// A text's front, the piece that stands so many times at most, and the end.
type Limit = (&'static [u8], &'static [u8], u16, &'static [u8]);

const LIMITS: [Limit; 4] = [
    (b"COMMIT COMMENT '", b"x", 255, b"'"),
    (b"ROLLBACK FORCE '", b"''", 2000, b"'"),
    (b"INSERT INTO T VALUES ('", b"x", 2000, b"')"),
    (b"SELECT A", b", A", 254, b" FROM T"),
];

/// Whether the text is a statement with the piece as often as it may stand, and refused where it stands once more.
fn ends(alloc: Global, (front, piece, most, end): Limit) -> Result<bool, AllocError> {
    let longest = repeated(alloc, front, piece, usize::from(most), end)?;
    let longer = repeated(alloc, front, piece, usize::from(most) + 1, end)?;
    Ok(is_statement(alloc, &longest) && is_refused(alloc, &longer))
}

#[test]
fn texts_end_at_their_limits(rt: HostRuntime) {
    for limit in LIMITS {
        assert!(rt; ends(rt.alloc(), limit) == Ok(true));
    }
}
