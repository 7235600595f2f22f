//! The texts of refusals: ORA or DTX, a number, and the message.
ghost use Rattle.std.specs.Prelude.{◌≡◌, ◌++◌, codes, IfOk, OnOk};
ghost use Rattle.report.specs.Refusals.{ora_texts, dtx_texts, text_of, arg, filled, five_digits, two_digits, refusal_text as refusal_text_of};

use dtx_values::{Bytes, Listing, Refusal};
use std::alloc::{AllocError, Global};
use tran_ids::put_decimal;

/// Codes above this one are dtx's own: 60,001 is DTX-01.
const OWN: u16 = 60_000;

// The text of ORA-nnnnn, with a % for each argument.
#[tactic(auto, unfolding(crate::specs::Refusals::ora_texts))]
fn ora_words(number: u16) -> &'static [u8]
    ensures { result.now ≡ text_of number ora_texts }
{
    match number {
        1 => b"unique constraint (APP.%_PK) violated",
        900 => b"invalid SQL statement",
        904 => b"\"%\": invalid identifier",
        913 => b"too many values",
        942 => b"table or view does not exist",
        947 => b"not enough values",
        955 => b"name is already used by an existing object",
        1400 => b"cannot insert NULL into (\"APP\".\"%\".\"%\")",
        1407 => b"cannot update (\"APP\".\"%\".\"%\") to NULL",
        1453 => b"SET TRANSACTION must be first statement of transaction",
        1555 => b"snapshot too old",
        1591 => b"lock held by in-doubt distributed transaction %",
        2011 => b"duplicate database link name",
        2019 => b"connection description for remote database not found",
        2020 => b"too many database links in use",
        2049 => b"timeout: distributed transaction waiting for lock",
        2050 => b"transaction % rolled back, some remote DBs may be in-doubt",
        2053 => b"transaction % committed, some remote DBs may be in-doubt",
        2054 => b"transaction % in-doubt",
        2058 => b"no prepared transaction found with ID %",
        2059 => b"ORA-2PC-CRASH-TEST-% in commit comment",
        2067 => b"transaction or savepoint rollback required",
        12899 => b"value too large for column \"APP\".\"%\".\"%\" (actual: %, maximum: %)",
        30036 => b"unable to extend segment by % in undo tablespace 'UNDOTBS1'",
        _ => b"",
    }
}

// The text of DTX-nn, with a % for each argument.
#[tactic(auto, unfolding(crate::specs::Refusals::dtx_texts))]
fn dtx_words(number: u16) -> &'static [u8]
    ensures { result.now ≡ text_of number dtx_texts }
{
    match number {
        1 => b"node % is stopped",
        2 => b"session tree too deep or too wide",
        3 => b"no answer from link %",
        4 => b"session busy",
        5 => b"deliveries ended at 4096",
        6 => b"purge of % refused",
        7 => b"ID % names several branches",
        8 => b"branch at link % is gone",
        9 => b"number out of range",
        10 => b"value of the wrong type",
        11 => b"message % cannot be delivered",
        12 => b"distributed recovery is disabled",
        13 => b"node % is running",
        14 => b"no call to give up",
        15 => b"key column cannot be changed",
        16 => b"changes of one branch too large",
        17 => b"image too large",
        21 => b"write in a read-only transaction",
        22 => b"savepoint % is not set",
        _ => b"",
    }
}

// The argument at this place, or nothing.
fn argument(args: &[Bytes], place: usize) -> &[u8]
    ensures { result.now ≡ arg args.now place }
{
    match args.get(place) {
        Some(argument) => argument.as_slice(),
        None => &[],
    }
}

// Adds the words at the end, with an argument at each %.
fn put_filled(out: &mut Vec<u8>, words: &[u8], args: &[Bytes]) -> Result<(), AllocError>
    ensures { OnOk result (out.new.items ≡ out.old.items ++ filled args.now 0 words.now) }
{
    let mut place = 0;
    for byte in words {
        if *byte == b'%' {
            out.extend_from_slice(argument(args, place))?;
            place += 1;
        } else {
            out.push(*byte)?;
        }
    }
    Ok(())
}

fn put_five_digits(out: &mut Vec<u8>, number: u16) -> Result<(), AllocError>
    ensures { OnOk result (out.new.items ≡ out.old.items ++ five_digits number) }
{
    let zeros: &[u8] = match number {
        0..=9 => b"0000",
        10..=99 => b"000",
        100..=999 => b"00",
        1000..=9999 => b"0",
        _ => b"",
    };
    out.extend_from_slice(zeros)?;
    put_decimal(out, u64::from(number))
}

fn put_two_digits(out: &mut Vec<u8>, number: u16) -> Result<(), AllocError>
    ensures { OnOk result (out.new.items ≡ out.old.items ++ two_digits number) }
{
    if number < 10 {
        out.push(b'0')?;
    }
    put_decimal(out, u64::from(number))
}

fn ora_text(alloc: Global, number: u16, args: &[Bytes]) -> Result<Bytes, AllocError>
    ensures { IfOk result (λ text. text ≡ codes "ORA-" ++ five_digits number ++ codes ": " ++ filled args.now 0 (text_of number ora_texts)) }
{
    let mut out = Vec::from_slice(alloc, b"ORA-")?;
    put_five_digits(&mut out, number)?;
    out.extend_from_slice(b": ")?;
    put_filled(&mut out, ora_words(number), args)?;
    Ok(Listing::of(out))
}

fn dtx_text(alloc: Global, number: u16, args: &[Bytes]) -> Result<Bytes, AllocError>
    ensures { IfOk result (λ text. text ≡ codes "DTX-" ++ two_digits number ++ codes ": " ++ filled args.now 0 (text_of number dtx_texts)) }
{
    let mut out = Vec::from_slice(alloc, b"DTX-")?;
    put_two_digits(&mut out, number)?;
    out.extend_from_slice(b": ")?;
    put_filled(&mut out, dtx_words(number), args)?;
    Ok(Listing::of(out))
}

/// A refusal as text, such as `ORA-02054: transaction 1.1.1 in-doubt`. Fails where memory runs out.
pub fn refusal_text(alloc: Global, refusal: &Refusal) -> Result<Bytes, AllocError>
    ensures { IfOk result (λ text. text ≡ refusal_text_of refusal.now) }
{
    let args = refusal.args.as_slice();
    if refusal.code > OWN {
        dtx_text(alloc, refusal.code - OWN, args)
    } else {
        ora_text(alloc, refusal.code, args)
    }
}
