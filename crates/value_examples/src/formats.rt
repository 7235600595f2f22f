//! Formats by examples from outside: the bytes themselves, and that calls succeed.
use byte_format::example::{Contents, Label, Stops, Text, read_label, write_label};
use byte_format::{
    NoSpelling, TakeErr, choice_is_exact, has_one_reading, list_is_exact, mapped_is_exact,
    numbers_are_exact, option_is_exact, pair_is_exact, put_flag, put_i64, put_list_u8,
    put_list_u32, put_run_u8, put_run_u16, put_run_u32, put_u8, put_u16, put_u32, put_u48, put_u64,
    read_front, read_whole, runs_are_exact, take_constant, take_each, take_flag, take_i64,
    take_list_u8, take_list_u32, take_run_u8, take_run_u16, take_run_u32, take_u8, take_u16,
    take_u32, take_u48, take_u64, tested_is_exact, write_whole,
};
use std::alloc::{AllocError, Global};

/// 250 grams, insured for 3,000, by way of 7 and 300, a thing named "tea".
const TEA: [u8; 21] = [
    0, 250, 1, 0, 0, 0, 0, 0, 0, 11, 184, 2, 0, 7, 1, 44, 2, 3, b't', b'e', b'a',
];

/// 30,000 grams, the most that there are, not insured, by way of nowhere, 2 letters.
const LETTERS: [u8; 7] = [117, 48, 0, 0, 1, 0, 2];

/// The bytes that a number is taken from.
const FRONT: [u8; 9] = [1, 2, 3, 4, 5, 6, 7, 8, 9];

/// Numbers and a flag, one after the other.
fn numbers(alloc: Global) -> Result<Vec<u8>, AllocError> {
    let mut out = Vec::new(alloc);
    put_u8(&mut out, 1)?;
    put_u16(&mut out, 0x0203)?;
    put_u32(&mut out, 0x0405_0607)?;
    put_u48(&mut out, 0x0102_0304_0506)?;
    put_u64(&mut out, 0x0708_090a_0b0c_0d0e)?;
    put_i64(&mut out, -2)?;
    put_flag(&mut out, true)?;
    Ok(out)
}

/// What those numbers and the flag are written as.
const NUMBERS: [u8; 30] = [
    1, 2, 3, 4, 5, 6, 7, 1, 2, 3, 4, 5, 6, 7, 8, 9, 10, 11, 12, 13, 14, 255, 255, 255, 255, 255,
    255, 255, 254, 1,
];

/// Runs after their lengths of one, two and four bytes: `ab`, `c` and one of no bytes.
const RUNS: [u8; 10] = *b"\x02ab\x00\x01c\x00\x00\x00\x00";

/// Those runs.
fn runs(alloc: Global) -> Result<Vec<u8>, AllocError> {
    let mut out = Vec::new(alloc);
    put_run_u8(&mut out, b"ab")?;
    put_run_u16(&mut out, b"c")?;
    put_run_u32(&mut out, b"")?;
    Ok(out)
}

/// Two lists, after a count of one byte and of four.
fn lists(alloc: Global) -> Result<Vec<u8>, AllocError> {
    let mut out = Vec::new(alloc);
    put_list_u8::<bool>(&mut out, &[true, false])?;
    put_list_u32::<Option<u8>>(&mut out, &[Some(9), None])?;
    Ok(out)
}

/// What those lists are written as.
const LISTS: [u8; 10] = [2, 1, 0, 0, 0, 0, 2, 1, 9, 0];

/// Whether this was written.
fn is(written: &Result<Vec<u8>, AllocError>, wanted: &[u8]) -> bool {
    matches!(written, Ok(bytes) if bytes.as_slice() == wanted)
}

#[test]
fn parts_are_written(rt: HostRuntime) {
    assert!(rt; is(&numbers(rt.alloc()), &NUMBERS));
    assert!(rt; is(&runs(rt.alloc()), &RUNS));
    assert!(rt; is(&lists(rt.alloc()), &LISTS));
}

/// The numbers of one, two, four, six and eight bytes that these bytes begin with.
fn numbers_at(bytes: &[u8]) -> Result<[u64; 5], NoSpelling> {
    Ok([
        u64::from(take_u8(bytes)?.0),
        u64::from(take_u16(bytes)?.0),
        u64::from(take_u32(bytes)?.0),
        take_u48(bytes)?.0,
        take_u64(bytes)?.0,
    ])
}

#[test]
fn numbers_are_taken_from_the_front(rt: HostRuntime) {
    let wanted = [
        0x01,
        0x0102,
        0x0102_0304,
        0x0102_0304_0506,
        0x0102_0304_0506_0708,
    ];
    assert!(rt; numbers_at(&FRONT) == Ok(wanted));
}

/// Whether what stands after a number is left.
fn leaves_the_rest() -> Result<bool, NoSpelling> {
    let (_number, rest) = take_u64(&FRONT)?;
    Ok(rest.len() == 1)
}

/// Whether a signed number, a flag and a constant are taken from the front.
fn takes_others() -> Result<bool, NoSpelling> {
    let (number, _rest) = take_i64(&[255, 255, 255, 255, 255, 255, 255, 254])?;
    let (is_set, _rest) = take_flag(&[1, 7])?;
    let rest = take_constant(&FRONT, &[1, 2])?;
    Ok(number == -2 && is_set && rest.len() == 7)
}

/// Whether the runs are taken as they were written.
fn takes_runs() -> Result<bool, NoSpelling> {
    let (first, rest) = take_run_u8(&RUNS)?;
    let (second, rest) = take_run_u16(rest)?;
    let (third, rest) = take_run_u32(rest)?;
    Ok(
        first == b"ab".as_slice()
            && second == b"c".as_slice()
            && third.is_empty()
            && rest.is_empty(),
    )
}

/// Whether flags are taken after a count of one byte.
fn takes_flags(alloc: Global) -> Result<bool, TakeErr> {
    let (flags, rest) = take_list_u8::<bool>(alloc, &[2, 1, 0, 7])?;
    Ok(flags.as_slice() == [true, false].as_slice() && rest.len() == 1)
}

/// Whether numbers that may be missing are taken after a count of four bytes.
fn takes_options(alloc: Global) -> Result<bool, TakeErr> {
    let (numbers, rest) = take_list_u32::<Option<u8>>(alloc, &[0, 0, 0, 2, 1, 9, 0])?;
    Ok(numbers.as_slice() == [Some(9), None].as_slice() && rest.is_empty())
}

/// Whether as many numbers are taken as are asked for.
fn takes_two(alloc: Global) -> Result<bool, TakeErr> {
    let (pair, rest) = take_each::<u16>(alloc, 2, &[0, 1, 0, 2, 0])?;
    Ok(pair.as_slice() == [1, 2].as_slice() && rest.len() == 1)
}

#[test]
fn parts_are_taken_from_the_front(rt: HostRuntime) {
    assert!(rt; leaves_the_rest() == Ok(true));
    assert!(rt; takes_others() == Ok(true));
    assert!(rt; takes_runs() == Ok(true));
    assert!(rt; takes_flags(rt.alloc()) == Ok(true));
    assert!(rt; takes_options(rt.alloc()) == Ok(true));
    assert!(rt; takes_two(rt.alloc()) == Ok(true));
}

#[test]
fn what_spells_no_part_is_refused(rt: HostRuntime) {
    assert!(rt; take_u48(&FRONT[..5]).is_err(), "a byte is missing");
    assert!(rt; take_flag(&[2]).is_err(), "a flag of 2");
    assert!(rt; take_constant(&FRONT, &[1, 3]).is_err(), "other bytes");
    assert!(rt; take_run_u8(b"\x03ab").is_err(), "a run that is cut");
}

/// Whether the label of tea is read.
fn reads_tea(alloc: Global) -> Result<bool, TakeErr> {
    let label = read_label(alloc, &TEA)?;
    Ok(
        label.weight == 250
            && label.insured == Some(3000)
            && label.stops.as_slice() == [7, 300].as_slice()
            && is_thing(&label.contents, b"tea"),
    )
}

/// Whether the contents are a thing of this name.
fn is_thing(contents: &Contents, name: &[u8]) -> bool {
    match contents {
        Contents::Thing(text) => text.as_slice() == name,
        Contents::Letters(_) => false,
    }
}

/// Whether the label of letters is read.
fn reads_letters(alloc: Global) -> Result<bool, TakeErr> {
    let label = read_label(alloc, &LETTERS)?;
    Ok(
        label.weight == 30000
            && label.insured.is_none()
            && label.stops.as_slice().is_empty()
            && matches!(label.contents, Contents::Letters(2)),
    )
}

#[test]
fn labels_are_read(rt: HostRuntime) {
    assert!(rt; reads_tea(rt.alloc()) == Ok(true));
    assert!(rt; reads_letters(rt.alloc()) == Ok(true));
}

/// Whether a label is written as it was.
fn is_kept(alloc: Global, bytes: &[u8]) -> Result<bool, TakeErr> {
    let label = read_label(alloc, bytes)?;
    Ok(write_label(alloc, &label)?.as_slice() == bytes)
}

/// A label that is made in code: 30,000 grams, not insured, by way of nowhere, a thing named "map".
fn map(alloc: Global) -> Result<Vec<u8>, AllocError> {
    let label = Label {
        weight: 30000,
        insured: None,
        stops: Stops::of(Vec::new(alloc)),
        contents: Contents::Thing(Text::of(Vec::from_slice(alloc, b"map")?)),
    };
    write_label(alloc, &label)
}

#[test]
fn labels_are_written(rt: HostRuntime) {
    assert!(rt; is_kept(rt.alloc(), &TEA) == Ok(true));
    assert!(rt; is_kept(rt.alloc(), &LETTERS) == Ok(true));
    assert!(rt; is(&map(rt.alloc()), b"\x75\x30\x00\x00\x02\x03map"));
}

/// Bytes that spell no label.
const NO_LABELS: [(&str, [u8; 7]); 7] = [
    ("a gram too many", [117, 49, 0, 0, 1, 0, 2]),
    ("no weight", [0, 0, 0, 0, 1, 0, 2]),
    ("an option of 2", [117, 48, 2, 0, 1, 0, 2]),
    ("a stop too many", [117, 48, 0, 1, 1, 0, 2]),
    ("a third kind", [117, 48, 0, 0, 3, 0, 2]),
    ("a name too long", [117, 48, 0, 0, 2, 2, b'a']),
    ("a byte behind the name", [117, 48, 0, 0, 2, 0, b'a']),
];

fn is_refused(alloc: Global, bytes: &[u8]) -> bool {
    matches!(read_label(alloc, bytes), Err(TakeErr::NoSpelling))
}

#[test]
fn what_spells_no_label_is_refused(rt: HostRuntime) {
    for (what, bytes) in NO_LABELS {
        assert!(rt; is_refused(rt.alloc(), &bytes), "{what}");
    }
}

#[test]
fn the_laws_hold_of_types() {
    numbers_are_exact();
    runs_are_exact();
    has_one_reading::<u8>();
    pair_is_exact::<u16, bool>();
    list_is_exact::<i64>();
    option_is_exact::<u32>();
    tested_is_exact::<u64>();
    mapped_is_exact::<u8, u16>();
    choice_is_exact::<u8, bool, u64>();
}

/// Whether a number is read from the front, and the bytes after it are left.
fn reads_a_number(alloc: Global) -> Result<bool, TakeErr> {
    numbers_are_exact();
    let (number, rest) = read_front::<u16>(alloc, &[1, 2, 3])?;
    Ok(number == 258 && rest.len() == 1)
}

/// Whether a number with a byte after it is refused.
fn refuses_a_byte(alloc: Global) -> bool {
    numbers_are_exact();
    read_whole::<u16>(alloc, &[1, 2, 3]).is_err()
}

#[test]
fn values_are_read_and_written_by_their_formats(rt: HostRuntime) {
    assert!(rt; reads_a_number(rt.alloc()) == Ok(true));
    assert!(rt; refuses_a_byte(rt.alloc()));
    assert!(rt; is(&write_whole::<Option<u8>>(rt.alloc(), &Some(7)), &[1, 7]));
}
