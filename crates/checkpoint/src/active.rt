//! Which of two logs is active.
ghost use Rattle.std.specs.Prelude.{◌≡◌};
ghost use Rattle.redo_log.specs.Cells.{bodies};
ghost use Rattle.checkpoint.specs.Active.{stated_generation, generation_of, is_later, side_of, active_side, side_of_lists};

use redo_log::{Bodies, cell, count};

/// The kind of an image among the records.
const IMAGE: u8 = 13;

/// One of two logs, or of their disks.
#[derive(Clone, Copy, Debug, PartialEq, Eq)]
pub enum Side {
    /// The first.
    First,
    /// The second.
    Second,
}

/// Which of two disks with these bytes is active, or nothing where a load would find no log on one of them, or no body on
/// either. It takes no memory.
pub fn active_of(first: &[u8], second: &[u8]) -> Option<Side>
    ensures { result ≡ side_of_lists (bodies first.now) (bodies second.now) }
{
    count(first)?;
    count(second)?;
    later_side(generation_in(first), generation_in(second))
}

/// The second or the first.
pub(crate) fn named(is_second: bool) -> Side
    ensures { result ≡ side_of is_second }
{
    if is_second { Side::Second } else { Side::First }
}

/// Whether the second of two lists with these generations is active; an empty list has none.
pub(crate) fn leads(first: Option<u64>, second: Option<u64>) -> bool
    ensures { result ≡ is_later first second }
{
    match (first, second) {
        (_, None) => false,
        (None, Some(_)) => true,
        (Some(first), Some(second)) => first < second,
    }
}

/// The generation of a list, where it has a body.
pub(crate) fn generation(list: &Bodies) -> Option<u64>
    ensures { result ≡ generation_of list.now }
{
    if list.len() == 0 {
        None
    } else {
        Some(stated(list.at(0)))
    }
}

// Which of two lists with these generations is active.
fn later_side(first: Option<u64>, second: Option<u64>) -> Option<Side>
    ensures { result ≡ active_side first second }
{
    match (first, second) {
        (None, None) => None,
        (None, Some(_)) => Some(Side::Second),
        (Some(_), _) => Some(named(leads(first, second))),
    }
}

// The generation of the list that these bytes hold.
fn generation_in(bytes: &[u8]) -> Option<u64>
    ensures { (list : _) → bodies bytes.now ≡ Some list → result ≡ generation_of list }
{
    match cell(bytes, 1) {
        Some(body) => Some(stated(body)),
        None => None,
    }
}

// The generation that a body states.
fn stated(body: &[u8]) -> u64
    ensures { result ≡ stated_generation body.now }
{
    let Some((_format, rest)) = body.split_first() else {
        return 0;
    };
    let Some((kind, fields)) = rest.split_first() else {
        return 0;
    };
    if *kind != IMAGE {
        return 0;
    }
    if fields.len() < 8 {
        return 0;
    }
    let (front, _behind) = fields.split_at(8);
    u64::from_be_bytes([
        front[0], front[1], front[2], front[3], front[4], front[5], front[6], front[7],
    ])
}
