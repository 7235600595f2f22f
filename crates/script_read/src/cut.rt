//! How a script is cut into commands: where each ends, what it says outside its comments, and on which line it begins.
ghost use Rattle.std.specs.Prelude.{◌≡◌, ◌+◌, ◌-◌, ◌<◌, ◌≤◌, ◌^◌, ◌&&◌, not, [], ◌∷◌, length, drop, take_while, IfNone, IfSome, IfOk};
ghost use Rattle.std.specs.List.{list_all, prefix_len};
ghost use Rattle.std.specs.Str.{is_utf8};
ghost use Rattle.std.specs.Str.Lossy.{utf8_valid_len};
ghost use Rattle.memchr.specs.Find.{IsFirstByte};
ghost use Rattle.token_grammar.specs.Bytes.{is_blank as blank};
ghost use Rattle.script_read.specs.declared.part.Part.TheVariants.{Plain, Comment};
ghost use Rattle.script_read.specs.Parts as spec;
ghost use Rattle.script_read.specs.Parts.{pieces_of};

use crate::part::Part;
use memchr::{memchr, memchr_iter, memchr3};
use std::alloc::{AllocError, Global};
use token_grammar::is_blank;

/// The part in which a text goes on after a byte, which these bytes follow.
fn part_behind(part: Part, byte: u8, after: &[u8]) -> Part
    ensures { result ≡ spec.part_behind part byte after.now }
{
    match part {
        Part::Plain if byte == b'\'' => Part::Quoted,
        Part::Plain if byte == b'-' && after.starts_with(b"-") => Part::Comment,
        Part::Quoted if byte == b'\'' => Part::Plain,
        Part::Comment if byte == b'\n' => Part::Plain,
        same => same,
    }
}

/// Whether a byte in this part ends a command.
fn ends_command(part: Part, byte: u8) -> bool
    ensures { result ≡ (spec.is_plain part && spec.is_semicolon byte) }
{
    matches!(part, Part::Plain) && byte == b';'
}

fn is_comment(part: Part) -> bool
    ensures { result ≡ spec.is_comment part }
{
    matches!(part, Part::Comment)
}

fn is_quoted(part: Part) -> bool
    ensures { result ≡ spec.is_quoted part }
{
    matches!(part, Part::Quoted)
}

/// The bytes after a place.
fn behind(bytes: &[u8], place: usize) -> &[u8]
    requires { place < length bytes.now }
    ensures { result.now ≡ drop (place + 1) bytes.now }
{
    &bytes[place + 1..]
}

/// Where the first byte stands that may end the command or the part that these bytes go on in.
fn next_end(part: Part, bytes: &[u8]) -> Option<usize>
    ensures { IsFirstByte (spec.may_end part) bytes.now result }
{
    match part {
        Part::Plain => memchr3(b'\'', b'-', b';', bytes),
        Part::Quoted => memchr(b'\'', bytes),
        Part::Comment => memchr(b'\n', bytes),
    }
}

/// The bytes of the first command up to its `;`, and what stands after that; nothing where no command ends.
pub(crate) fn cut(bytes: &[u8]) -> Option<(&[u8], &[u8])>
    ensures whole { IfNone result (pieces_of bytes.now ≡ ([], bytes.now)) }
    ensures cut { IfSome result (λ x. pieces_of bytes.now ≡ (x.0.now ∷ (pieces_of x.1.now).0, (pieces_of x.1.now).1)) }
    ensures lengths { IfSome result (λ x. length x.0.now + 1 + length x.1.now ≡ length bytes.now) }
{
    let mut part = Part::Plain;
    let mut place = 0;
    while let Some(further) = next_end(part, &bytes[place..]) {
        let end = place + further;
        let after = behind(bytes, end);
        if ends_command(part, bytes[end]) {
            return Some((&bytes[..end], after));
        }
        part = part_behind(part, bytes[end], after);
        place = end + 1;
    }
    None
}

/// What a command says: its bytes without its comments. Line feeds stay.
pub(crate) fn said(alloc: Global, piece: &[u8]) -> Result<Vec<u8>, AllocError>
    ensures value { IfOk result (λ kept. kept.items ≡ spec.said piece.now) }
    ensures no_longer { IfOk result (λ kept. length kept.items ≤ length piece.now) }
{
    let mut kept = Vec::with_capacity(alloc, piece.len())?;
    if memchr(b'-', piece).is_none() {
        kept.extend_from_slice(piece)?;
        return Ok(kept);
    }
    let mut rest = piece;
    let mut part = Part::Plain;
    while let [byte, after @ ..] = rest {
        part = part_behind(part, *byte, after);
        if !is_comment(part) {
            kept.push(*byte)?;
        }
        rest = after;
    }
    Ok(kept)
}

fn is_control(byte: u8) -> bool
    ensures { result ≡ spec.is_control byte }
{
    byte < 32 || byte == 127
}

fn may_stand(part: Part, byte: u8) -> bool
    ensures { result ≡ spec.may_stand part byte }
{
    !is_control(byte) || (is_blank(byte) && !is_quoted(part))
}

/// How many blanks stand at the front.
fn blank_len(bytes: &[u8]) -> usize
    ensures value { result ≡ prefix_len blank bytes.now }
    ensures bound { result ≤ length bytes.now }
{
    bytes.iter().take_while(|byte| is_blank(**byte)).count()
}

fn has_no_control(bytes: &[u8]) -> bool
    ensures { result ≡ list_all (λ b. not (spec.is_control b)) bytes.now }
{
    bytes.iter().all(|byte| !is_control(*byte))
}

fn all_may_stand(piece: &[u8]) -> bool
    ensures { result ≡ spec.all_may_stand Plain piece.now }
{
    if has_no_control(&piece[blank_len(piece)..]) {
        return true;
    }
    let mut rest = piece;
    let mut part = Part::Plain;
    while let [byte, after @ ..] = rest {
        if !may_stand(part, *byte) {
            return false;
        }
        part = part_behind(part, *byte, after);
        rest = after;
    }
    true
}

fn is_utf8(bytes: &[u8]) -> bool
    ensures { result ≡ is_utf8 bytes.now }
{
    std::str::from_utf8(bytes).is_ok()
}

/// Whether a command is UTF-8, with no control byte where it may not stand.
pub(crate) fn is_clean(piece: &[u8]) -> bool
    ensures { result ≡ spec.is_clean piece.now }
{
    is_utf8(piece) && all_may_stand(piece)
}

/// Whether there are blanks alone in what is said.
pub(crate) fn is_blank_text(said: &[u8]) -> bool
    ensures { result ≡ list_all blank said.now }
{
    said.iter().all(|byte| is_blank(*byte))
}

/// How many lines end in these bytes.
#[tactic(auto, using(crate::proofs::LineLemmas::count_places))]
pub(crate) fn line_ends(bytes: &[u8]) -> usize
    ensures value { result ≡ spec.line_ends bytes.now }
    ensures bound { result ≤ length bytes.now }
{
    memchr_iter(b'\n', bytes).count()
}

/// The line on which a command begins that stands on this line and those after it, and says this.
pub(crate) fn line_of(line: usize, said: &[u8]) -> u32
    requires { line + length said.now < 2 ^ 32 }
    ensures { result ≡ line + spec.line_ends (take_while blank said.now) }
{
    let blanks = &said[..blank_len(said)];
    (line + line_ends(blanks)) as u32
}

/// How many bytes stand before the first that is not UTF-8.
#[tactic(auto, using(crate::proofs::CleanLemmas::all_is_valid))]
fn utf8_len(bytes: &[u8]) -> usize
    ensures value { result ≡ utf8_valid_len bytes.now }
{
    match std::str::from_utf8(bytes) {
        Ok(text) => text.len(),
        Err(error) => error.valid_up_to(),
    }
}

/// How many bytes stand before the first that may not stand in a comment.
fn allowed_len(bytes: &[u8]) -> usize
    ensures value { result ≡ prefix_len (spec.may_stand Comment) bytes.now }
    ensures bound { result ≤ length bytes.now }
{
    bytes
        .iter()
        .take_while(|byte| may_stand(Part::Comment, **byte))
        .count()
}

/// How many bytes stand before the first bad one, among blanks and comments.
fn good_len(bytes: &[u8]) -> usize
    ensures value { result ≡ spec.good_len bytes.now }
    ensures bound { result ≤ length bytes.now }
{
    let valid = utf8_len(bytes);
    let allowed = allowed_len(bytes);
    if valid < allowed { valid } else { allowed }
}

/// The line of the first bad byte, among blanks and comments on this line and those after it.
pub(crate) fn first_unclean(line: usize, bytes: &[u8]) -> u32
    requires { line + length bytes.now < 2 ^ 32 }
    ensures { result ≡ spec.first_unclean line bytes.now }
{
    let good = &bytes[..good_len(bytes)];
    (line + line_ends(good)) as u32
}
