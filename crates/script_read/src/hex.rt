//! Bytes that are written as hexadecimal digits.
ghost use Rattle.std.specs.Prelude.{◌≡◌, ◌+◌, ◌≤◌, [], ◌∷◌, length, IfSome, IfNone};
ghost use Rattle.token_grammar.specs.Gives.{Gives};
ghost use Rattle.token_grammar.specs.Grammar.{meant};
ghost use Rattle.script_read.specs.Forms as spec;

use dtx_values::{Bytes, Listing};
use std::alloc::Global;
use token_grammar::{ReadErr, Token, take_quoted};

fn hex_digit(byte: u8) -> Option<u8>
    ensures { result ≡ spec.hex_digit byte }
{
    match byte {
        b'0'..=b'9' => Some(byte - b'0'),
        b'A'..=b'F' => Some(byte - b'A' + 10),
        b'a'..=b'f' => Some(byte - b'a' + 10),
        _ => None,
    }
}

fn hex_byte(high: u8, low: u8) -> Option<u8>
    ensures { result ≡ spec.hex_byte high low }
{
    let high = hex_digit(high)?;
    let low = hex_digit(low)?;
    Some(16 * high + low)
}

/// The first two digits, and those after them.
fn pair_of(digits: &[u8]) -> Option<(u8, u8, &[u8])>
    ensures pair { IfSome result (λ x. digits.now ≡ x.0 ∷ x.1 ∷ x.2.now) }
    ensures lengths { IfSome result (λ x. length x.2.now + 2 ≡ length digits.now) }
    ensures none { IfNone result (length digits.now ≤ 1) }
{
    match digits {
        [high, low, others @ ..] => Some((*high, *low, others)),
        _ => None,
    }
}

#[tactic(auto, using(crate::proofs::HexLemmas::more, crate::proofs::HexLemmas::stops, crate::proofs::HexLemmas::odd, crate::proofs::HexLemmas::even))]
fn hex_pairs(alloc: Global, digits: &[u8]) -> Result<Vec<u8>, ReadErr>
    ensures { Gives (λ bytes. bytes.items) result (spec.hex_behind [] digits.now) }
{
    let mut bytes = Vec::new(alloc);
    let mut rest = digits;
    while let Some((high, low, others)) = pair_of(rest) {
        let Some(byte) = hex_byte(high, low) else {
            return Err(ReadErr::Bad);
        };
        bytes.push(byte)?;
        rest = others;
    }
    if !rest.is_empty() {
        return Err(ReadErr::Bad);
    }
    Ok(bytes)
}

/// Bytes in quotes, as hexadecimal digits.
pub(crate) fn take_hex(alloc: Global, tokens: &[Token]) -> Result<(Bytes, &[Token]), ReadErr>
    ensures { Gives (λ x. (x.0, x.1.now)) result ((meant spec.hex_in).read tokens.now) }
{
    let (digits, rest) = take_quoted(tokens)?;
    if digits.is_empty() {
        return Err(ReadErr::Bad);
    }
    Ok((Listing::of(hex_pairs(alloc, digits)?), rest))
}
