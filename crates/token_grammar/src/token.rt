//! Tokens: what a text is made of.

use crate::Mark;
use dtx_values::{Bytes, Listing};

/// A piece of a text, as long as it can be.
#[derive(Drop)]
pub enum Token {
    /// A letter and the letters, digits, `_`, `$`, `#` and dots that run on from it, kept in upper case. Keywords are
    /// words, and so are names: whether a word is a name is for the grammar to say.
    Word(Bytes),
    /// Digits, and the number that they write. A word may follow them directly. A number that has no place in 64 bits
    /// is no token.
    Number(u64),
    /// What stands between two quotes `'`, where a quote that is written twice is one quote of the text.
    Quoted(Bytes),
    /// A mark.
    Mark(Mark),
}

/// Tokens in order.
pub type Tokens = Listing<Token>;
