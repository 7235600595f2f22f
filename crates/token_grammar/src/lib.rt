//! Texts as tokens, and grammars over tokens: what stands below every language that is read here.
//!
//! # From bytes to tokens
//!
//! A text is read in two steps. First its bytes are cut into **tokens**: words, numbers, texts in quotes and marks, with
//! blanks between them. Each token is as long as it can be, so `<=` is one mark, `A1` one word, and `1AND` a number and
//! a word. `specs/Tokens.antt` says which tokens a text is, as a relation that knows nothing of how they are found;
//! `tokens_of` finds them, and gives Bad exactly where there are none.
//!
//! # Grammars
//!
//! Then the tokens are read by a **grammar**. A grammar is a value of the specs with two fields: `Spells v ts` says that
//! the tokens `ts` are a way to write the value `v`, and `read ts` finds a value at the front of `ts`, with the tokens
//! behind it. Small grammars are given: one word (`word`), one mark (`mark`), a name (`name`), a number (`number_to`), a
//! text in quotes (`quoted`). Others are made of them by **combinators**, functions from grammars to grammars, so that a
//! grammar is written once and reads like the lines of a manual:
//!
//! ```text
//! FROM name [LIMIT num]
//! word (codes "FROM") ▹ (name · optional (is_word (codes "LIMIT")) (word (codes "LIMIT") ▹ number_to 99))
//! ```
//!
//! | combinator | tokens | value |
//! |---|---|---|
//! | `a · b` | those of `a`, then those of `b` | both values |
//! | `a ▹ b`, `a ◃ b` | the same | that of the side the triangle points to; the other says nothing |
//! | `maybe w` | a word, or none | none |
//! | `optional starts g` | those of `g`, which begin with such a token, or none | an `Option` |
//! | `many starts g` | those of `g`, any number of times | a list |
//! | `separated starts s g`, `commas g` | those of `g` once or more, with `s` between them | a list |
//! | `choice looks a b` | those of `a` or of `b`, as a look at the tokens ahead says | the one or the other |
//! | `forms meaning form` | a token that means one of several forms, then those of that form | that of the form |
//! | `given c` | none | `c` |
//! | `mapped`, `made`, `built`, `tested` | those of a grammar | another value for its value; only some of its values |
//!
//! # Why a reader is right
//!
//! A grammar is **exact** (`IsExact`) if what it reads is spelled so, and what is spelled so is read, whatever follows
//! but for a token that it would take too. That token is the catch: behind `A` an optional `, B` goes on with a comma,
//! so nothing that begins with a comma may follow. `IsExact g goes_on` names these tokens. There is one lemma for each
//! combinator in `proofs/` (OneToken, Parts, Values, FormLaws), and so a grammar is proved exact by one term that has its own
//! shape, with a short remark where a part that goes on meets the next: "FROM is no comma". No text then has two
//! readings (`one_reading`), although nothing was said of ambiguity.
//!
//! # Readers
//!
//! The code reads slices: `take_word(tokens, b"FROM")?` gives the tokens behind the word, `take_name(alloc, tokens)?` a
//! name and the tokens behind it. The contract of each is that it gives what its grammar reads (`Gives`), so a function
//! that calls them in the order of a grammar's parts has a contract with the whole grammar, and needs no proof file.
//! Loops are written once, in `many`, over types that carry a grammar (`Part`, `Repeated`). At the top `read_text` asks
//! that the grammar is exact, and answers in the words of `Spells` alone: what is returned is spelled by the text, and
//! what is refused spells nothing.
#![tactic(auto)]

mod laws;
mod lexing;
mod mark;
mod read_err;
mod reading;
mod repeated;
mod text;
mod token;

pub use laws::{one_list_of_tokens, printed_tokens_are_read};
pub use lexing::{has_first_word, is_blank, tokens_of};
pub use mark::Mark;
pub use read_err::ReadErr;
pub use reading::{
    begins_mark, begins_word, begins_word_mark, maybe_word, take_between, take_identifier,
    take_mark, take_name, take_number, take_quoted, take_word, whole,
};
pub use repeated::{Behind, Comma, Part, Repeated, Separator, commas, many, optional, separated};
pub use text::{one_reading, read_text};
pub use token::{Token, Tokens};
