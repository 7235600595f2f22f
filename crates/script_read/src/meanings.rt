//! What words mean: the forms of commands, kinds of messages, views and options.
ghost use Rattle.std.specs.Prelude.{◌≡◌, Bool, Option};
ghost use Rattle.std.specs.Map.{lookup};
ghost use Rattle.std.specs.Str.{bytes_eq};
ghost use Rattle.token_grammar.specs.Forms.{word_in};
ghost use Rattle.script_read.specs.Words as spec;

use crate::words::{Left, Lost, Measure, Verb, View};
use token_grammar::Token;
use wire_msg::KindName;

/// The first words of commands.
const VERBS: [(&[u8], Verb); 15] = [
    (b"NODE", Verb::Node),
    (b"CUT", Verb::Cut),
    (b"JOIN", Verb::Join),
    (b"LOSE", Verb::Lose),
    (b"STOP", Verb::Stop),
    (b"START", Verb::Start),
    (b"CRASH", Verb::Crash),
    (b"FAULT", Verb::Fault),
    (b"HOLD", Verb::Hold),
    (b"DELIVER", Verb::Deliver),
    (b"AGAIN", Verb::Again),
    (b"PUMP", Verb::Pump),
    (b"GIVEUP", Verb::GiveUp),
    (b"RECO", Verb::Reco),
    (b"SHOW", Verb::Show),
];

/// The kinds of messages, as they are spelled.
const KINDS: [(&[u8], KindName); 19] = [
    (b"OPEN", KindName::Open),
    (b"OPENED", KindName::Opened),
    (b"EXEC", KindName::Exec),
    (b"REPLY", KindName::Reply),
    (b"PREPARE", KindName::Prepare),
    (b"PREPARED", KindName::Prepared),
    (b"READONLY", KindName::ReadOnly),
    (b"READY", KindName::Ready),
    (b"ABORT", KindName::Abort),
    (b"COMMITPOINT", KindName::CommitPoint),
    (b"COMMITTED", KindName::Committed),
    (b"ROLLEDBACK", KindName::RolledBack),
    (b"INDOUBT", KindName::InDoubt),
    (b"ACK", KindName::Ack),
    (b"FORGOTTEN", KindName::Forgotten),
    (b"ROLLBACK", KindName::Rollback),
    (b"ASK", KindName::Ask),
    (b"BACK", KindName::Back),
    (b"OPENAT", KindName::OpenAt),
];

/// What a CRASH may leave.
const LEFT: [(&[u8], Left); 2] = [(b"KEEP", Left::Keep), (b"LEAVE", Left::Leave)];

/// What HOLD may be.
const SWITCHES: [(&[u8], bool); 2] = [(b"ON", true), (b"OFF", false)];

/// What SHOW may show.
const VIEWS: [(&[u8], View); 6] = [
    (b"PENDING", View::Pending),
    (b"NEIGHBORS", View::Neighbors),
    (b"BOOK", View::Book),
    (b"NET", View::Net),
    (b"DISK", View::Disk),
    (b"UNDO", View::Undo),
];

/// What an option of NODE may set.
const MEASURES: [(&[u8], Measure); 3] = [
    (b"STRENGTH", Measure::Strength),
    (b"LINKS", Measure::Links),
    (b"UNDO", Measure::Undo),
];

/// What a word means by a list of words with their meanings.
fn meaning<T: Copy>(word: &[u8], words: &[(&[u8], T)]) -> Option<T>
    ensures { result ≡ lookup (λ text. bytes_eq text.now word.now) words.now }
{
    for (text, meaning) in words {
        if *text == word {
            return Some(*meaning);
        }
    }
    None
}

#[tactic(auto, unfolding(crate::specs::Words::verb_of))]
fn verb_of(word: &[u8]) -> Option<Verb>
    ensures { result ≡ spec.verb_of word.now }
{
    meaning(word, &VERBS)
}

/// The form that a command's first word tells.
pub(crate) fn verb_in(token: &Token) -> Option<Verb>
    ensures { result ≡ word_in spec.verb_of token.now }
{
    match token {
        Token::Word(word) => verb_of(word.as_slice()),
        _ => None,
    }
}

#[tactic(auto, unfolding(crate::specs::Words::kind_of))]
fn kind_of(word: &[u8]) -> Option<KindName>
    ensures { result ≡ spec.kind_of word.now }
{
    meaning(word, &KINDS)
}

/// The kind of message that a word spells.
pub(crate) fn kind_in(token: &Token) -> Option<KindName>
    ensures { result ≡ word_in spec.kind_of token.now }
{
    match token {
        Token::Word(word) => kind_of(word.as_slice()),
        _ => None,
    }
}

/// What follows LOSE.
#[tactic(auto, unfolding(crate::specs::Words::lost_in))]
pub(crate) fn lost_in(token: &Token) -> Option<Lost>
    ensures { result ≡ spec.lost_in token.now }
{
    match token {
        Token::Number(number) if *number <= u64::from(u32::MAX) => {
            Some(Lost::Number(*number as u32))
        }
        Token::Word(word) if word.as_slice() == b"NEXT".as_slice() => Some(Lost::Next),
        _ => None,
    }
}

#[tactic(auto, unfolding(crate::specs::Words::left_of))]
fn left_of(word: &[u8]) -> Option<Left>
    ensures { result ≡ spec.left_of word.now }
{
    meaning(word, &LEFT)
}

/// What follows the number of a CRASH.
pub(crate) fn left_in(token: &Token) -> Option<Left>
    ensures { result ≡ word_in spec.left_of token.now }
{
    match token {
        Token::Word(word) => left_of(word.as_slice()),
        _ => None,
    }
}

#[tactic(auto, unfolding(crate::specs::Words::switch_of))]
fn switch_of(word: &[u8]) -> Option<bool>
    ensures { result ≡ spec.switch_of word.now }
{
    meaning(word, &SWITCHES)
}

/// What follows HOLD.
pub(crate) fn switch_in(token: &Token) -> Option<bool>
    ensures { result ≡ word_in spec.switch_of token.now }
{
    match token {
        Token::Word(word) => switch_of(word.as_slice()),
        _ => None,
    }
}

#[tactic(auto, unfolding(crate::specs::Words::view_of))]
fn view_of(word: &[u8]) -> Option<View>
    ensures { result ≡ spec.view_of word.now }
{
    meaning(word, &VIEWS)
}

/// What follows SHOW.
pub(crate) fn view_in(token: &Token) -> Option<View>
    ensures { result ≡ word_in spec.view_of token.now }
{
    match token {
        Token::Word(word) => view_of(word.as_slice()),
        _ => None,
    }
}

#[tactic(auto, unfolding(crate::specs::Words::measure_of))]
fn measure_of(word: &[u8]) -> Option<Measure>
    ensures { result ≡ spec.measure_of word.now }
{
    meaning(word, &MEASURES)
}

/// What an option of NODE sets.
pub(crate) fn measure_in(token: &Token) -> Option<Measure>
    ensures { result ≡ word_in spec.measure_of token.now }
{
    match token {
        Token::Word(word) => measure_of(word.as_slice()),
        _ => None,
    }
}
