//! Turns as tests expect them.
use crate::coming::Comes;
use crate::lone::LoneNode;
use crate::says::{Letter, bytes_of};
use node_disk::{DurableTurn, Finished, Mailed};
use node_points::Point;
use redo_record::{Decision, RedoRecord};
use report::answer_lines;
use std::alloc::Global;

/// The record of a turn, by what a test looks at.
#[derive(Clone, Copy, PartialEq, Eq)]
pub enum Wrote {
    Nothing,
    /// A table, a link or a setting.
    Made,
    /// A branch is prepared: the SCN, and how many changes.
    Sealed(u64, usize),
    /// The commit point site decided: the SCN, and how many changes.
    Decided(u64, usize),
    Ended(Decision),
    Forced(Decision),
    /// The decision, and whether it is another outcome than the forced one.
    Met(Decision, bool),
    Forgot,
    Hidden,
}

/// A turn: what comes, the record that it writes, the messages that it sends, and the lines of the answer that it gives.
pub type Step = (Comes, Wrote, &'static [Letter], &'static [&'static [u8]]);

/// The record of a turn.
fn wrote_of(wrote: &Option<RedoRecord>) -> Option<Wrote> {
    match wrote {
        None => Some(Wrote::Nothing),
        Some(RedoRecord::Table(_)) => Some(Wrote::Made),
        Some(RedoRecord::Link(_)) => Some(Wrote::Made),
        Some(RedoRecord::Param(_)) => Some(Wrote::Made),
        Some(RedoRecord::Sealed(sealed)) => Some(Wrote::Sealed(
            sealed.scn,
            sealed.changes.as_slice().len(),
        )),
        Some(RedoRecord::Decided(decided)) => Some(Wrote::Decided(
            decided.scn,
            decided.changes.as_slice().len(),
        )),
        Some(RedoRecord::Ended { decision, .. }) => Some(Wrote::Ended(*decision)),
        Some(RedoRecord::Forced { decision, .. }) => Some(Wrote::Forced(*decision)),
        Some(
            RedoRecord::Met {
                decision,
                mixed,
                ..
            },
        ) => Some(Wrote::Met(*decision, *mixed)),
        Some(RedoRecord::Forgot(_)) => Some(Wrote::Forgot),
        Some(RedoRecord::Hidden(_)) => Some(Wrote::Hidden),
        _ => None,
    }
}

/// Whether these are the bytes of a message.
fn is_sent(alloc: Global, mail: &Mailed, letter: &Letter) -> bool {
    match bytes_of(alloc, letter) {
        Some(bytes) => mail.bytes.as_slice() == bytes.as_slice(),
        None => false,
    }
}

/// Whether these messages were sent, and no others.
fn are_sent(alloc: Global, mails: &[Mailed], letters: &[Letter]) -> bool {
    mails.len() == letters.len()
        && mails
            .iter()
            .zip(letters.iter())
            .all(|(mail, letter)| is_sent(alloc, mail, letter))
}

/// Whether these are the lines of an answer.
fn is_answered(alloc: Global, end: &Finished, lines: &[&[u8]]) -> bool {
    match answer_lines(alloc, end.answer()) {
        Ok(answer) => {
            answer.len() == lines.len()
                && answer
                    .iter()
                    .zip(lines.iter())
                    .all(|(given, line)| given.as_slice() == *line)
        }
        Err(_) => false,
    }
}

/// Whether a turn ends a call with these lines, or none where there are none.
fn are_ended(alloc: Global, ends: &[Finished], lines: &[&[u8]]) -> bool {
    match ends {
        [] => lines.is_empty(),
        [end] => is_answered(alloc, end, lines),
        _ => false,
    }
}

/// Whether a turn tells just this.
fn tells(
    alloc: Global,
    effects: DurableTurn,
    wrote: Wrote,
    letters: &[Letter],
    lines: &[&[u8]],
) -> bool {
    let tells = wrote_of(&effects.wrote) == Some(wrote)
        && are_sent(alloc, effects.sent.as_slice(), letters)
        && are_ended(alloc, effects.ended.as_slice(), lines);
    drop(effects);
    tells
}

/// A turn of a test by its place: its part, and its number there, each from 0.
pub type Turn = (usize, usize);

impl LoneNode {
    /// Whether a turn is whole under these points, and as expected.
    pub fn does(&mut self, alloc: Global, step: &Step, points: &[Point]) -> bool {
        let (comes, wrote, letters, lines) = step;
        match self.take(alloc, comes, points) {
            Ok(effects) => tells(alloc, effects, *wrote, letters, lines),
            Err(_at) => false,
        }
    }

    /// Whether a call of session 1 ends in its turn with just these lines, and nothing is written or sent.
    pub fn answers(&mut self, alloc: Global, text: &'static [u8], lines: &[&[u8]]) -> bool {
        match self.take(alloc, &Comes::Call(1, text), &[]) {
            Ok(effects) => tells(alloc, effects, Wrote::Nothing, &[], lines),
            Err(_at) => false,
        }
    }

    // The number of the first of these turns that is not as expected, from 0.
    fn first_other(&mut self, alloc: Global, steps: &[Step]) -> Option<usize> {
        for number in 0..steps.len() {
            if !self.does(alloc, &steps[number], &[]) {
                return Some(number);
            }
        }
        None
    }

    /// The first turn of these parts that is not as expected.
    pub fn play(&mut self, alloc: Global, parts: &[&[Step]]) -> Option<Turn> {
        for part in 0..parts.len() {
            if let Some(number) = self.first_other(alloc, parts[part]) {
                return Some((part, number));
            }
        }
        None
    }
}
