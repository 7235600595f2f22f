//! The words of dtx-chart's command line after the program's name, as clap reads them: the flag `--text`, and the options
//! `--from` and `--to` with the number of a command, from 1 to 4,294,967,295. There is no help and no version. Of an option
//! that is there twice the last number holds.
//!
//! `specs/CommandLine.antt` says what words mean. As in `words`, which words clap refuses, and why, is a function of the words
//! alone (`fault_of`), and so is what it takes them for (`matches_of`).
#![tactic(auto)]

ghost use Rattle.std.specs.Prelude.{◌≡◌, map, IfOk, codes};
ghost use Rattle.std.specs.String.{string_bytes};
ghost use Rattle.clap.specs.Words.{FailsBy, fault_of, found_of, matches_of, one_text, rows_of};
ghost use Rattle.words.specs.Options.{HoldsNumber};
ghost use Rattle.chart_words.specs.CommandLine.{IsChosen, Means, dtx_chart, greatest};
ghost use Rattle.chart_words.specs.Table.{Table};

use clap::error::ErrorKind;
use clap::{ArgMatches, Error};
use std::alloc::Global;
use words::{bare, flag, is_flagged, number};

/// What is drawn.
#[derive(Clone, Copy, Debug, PartialEq)]
pub struct Choices {
    /// Whether plain text is wanted, and no SVG.
    pub text: bool,
    /// The first command that is drawn.
    pub first: u32,
    /// The last one, as far as it is drawn.
    pub last: u32,
}

/// What the words ask for.
#[derive(Clone, Copy, Debug, Drop, PartialEq)]
pub enum Words {
    /// The picture of a run.
    Draw(Choices),
    /// The words are not the program's.
    Usage,
    /// Memory ran out.
    NoMemory,
}

// What clap makes of the words.
fn parsed<'a>(alloc: Global, words: &'a [String]) -> Result<ArgMatches<'a>, Error>
    ensures kinds { FailsBy (fault_of dtx_chart (map string_bytes words.entry.now)) result }
    ensures matches { IfOk result (λ m. rows_of (found_of m) ≡ matches_of dtx_chart (map string_bytes words.entry.now)) }
    ensures from { IfOk result (HoldsNumber greatest (codes "from")) }
    ensures to { IfOk result (HoldsNumber greatest (codes "to")) }
{
    let text = flag(alloc, "text");
    let from = number(alloc, "from", 4_294_967_295);
    let to = number(alloc, "to", 4_294_967_295);
    bare(alloc, "dtx_chart")
        .args_override_self(true)
        .arg(text)?
        .arg(from)?
        .arg(to)?
        .try_get_matches_from(words)
}

// The number of the option of this name, or another one where the option is not there.
fn number_or(matches: &ArgMatches<'_>, name: &str, other: u32) -> u32
    requires { HoldsNumber greatest name.now matches.now }
    ensures { IsChosen other (one_text (found_of matches.now) name.now) result }
{
    match matches.get_one::<u32>(name) {
        Some(number) => number,
        None => other,
    }
}

/// What the words after the program's name ask for. They are Usage exactly where clap refuses them, unless memory runs out.
pub fn read_words<'a>(alloc: Global, words: &'a [String]) -> Words
    ensures { Means (map string_bytes words.entry.now) result }
{
    match parsed(alloc, words) {
        Ok(matches) => {
            let text = is_flagged(&matches, "text");
            let first = number_or(&matches, "from", 1);
            let last = number_or(&matches, "to", 4_294_967_295);
            Words::Draw(Choices { text, first, last })
        }
        Err(error) => {
            if error.kind() == ErrorKind::OutOfMemory {
                Words::NoMemory
            } else {
                Words::Usage
            }
        }
    }
}

/// What clap makes of words that are written out. This function does nothing: its contract is the theorem.
pub fn written_out_words()
    ensures { Table }
{}
