//! The words of the command line after the program's name, as clap reads them: the flag `--book`, and the option `--make` with a
//! whole number from 1 to 65,535. There is no help and no version.
//!
//! `specs/CommandLine.antt` says what words mean. clap is right about them by its own contract: which words it refuses, and why,
//! is a function of the words alone (`fault_of`), and so is what it takes them for (`matches_of`).
#![tactic(auto)]

mod options;

ghost use Rattle.std.specs.Prelude.{◌≡◌, map, IfOk, codes};
ghost use Rattle.std.specs.String.{string_bytes};
ghost use Rattle.clap.specs.Words.{FailsBy, fault_of, found_of, matches_of, rows_of};
ghost use Rattle.words.specs.Options.{HoldsNumber};
ghost use Rattle.words.specs.Table.{Table};
ghost use Rattle.words.specs.CommandLine.{Means, dtx};

use clap::error::ErrorKind;
use clap::{ArgMatches, Error};
pub use options::{bare, flag, is_flagged, number};
use std::alloc::Global;

/// What the words ask for.
#[derive(Clone, Copy, Debug, Drop, PartialEq)]
pub enum Words {
    /// The run of a script from the source, with the book after its report where that is wanted.
    Run { book: bool },
    /// The run of the script that is made from this number, with the book after its summary where that is wanted.
    Make { number: u16, book: bool },
    /// The words are not the program's.
    Usage,
    /// Memory ran out.
    NoMemory,
}

// What clap makes of the words.
fn parsed<'a>(alloc: Global, words: &'a [String]) -> Result<ArgMatches<'a>, Error>
    ensures kinds { FailsBy (fault_of dtx (map string_bytes words.entry.now)) result }
    ensures matches { IfOk result (λ m. rows_of (found_of m) ≡ matches_of dtx (map string_bytes words.entry.now)) }
    ensures number { IfOk result (HoldsNumber 65535 (codes "make")) }
{
    let book = flag(alloc, "book");
    let make = number(alloc, "make", 65535);
    bare(alloc, "dtx")
        .arg(book)?
        .arg(make)?
        .try_get_matches_from(words)
}

/// What the words after the program's name ask for. They are Usage exactly where clap refuses them, unless memory runs out.
pub fn read_words<'a>(alloc: Global, words: &'a [String]) -> Words
    ensures { Means (map string_bytes words.entry.now) result }
{
    match parsed(alloc, words) {
        Ok(matches) => {
            let book = is_flagged(&matches, "book");
            match matches.get_one::<u16>("make") {
                Some(number) => Words::Make { number, book },
                None => Words::Run { book },
            }
        }
        Err(error) => {
            if error.kind() == ErrorKind::OutOfMemory {
                Words::NoMemory
            } else {
                Words::Usage
            }
        }
    }
}

/// What clap makes of words that are written out. This function does nothing: its contract is the theorem.
pub fn written_out_words()
    ensures { Table }
{}
