//! What a READ ONLY transaction reads, it reads again.
//!
//! A READ ONLY transaction reads at a node what was committed there up to its SCN. Whatever commits there later has a greater
//! SCN, unless a branch is forced to commit with a given one: so the rows that it reads stay as they are, at each key that was
//! not in doubt (`specs/RepeatLaws.antt`).
#![tactic(auto)]

ghost use Rattle.repeat_read_laws.specs.RepeatLaws.{EveryReadStays, EveryReaderIsBelow, EveryReaderReadsTheSame};
ghost use Rattle.repeat_read_laws.specs.TriedReads.{TheTriedReads};

/// In every lawful run the rows of a node up to an SCN that its clock had reached stay as they are, at each key that was not in
/// doubt, while the node goes on without a start and no branch of it is forced to commit at an SCN up to that one.
pub fn every_read_stays()
    ensures { EveryReadStays }
{}

/// In every lawful run a live branch of a READ ONLY transaction reads at an SCN that its node's clock has reached: the clock of
/// the root's node as the transaction began, which came with the messages that opened the branch.
pub fn every_reader_is_below()
    ensures { EveryReaderIsBelow }
{}

/// So what a READ ONLY transaction reads by a branch stays while the branch lives, at each key that was not in doubt, unless a
/// branch of its node is forced to commit at an SCN up to the transaction's own.
pub fn every_reader_reads_the_same()
    ensures { EveryReaderReadsTheSame }
{}

/// The law is not about nothing: in a run a READ ONLY transaction reads the row 1 twice, though the row 2 was committed between;
/// had a branch been forced to commit with the transaction's own SCN, it would read both.
pub fn the_tried_reads()
    ensures { TheTriedReads }
{}
