//! The trace of a run, which takes only what is due, and its book.
ghost use Rattle.std.specs.Prelude.{◌≡◌, ◌<◌, ◌≤◌, ◌∷◌, ◌++◌, [], length, nat_lt, IfOk, OnOk, OnErr, vec_len, vec_capacity};
ghost use Rattle.run_rules.specs.Entries.{entries_in, book_of};
ghost use Rattle.run_rules.specs.Past.{next};
ghost use Rattle.run_trace.specs.Recorded.{Extends, IsDueNext, IsRunOfScript, happening_limit, past_of};

use book::{Book, Entry, Happening, entries};
use dtx_values::Listing;
use redo_record::{Place, Places};
use script_read::{Command, Commands};
use std::alloc::{AllocError, Global};
use std::marker::Model;

/// How many happenings a trace takes.
const HAPPENING_LIMIT: usize = 2_147_483_648;

/// The nodes of a run and its script, and what has happened so far, each happening the one that was due; beside them the
/// book of their records.
#[derive(Drop)]
pub struct Trace {
    places: Places,
    asked: Commands,
    happenings: Vec<Happening>,
    book: Vec<Entry>,
}

impl Model for Trace {
    ghost use Rattle.run_trace.specs.Recorded.{IsRecorded, RunSoFar};

    ghost Value = { RunSoFar };

    ghost view = { λ t. record { places = t.places; asked = t.asked; happenings = t.happenings.items } };

    ghost invariant = { λ t. IsRecorded t.places t.asked t.happenings.items t.book.items };
}

/// A trace as plain lists.
#[derive(Drop)]
pub struct RunRecord {
    /// The places of the nodes, in the order of their numbers.
    pub places: Places,
    /// The commands of the script.
    pub asked: Commands,
    /// What happened, oldest first.
    pub happenings: book::Trace,
    /// The entries of the records that it wrote, in order.
    pub book: Book,
}

/// The entries of a happening's record.
fn entered(alloc: Global, happening: &Happening) -> Result<Vec<Entry>, AllocError>
    ensures { IfOk result (λ entries. entries.items ≡ entries_in happening.now) }
{
    match happening {
        Happening::Turn(turn) => entries(alloc, turn.node, &turn.wrote),
        _ => Ok(Vec::new(alloc)),
    }
}

/// Whether a trace takes one happening more.
fn has_room(happenings: &Vec<Happening>) -> bool
    ensures { result ≡ nat_lt (length happenings.now.items) happening_limit }
{
    happenings.len() < HAPPENING_LIMIT
}

/// Makes room for one happening more, of at most 2 ^ 31, and adds its entries to the book, or does nothing.
fn make_room(
    alloc: Global,
    happenings: &mut Vec<Happening>,
    book: &mut Vec<Entry>,
    happening: &Happening,
) -> Result<(), AllocError>
    ensures kept { happenings.new.items ≡ happenings.old.items }
    ensures few { OnOk result (length happenings.old.items < happening_limit) }
    ensures room { OnOk result (vec_len happenings.new < vec_capacity happenings.new) }
    ensures entered { OnOk result (book.new.items ≡ book.old.items ++ entries_in happening.now) }
    ensures err { OnErr result (book.new.items ≡ book.old.items) }
{
    if !has_room(happenings) {
        return Err(AllocError);
    }
    let mut entries = entered(alloc, happening)?;
    happenings.try_reserve(1)?;
    book.append(&mut entries)
}

/// Adds one happening more, for which there is room.
fn add(happenings: &mut Vec<Happening>, happening: Happening)
    requires { vec_len happenings.old < vec_capacity happenings.old }
    ensures { happenings.new.items ≡ happenings.old.items ++ happening ∷ [] }
{
    match happenings.push(happening) {
        Ok(()) => {}
        Err(_) => unreachable!(),
    }
}

impl Trace {
    /// The trace of a run in which nothing has happened, over nodes of these places.
    #[tactic(auto, using(crate::proofs::RecordedLemmas::recorded_steps))]
    pub fn new(alloc: Global, places: Places, asked: Commands) -> Trace
        ensures { result ≡ record { places = places; asked = asked; happenings = [] } }
    {
        Trace {
            places,
            asked,
            happenings: Vec::new(alloc),
            book: Vec::new(alloc),
        }
    }

    /// The places of the nodes, in the order of their numbers.
    pub fn places(&self) -> &[Place]
        ensures { result.now ≡ self.now.places }
    {
        self.places.as_slice()
    }

    /// The commands of the script.
    pub fn asked(&self) -> &[Command]
        ensures { result.now ≡ self.now.asked }
    {
        self.asked.as_slice()
    }

    /// What has happened so far, oldest first.
    pub fn happenings(&self) -> &[Happening]
        ensures { result.now ≡ self.now.happenings }
    {
        &self.happenings
    }

    /// The book so far.
    pub fn book(&self) -> &[Entry]
        ensures entries { result.now ≡ book_of self.now.happenings }
        ensures kept { result.now ≡ (past_of self.now).facts.book }
    {
        &self.book
    }

    /// How many happenings there were so far.
    pub fn count(&self) -> usize
        ensures { result ≡ length self.now.happenings }
    {
        self.happenings.len()
    }

    /// Adds what happens next, which has to be what is due, with its entries. Fails where memory runs out, or where there were
    /// 2 ^ 31 happenings before, and then adds nothing.
    #[tactic(auto, using(crate::proofs::RecordedLemmas::recorded_steps, crate::proofs::ExtendsLemmas::extends_steps))]
    pub fn push(&mut self, alloc: Global, happening: Happening) -> Result<(), AllocError>
        requires { IsDueNext self.old happening }
        ensures ok { OnOk result (self.new ≡ record self.old { happenings = self.old.happenings ++ happening ∷ [] }) }
        ensures past { OnOk result (past_of self.new ≡ next self.old.places self.old.asked (past_of self.old) happening) }
        ensures few { OnOk result (length self.new.happenings ≤ happening_limit) }
        ensures err { OnErr result (self.new ≡ self.old) }
        ensures extends { Extends self.old self.new }
    {
        match make_room(alloc, &mut self.happenings, &mut self.book, &happening) {
            Err(error) => {
                drop(happening);
                Err(error)
            }
            Ok(()) => {
                add(&mut self.happenings, happening);
                Ok(())
            }
        }
    }

    /// Each happening was the one that was due after those before it, and there are not too many.
    pub fn is_run(&self)
        ensures run { IsRunOfScript self.now }
        ensures few { length self.now.happenings ≤ happening_limit }
    {
        let _asked = &self.asked;
    }

    /// The trace as plain lists.
    pub fn into_recorded(self) -> RunRecord
        ensures places { result.places ≡ self.places }
        ensures asked { result.asked ≡ self.asked }
        ensures happenings { result.happenings ≡ self.happenings }
        ensures book { result.book ≡ book_of self.happenings }
        ensures run { IsRunOfScript self }
    {
        RunRecord {
            places: self.places,
            asked: self.asked,
            happenings: Listing::of(self.happenings),
            book: Listing::of(self.book),
        }
    }
}
