//! The messages of a run by number, and which of them are in flight.
ghost use Rattle.std.specs.Prelude.{◌≡◌, ◌+◌, ◌++◌, ◌∷◌, [], ◌&&◌, false, if◌then◌else◌, length, fold, position, option_copied, option_map, IfOk, OnOk, OnErr};
ghost use Rattle.std.specs.BTreeSet.{insert_key};
ghost use Rattle.std.specs.Ordering.{nat_cmp};
ghost use Rattle.tran_ids.specs.Listed.{numbered as numbered_in};
ghost use Rattle.net_bag.specs.declared.packet.Fate.TheVariants as fates;
ghost use Rattle.net_bag.specs.Net.{flies, is_flying, fated, is_flying_at, numbers_where};
ghost use Rattle.net_bag.specs.Numbered.{flying_numbers, lines_at, met_at, passes_at};
ghost use Rattle.net_bag.specs.Route.{takes};
ghost use Rattle.net_bag.specs.Texts.{flying_lines};

use crate::Fate;
use crate::parcel::Parcel;
use crate::route::Route;
use dtx_values::{Bytes, Listing, Name};
use std::alloc::{AllocError, Global};
use std::collections::BTreeSet;
use std::marker::Model;

/// Numbers of messages, from 1, in order.
pub type Numbers = Listing<u64>;

/// Every message that was sent, and the numbers of those in flight.
#[derive(Drop)]
pub(crate) struct Flights {
    parcels: Vec<Parcel>,
    flying: BTreeSet<u64>,
}

impl Model for Flights {
    ghost use Rattle.std.specs.Prelude.{◌≡◌, List};
    ghost use Rattle.net_bag.specs.declared.packet.Packet.{Packet};
    ghost use Rattle.net_bag.specs.Numbered.{flying_numbers};

    ghost Value = { List Packet };

    ghost view = { λ f. f.parcels.items };

    ghost invariant = { λ f. f.flying.keys ≡ flying_numbers f.parcels.items };
}

impl Flights {
    /// No message.
    #[tactic(auto, unfolding(crate::specs::Numbered::flying_numbers))]
    pub(crate) fn new(alloc: Global) -> Flights
        ensures { result ≡ [] }
    {
        Flights {
            parcels: Vec::new(alloc),
            flying: BTreeSet::new(alloc),
        }
    }

    /// The number of the next message.
    pub(crate) fn next(&self) -> u64
        ensures { result ≡ length self.now + 1 }
    {
        self.parcels.len() as u64 + 1
    }

    /// The message of this number.
    pub(crate) fn at(&self, number: u64) -> Option<&Parcel>
        ensures { option_copied result ≡ numbered_in self.now number }
    {
        parcel_at(&self.parcels, number)
    }

    /// Whether there is a message of this number and it is in flight.
    pub(crate) fn is_flying(&self, number: u64) -> bool
        ensures { result ≡ is_flying_at (numbered_in self.now number) }
    {
        match self.at(number) {
            None => false,
            Some(parcel) => parcel.flies(),
        }
    }

    /// The message in flight with the least number.
    pub(crate) fn first(&self) -> Option<u64>
        ensures { result ≡ option_map (λ i. i + 1) (position flies self.now) }
    {
        self.flying.first().copied()
    }

    /// One more message. Fails where memory runs out, and then nothing has changed.
    pub(crate) fn push(&mut self, parcel: Parcel) -> Result<(), AllocError>
        ensures ok { OnOk result (self.new ≡ self.old ++ parcel ∷ []) }
        ensures err { OnErr result (self.new ≡ self.old) }
    {
        let number = self.parcels.len() as u64 + 1;
        self.parcels.try_reserve(1)?;
        note(&mut self.flying, number, parcel.flies())?;
        match self.parcels.push(parcel) {
            Ok(()) => Ok(()),
            Err(_) => unreachable!(),
        }
    }

    /// A message meets its fate, if it is in flight.
    pub(crate) fn meet(&mut self, number: u64, fate: Fate)
        requires { is_flying fate ≡ false }
        ensures { self.new ≡ met_at fate self.old number }
    {
        meet_at(&mut self.parcels, number, fate);
        self.flying.remove(&number);
    }

    /// The numbers of those in flight on a route. Fails where memory runs out.
    pub(crate) fn on_route(&self, alloc: Global, route: Route) -> Result<Numbers, AllocError>
        ensures { IfOk result (λ numbers. numbers ≡ numbers_where (λ x. flies x && takes route x) 1 self.now) }
    {
        let mut numbers = Vec::new(alloc);
        for number in self.flying.iter() {
            if passes(parcel_at(&self.parcels, *number), route) {
                numbers.push(*number)?;
            }
        }
        Ok(Listing::of(numbers))
    }

    /// Those of these numbers that are in flight are lost.
    pub(crate) fn lose(&mut self, numbers: &[u64])
        ensures { self.new ≡ fold (met_at fates.Lost) self.old numbers.now }
    {
        for number in numbers {
            self.meet(*number, Fate::Lost);
        }
    }

    /// The lines of those in flight. Fails where memory runs out.
    pub(crate) fn lines(&self, alloc: Global, names: &[Name]) -> Result<Vec<Bytes>, AllocError>
        ensures { IfOk result (λ lines. lines.items ≡ flying_lines names.now 1 self.now) }
    {
        let mut lines = Vec::new(alloc);
        for number in self.flying.iter() {
            add_line(
                &mut lines,
                alloc,
                names,
                *number,
                parcel_at(&self.parcels, *number),
            )?;
        }
        Ok(lines)
    }
}

fn parcel_at(parcels: &[Parcel], number: u64) -> Option<&Parcel>
    ensures { option_copied result ≡ numbered_in parcels.now number }
{
    if number == 0 {
        return None;
    }
    parcels.get((number - 1) as usize)
}

fn passes(parcel: Option<&Parcel>, route: Route) -> bool
    ensures { result ≡ passes_at (takes route) (option_copied parcel.entry) }
{
    match parcel {
        None => false,
        Some(parcel) => route.takes(parcel),
    }
}

fn add_line(
    lines: &mut Vec<Bytes>,
    alloc: Global,
    names: &[Name],
    number: u64,
    parcel: Option<&Parcel>,
) -> Result<(), AllocError>
    ensures { OnOk result (lines.new.items ≡ lines.old.items ++ lines_at names.now number (option_copied parcel.entry)) }
{
    if let Some(parcel) = parcel {
        lines.push(parcel.line(alloc, names, number)?)?;
    }
    Ok(())
}

// Notes a number that is in flight.
fn note(flying: &mut BTreeSet<u64>, number: u64, flies: bool) -> Result<(), AllocError>
    ensures ok { OnOk result (flying.new.keys ≡ (if flies then insert_key nat_cmp flying.old.keys number else flying.old.keys)) }
    ensures err { OnErr result (flying.new.keys ≡ flying.old.keys) }
{
    if flies {
        flying.insert(number)?;
    }
    Ok(())
}

fn meet_at(parcels: &mut Vec<Parcel>, number: u64, fate: Fate)
    ensures { parcels.new.items ≡ met_at fate parcels.old.items number }
{
    if number == 0 {
        return;
    }
    let place = (number - 1) as usize;
    if place >= parcels.len() {
        return;
    }
    meet(&mut parcels[place], fate);
}

fn meet(parcel: &mut Parcel, fate: Fate)
    ensures { parcel.new ≡ fated fate parcel.old }
{
    parcel.meet(fate);
}
