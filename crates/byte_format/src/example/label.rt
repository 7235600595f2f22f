//! What stands on the label of a parcel.
ghost use Rattle.std.specs.Prelude.{◌≡◌};

use std::marker::Model;

/// The numbers of the places that a parcel passes, in order.
#[derive(Drop)]
pub struct Stops {
    items: Vec<u16>,
}

impl Model for Stops {
    ghost use Rattle.std.specs.Prelude.{List, ℕ};

    ghost Value = { List ℕ };

    ghost view = { λ stops. stops.items.items };
}

impl Stops {
    /// These places.
    pub fn of(items: Vec<u16>) -> Stops
        ensures { result ≡ items.items }
    {
        Stops { items }
    }

    /// The places as a slice.
    pub fn as_slice(&self) -> &[u16]
        ensures { result.now ≡ self.now }
    {
        self.items.as_slice()
    }
}

/// Some bytes.
#[derive(Drop)]
pub struct Text {
    bytes: Vec<u8>,
}

impl Model for Text {
    ghost use Rattle.std.specs.Prelude.{List, ℕ};

    ghost Value = { List ℕ };

    ghost view = { λ text. text.bytes.items };
}

impl Text {
    /// These bytes.
    pub fn of(bytes: Vec<u8>) -> Text
        ensures { result ≡ bytes.items }
    {
        Text { bytes }
    }

    /// The bytes as a slice.
    pub fn as_slice(&self) -> &[u8]
        ensures { result.now ≡ self.now }
    {
        self.bytes.as_slice()
    }
}

/// What a parcel holds.
#[derive(Drop)]
pub enum Contents {
    /// So many letters.
    Letters(u16),
    /// A thing, by its name.
    Thing(Text),
}

/// The label of a parcel.
#[derive(Drop)]
pub struct Label {
    /// Its weight in grams.
    pub weight: u16,
    /// The sum that it is insured for, if it is.
    pub insured: Option<u64>,
    /// The places that it passes.
    pub stops: Stops,
    /// What it holds.
    pub contents: Contents,
}
