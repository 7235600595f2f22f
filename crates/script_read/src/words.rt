//! The words that tell the forms of a command apart.

/// The first word of a command that is no call of a client.
#[derive(Clone, Copy, Debug, PartialEq, Eq)]
pub enum Verb {
    Node,
    Cut,
    Join,
    Lose,
    Stop,
    Start,
    Crash,
    Fault,
    Hold,
    Deliver,
    Again,
    Pump,
    GiveUp,
    Reco,
    Show,
}

/// What follows LOSE.
#[derive(Clone, Copy, Debug, PartialEq, Eq)]
pub enum Lost {
    /// The number of a message.
    Number(u32),
    /// NEXT
    Next,
}

/// What follows the number of a CRASH.
#[derive(Clone, Copy, Debug, PartialEq, Eq)]
pub enum Left {
    Keep,
    Leave,
}

/// What follows SHOW.
#[derive(Clone, Copy, Debug, PartialEq, Eq)]
pub enum View {
    Pending,
    Neighbors,
    Book,
    Net,
    Disk,
    Undo,
}

/// What an option of NODE sets.
#[derive(Clone, Copy, Debug, PartialEq, Eq)]
pub enum Measure {
    Strength,
    Links,
    Undo,
}

/// An option of NODE.
#[derive(Clone, Copy, Debug, Drop, PartialEq, Eq)]
pub enum Setting {
    /// The commit point strength.
    Strength(u8),
    /// The links that a branch may have open.
    Links(u32),
    /// The undo extents.
    Undo(u32),
}

/// What the options of NODE set, each or its usual number.
#[derive(Clone, Copy, Debug, Drop, PartialEq, Eq)]
pub struct Settings {
    /// The commit point strength.
    pub strength: u8,
    /// The links that a branch may have open.
    pub links: u32,
    /// The undo extents.
    pub undo: u32,
}
