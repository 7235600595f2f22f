//! What a picture is made of.

use chart_marks::{NoteKind, Side};
use dtx_values::{Bytes, Texts};

/// A point of a picture.
#[derive(Clone, Copy, Debug)]
pub struct Spot {
    /// How far it is from the left edge.
    pub x: u64,
    /// How far it is from the upper edge.
    pub y: u64,
}

/// What a line stands for.
#[derive(Clone, Copy, Debug, PartialEq, Eq)]
pub enum LineKind {
    /// The lane of a node.
    Lane,
    /// The upper edge of a command's rows.
    Command,
    /// A message that was delivered.
    Delivered,
    /// A message that was lost.
    Lost,
    /// A message that is still in flight.
    InFlight,
    /// A copy of a message.
    Repeat,
    /// A pair of nodes that is cut.
    Cut,
    /// A pair of nodes that is joined.
    Joined,
}

/// What a bar on a lane stands for.
#[derive(Clone, Copy, Debug, PartialEq, Eq)]
pub enum BarKind {
    /// A branch is in doubt.
    Doubt,
    /// The node is down.
    Outage,
}

/// What a text is.
#[derive(Clone, Copy, Debug, PartialEq, Eq)]
pub enum TextKind {
    /// The title of the picture.
    Title,
    /// What a sign or a line means.
    Meaning,
    /// The name of a node, above its lane.
    Node,
    /// The number of a command.
    Number,
    /// A message or a pair of nodes, on this side of a lane.
    Message(Side),
    /// What a node did or met, on this side of its lane.
    NoteKind(Side),
}

/// A shape of a picture.
#[derive(Drop)]
pub enum Shape {
    /// A line from a point to a point.
    Line {
        /// Where it begins.
        from: Spot,
        /// Where it ends.
        to: Spot,
        /// What it stands for.
        kind: LineKind,
    },
    /// A bar.
    Bar {
        /// Its upper left corner.
        corner: Spot,
        /// Its width.
        width: u64,
        /// Its height.
        height: u64,
        /// What it stands for.
        kind: BarKind,
    },
    /// The sign of what a node did or met.
    Sign {
        /// Where its middle is.
        at: Spot,
        /// What was done or met.
        note_kind: NoteKind,
    },
    /// A text.
    Text {
        /// Where it begins, or ends where it stands left of a lane.
        at: Spot,
        /// What it is.
        kind: TextKind,
        /// Its bytes.
        text: Bytes,
    },
    /// A text of several lines.
    Lines {
        /// The point above the first line.
        at: Spot,
        /// The lines.
        lines: Texts,
    },
}
