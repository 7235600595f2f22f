//! What a picture of a run shows, as data: a lane for each node, the commands with their texts and answers, each message
//! with its end, and what nodes did, from the happenings of the run.
//!
//! [`marks`] gives exactly `marks_of` of `specs/Marks.antt`, in one walk over the happenings for each kind of marks.
//! Calls fail where memory runs out, and where a picture would have more than 4,294,967,295 rows.
#![tactic(auto)]

mod all_marks;
mod arrows;
mod bands;
mod cursor;
mod doubts;
mod laws;
mod mark;
mod notes;
mod partings;
mod repeats;
mod walk;

pub use all_marks::marks;
pub use laws::each_message_has_its_arrow;
pub use mark::{
    Arrow, Band, Doubt, End, Marks, Note, NoteKind, Outage, Parting, Repeat, Side, Tale, Told,
};
