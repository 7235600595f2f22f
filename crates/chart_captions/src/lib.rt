//! The captions of a picture of a run: for each command its text, in the words of a script, and its answers, in lines that
//! fit beside the lanes and break between words. Calls fail where memory runs out and for no other reason.
#![tactic(auto)]

mod broken;
mod captions;
mod command;

pub use captions::tale;
