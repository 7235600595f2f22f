//! The calls that come to a branch over the link from its parent.
ghost use Rattle.std.specs.Prelude.{◌≡◌};

use crate::ReplyFields;

/// What a branch does about an Exec.
#[derive(Clone, Copy, Debug, PartialEq, Eq)]
pub enum Admit {
    /// It runs the statement: the number comes for the first time.
    Run,
    /// It gives the answer that it gave before: the number is the last one, and was answered.
    Again,
    /// It does nothing: the number is a lower one, or its statement is not answered yet.
    Ignore,
}

/// The calls that came to a branch from its parent.
pub struct Calls {
    /// The greatest call number that came, and 0 before any.
    pub last_call: u32,
    /// What that call was answered with, once it was.
    pub reply: Option<ReplyFields>,
}

impl Drop for Calls {
    fn drop(self) {
        let Calls {
            last_call: _last_call,
            reply,
        } = self;
        drop(reply);
    }
}
