//! What a branch does about the calls that come to it.
ghost use Rattle.std.specs.Prelude.{◌≡◌};
ghost use Rattle.std.specs.Option.{option_copied};
ghost use Rattle.link_session.specs.Calls.{no_calls, admit as admit_of, admitted, with_reply};

use crate::{Admit, Calls, ReplyFields};

impl Calls {
    /// Before any call.
    pub fn new() -> Calls
        ensures { result ≡ no_calls }
    {
        Calls {
            last_call: 0,
            reply: None,
        }
    }

    /// What the branch does about a call of this number that comes to it. A call that it runs is the last one from then
    /// on, and is not answered yet; any other changes nothing.
    #[tactic(auto, unfolding(crate::specs::Calls::admit))]
    pub fn admit(&mut self, call: u32) -> Admit
        ensures answer { result ≡ admit_of self.old call }
        ensures after { self.new ≡ admitted self.old call }
    {
        if self.last_call < call {
            *self = Calls {
                last_call: call,
                reply: None,
            };
            Admit::Run
        } else if call == self.last_call && self.reply.is_some() {
            Admit::Again
        } else {
            Admit::Ignore
        }
    }

    /// Keeps the Reply of the last call, for when that call comes again.
    pub fn keep(&mut self, reply: ReplyFields)
        ensures { self.new ≡ with_reply self.old reply }
    {
        self.reply = Some(reply);
    }

    /// The Reply of the last call, where it was answered.
    pub fn kept(&self) -> Option<&ReplyFields>
        ensures { option_copied result ≡ self.now.reply }
    {
        self.reply.as_ref()
    }
}
