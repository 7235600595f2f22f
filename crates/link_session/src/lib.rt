//! What a link carries between two branches: the calls that come to a branch, each run once, and the Opens that a node
//! answered, each with one child. Messages may come again, and late ones behind newer ones.
#![tactic(auto)]

ghost use Rattle.link_session.specs.Once.{CallsRunOnce, RepeatsAreAnswered};

mod admitting;
mod calls;
mod open_key;
mod opening;
mod opens;
mod reply;

pub use calls::{Admit, Calls};
pub use opening::Opening;
pub use opens::Opens;
pub use reply::ReplyFields;

/// However often calls are delivered, a call is run exactly where its number is above all that came before it. So each
/// number is run at most once, and they are run in order.
pub fn calls_run_once()
    ensures { CallsRunOnce }
{}

/// The last call that was run gets the Reply that was kept of it whenever it comes again, once it was answered, and
/// nothing before. Calls of lower numbers get nothing.
pub fn repeats_are_answered()
    ensures { RepeatsAreAnswered }
{}
