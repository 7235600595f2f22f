//! Laws alone.
ghost use Rattle.node_calls.specs.Ready.{BranchesMayOpen, OpenedMayCome, RepliesMayCome, StatementsMayCome, TransactionsMayBegin};

use node_ready_laws::{ids_stay_apart, names_stay, ready_nodes_have_few};

/// A node that is ready for its next turn meets each condition of the calls of this crate, as long as the numbers that it has
/// given out fit, its LINKS is within the limit, and there are few nodes. A Reply may come that tells of 256 branches at most.
pub fn ready_nodes_take_calls()
    ensures statements { StatementsMayCome }
    ensures transactions { TransactionsMayBegin }
    ensures opens { BranchesMayOpen }
    ensures opened { OpenedMayCome }
    ensures replies { RepliesMayCome }
{
    ready_nodes_have_few();
    names_stay();
    ids_stay_apart();
}
