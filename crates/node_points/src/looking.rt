//! Which places a branch may pass in its next turn.
ghost use Rattle.std.specs.Prelude.{◌≡◌, ◌≤◌, length, option_map, IfSome, None};
ghost use Rattle.std.specs.Option.{option_copied};
ghost use Rattle.dtx_values.specs.Limits.{link_limit};
ghost use Rattle.node_rules.specs.Points.{has_edges as has_edges_of, ended_points as ended_points_of, forgot_points as forgot_points_of, ready_points as ready_points_of};
ghost use Rattle.node_points.specs.Passing.{passes_as, IsAhead};

use crate::Passes;
use crash_points::TurnPlace;
use redo_record::KeptRow;
use session_tree::{Live, Walk, step};

/// The places that a branch may pass in its next turn, as far as they depend on what its node keeps of it.
#[derive(Clone, Copy)]
pub struct Ahead {
    /// Where it says Ready.
    pub ready: Option<Passes>,
    /// Whether it has children.
    pub has_children: bool,
    /// Where it ends by a commit.
    pub ended: Option<Passes>,
    /// Where it forgets.
    pub forgot: Option<Passes>,
}

impl Ahead {
    /// What is ahead of a branch that is live, or has a row, or neither.
    pub fn of(live: Option<&Live>, row: Option<&KeptRow>) -> Ahead
        requires { IfSome live (λ l. length l.now.edges ≤ link_limit) }
        ensures { IsAhead (option_copied live.entry) (option_copied row.entry) result }
    {
        Ahead {
            ready: ready_points(live),
            has_children: has_edges(live),
            ended: ended_points(row),
            forgot: forgot_points(row),
        }
    }

    /// Nothing is ahead of a branch that the node does not know.
    pub fn nothing() -> Ahead
        ensures { IsAhead None None result }
    {
        Ahead {
            ready: None,
            has_children: false,
            ended: None,
            forgot: None,
        }
    }
}

fn has_edges(live: Option<&Live>) -> bool
    ensures { result ≡ has_edges_of (option_copied live.entry) }
{
    match live {
        None => false,
        Some(live) => live.edges.as_slice().get(0).is_some(),
    }
}

fn ready_points(live: Option<&Live>) -> Option<Passes>
    requires { IfSome live (λ l. length l.now.edges ≤ link_limit) }
    ensures { option_map passes_as result ≡ ready_points_of (option_copied live.entry) }
{
    match live {
        None => None,
        Some(live) => Some(Passes {
            root: live.root,
            at_site: matches!(step(live), Walk::Here),
            collected: true,
            before: None,
            after: None,
        }),
    }
}

fn ended_points(row: Option<&KeptRow>) -> Option<Passes>
    ensures { option_map passes_as result ≡ ended_points_of (option_copied row.entry) }
{
    match row {
        None => None,
        Some(row) => Some(Passes {
            root: row.root,
            at_site: false,
            collected: false,
            before: Some(TurnPlace::BeforeEnded),
            after: Some(TurnPlace::AfterEnded),
        }),
    }
}

fn forgot_points(row: Option<&KeptRow>) -> Option<Passes>
    ensures { option_map passes_as result ≡ forgot_points_of (option_copied row.entry) }
{
    match row {
        None => None,
        Some(row) => Some(Passes {
            root: row.root,
            at_site: row.toward.is_none(),
            collected: false,
            before: Some(TurnPlace::BeforeForgot),
            after: None,
        }),
    }
}
