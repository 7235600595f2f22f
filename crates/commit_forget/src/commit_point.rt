//! What a live branch does about CommitPoint.
ghost use Rattle.std.specs.Prelude.{◌≡◌, ◌≤◌, length};
ghost use Rattle.dtx_values.specs.Limits.{link_limit};
ghost use Rattle.commit_forget.specs.Next.{commit_point_act, pointed_act};

use session_tree::{Act, Live, Phase, Walk, step};

/// What a live branch does about CommitPoint, which only a branch hears that answered Ready: the commit point site decides,
/// another branch becomes sealed and passes it on down the walk.
#[tactic(auto, unfolding(crate::specs::Next::pointed_act))]
pub fn on_commit_point(live: &Live) -> Act
    requires { length live.now.edges ≤ link_limit }
    ensures { result ≡ pointed_act live.now }
{
    match live.phase {
        Phase::Ready => pointed(step(live)),
        _ => Act::Rest,
    }
}

fn pointed(walk: Walk) -> Act
    ensures { result ≡ commit_point_act walk }
{
    match walk {
        Walk::Here => Act::Decide,
        Walk::Down(number) => Act::SealAndPass(number),
        Walk::Nowhere => Act::Rest,
    }
}
