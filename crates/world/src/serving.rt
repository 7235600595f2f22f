//! The node of a site takes its turn.
ghost use Rattle.std.specs.Prelude.{◌≡◌, IfErr, IfOk, IfSome};
ghost use Rattle.node_rules.specs.Sessions.{session_at};
ghost use Rattle.world.specs.Served.{CanServe, HasServed, HasFailed};
ghost use Rattle.world.specs.NodeSlot.{site_kept};
ghost use Rattle.world.specs.Turns.{CallerIs};

use crate::slot::NodeSlot;
use node_disk::{DurableTurn, Incoming, TurnErr};
use node_rules::{PendingCall, Session};
use run_report_parts::Point;

/// The turn of a node that is up and can take what comes.
#[tactic(auto, using(node_disk::proofs::CutLaws::end_parts))]
pub(crate) fn serve(
    slot: &mut NodeSlot,
    incoming: Incoming,
    points: &[Point],
) -> Result<DurableTurn, TurnErr>
    requires { CanServe slot.old incoming }
    ensures served { IfOk result (HasServed slot.old slot.new incoming points.now) }
    ensures failed { IfErr result (HasFailed slot.old slot.new incoming points.now) }
{
    match slot {
        NodeSlot::Up(node) => match node.turn(incoming, points) {
            Ok(effects) => Ok(effects),
            Err(err) => Err(err),
        },
        NodeSlot::Down(_disk) => unreachable!(),
    }
}

/// The session that calls, where the input is a client's call.
pub(crate) fn caller(slot: &NodeSlot, incoming: &Incoming) -> Session
    ensures { CallerIs incoming.now (site_kept slot.now) result }
{
    match incoming {
        Incoming::Call {
            session,
            statement: _statement,
        } => session_of(slot, *session),
        Incoming::GiveUp { session: _session } => no_session(),
        Incoming::Message(_bytes) => no_session(),
        Incoming::Reco => no_session(),
    }
}

// A session of the node, where it is up.
fn session_of(slot: &NodeSlot, session: u32) -> Session
    ensures { IfSome (site_kept slot.now) (λ k. result ≡ session_at k.sessions session) }
{
    match slot {
        NodeSlot::Up(node) => node.session(session),
        NodeSlot::Down(_disk) => no_session(),
    }
}

// A session that has made no call.
fn no_session() -> Session {
    Session {
        seq: 0,
        root: None,
        advice: None,
        calls: 0,
        code: None,
        call: PendingCall::NoCall,
    }
}
