//! What comes to a node: a client's call, a call that is given up, a message, RECO.
ghost use Rattle.std.specs.Prelude.{◌≡◌, OnErr, OnOk};
ghost use Rattle.run_rules.specs.Due.{Pends, Gives_up, Delivers, Recovers};
ghost use Rattle.run_trace.specs.Recorded.{Extends};
ghost use Rattle.world.specs.Needs.{due_in};
ghost use Rattle.world.specs.Left.{StillReports};
ghost use Rattle.world.specs.Linked.{IsLinked};
ghost use Rattle.world.specs.Orders.{OrdersAre};
ghost use Rattle.world.specs.Steps.{StepsOn};

use crate::World;
use crate::laws::what_is_due_can_happen;
use book::Took;
use node_disk::Incoming;
use run_report_parts::Call;
use std::alloc::{AllocError, Global};
use world_parts::bytes_of;

impl World {
    /// A client's call.
    #[tactic(auto, using(crate::proofs::CallLemmas::call_steps))]
    pub(crate) fn call(&mut self, alloc: Global, call: Call) -> Result<(), AllocError>
        requires linked { IsLinked self.old }
        requires orders { OrdersAre self.old }
        requires due { due_in self.old.trace ≡ Pends call }
        ensures steps { OnOk result (StepsOn self.old self.new) }
        ensures orders { OnOk result (OrdersAre self.new) }
        ensures extends { Extends self.old.trace self.new.trace }
        ensures left { OnErr result (StillReports self.new) }
    {
        let Call {
            node,
            session,
            statement,
            ..
        } = call;
        self.turn(alloc, node, Incoming::Call { session, statement }, None)
    }

    /// A call is given up.
    #[tactic(auto, using(crate::proofs::CallLemmas::call_steps))]
    pub(crate) fn give_up(
        &mut self,
        alloc: Global,
        node: u8,
        session: u32,
    ) -> Result<(), AllocError>
        requires linked { IsLinked self.old }
        requires orders { OrdersAre self.old }
        requires due { due_in self.old.trace ≡ Gives_up node session }
        ensures steps { OnOk result (StepsOn self.old self.new) }
        ensures orders { OnOk result (OrdersAre self.new) }
        ensures extends { Extends self.old.trace self.new.trace }
        ensures left { OnErr result (StillReports self.new) }
    {
        self.turn(alloc, node, Incoming::GiveUp { session }, None)
    }

    /// RECO.
    #[tactic(auto, using(crate::proofs::CallLemmas::call_steps))]
    pub(crate) fn recover(&mut self, alloc: Global, node: u8) -> Result<(), AllocError>
        requires linked { IsLinked self.old }
        requires orders { OrdersAre self.old }
        requires due { due_in self.old.trace ≡ Recovers node }
        ensures steps { OnOk result (StepsOn self.old self.new) }
        ensures orders { OnOk result (OrdersAre self.new) }
        ensures extends { Extends self.old.trace self.new.trace }
        ensures left { OnErr result (StillReports self.new) }
    {
        self.turn(alloc, node, Incoming::Reco, None)
    }

    /// A message is delivered, or a copy of one.
    #[tactic(auto, using(crate::proofs::CallLemmas::delivery_steps, crate::proofs::LeftLemmas::left_steps))]
    pub(crate) fn deliver(&mut self, alloc: Global, k: u64, again: bool) -> Result<(), AllocError>
        requires linked { IsLinked self.old }
        requires orders { OrdersAre self.old }
        requires due { due_in self.old.trace ≡ Delivers k again }
        ensures steps { OnOk result (StepsOn self.old self.new) }
        ensures orders { OnOk result (OrdersAre self.new) }
        ensures extends { Extends self.old.trace self.new.trace }
        ensures left { OnErr result (StillReports self.new) }
    {
        what_is_due_can_happen();
        let bytes = bytes_of(alloc, &self.net, k, again)?;
        let Some(node) = self.net.target(k) else {
            unreachable!();
        };
        let took = Some(Took { number: k, again });
        self.turn(alloc, node, Incoming::Message(bytes), took)
    }
}
