//! What happens to the network alone: losses, CUT, JOIN.
ghost use Rattle.std.specs.Prelude.{◌≡◌, OnErr, OnOk};
ghost use Rattle.run_rules.specs.Due.{Tells, Cuts, Joins, Loses};
ghost use Rattle.run_trace.specs.Recorded.{Extends};
ghost use Rattle.world.specs.Needs.{due_in};
ghost use Rattle.world.specs.Left.{StillReports};
ghost use Rattle.world.specs.Linked.{IsLinked};
ghost use Rattle.world.specs.Orders.{OrdersAre};
ghost use Rattle.world.specs.Steps.{StepsOn};

use crate::World;
use book::Happening;
use std::alloc::{AllocError, Global};
use world_parts::losses_of;

impl World {
    /// A loss is told.
    #[tactic(auto, using(crate::proofs::NetworkLemmas::network_steps, crate::proofs::LeftLemmas::left_steps, run_trace::proofs::ExtendsLemmas::extends_steps))]
    pub(crate) fn report_loss(&mut self, alloc: Global, k: u64) -> Result<(), AllocError>
        requires linked { IsLinked self.old }
        requires orders { OrdersAre self.old }
        requires due { due_in self.old.trace ≡ Tells k }
        ensures steps { OnOk result (StepsOn self.old self.new) }
        ensures orders { OnOk result (OrdersAre self.new) }
        ensures extends { Extends self.old.trace self.new.trace }
        ensures left { OnErr result (StillReports self.new) }
    {
        self.trace.push(alloc, Happening::Lost { k })?;
        self.net.lose(k);
        let _told = self.losses.pop_front();
        self.run_report.act();
        Ok(())
    }

    /// LOSE: the message in flight is lost.
    #[tactic(auto, using(crate::proofs::NetworkLemmas::network_steps, crate::proofs::LeftLemmas::left_steps, run_trace::proofs::ExtendsLemmas::extends_steps))]
    pub(crate) fn lose(&mut self, alloc: Global, k: u64) -> Result<(), AllocError>
        requires linked { IsLinked self.old }
        requires orders { OrdersAre self.old }
        requires due { due_in self.old.trace ≡ Loses k }
        ensures steps { OnOk result (StepsOn self.old self.new) }
        ensures orders { OnOk result (OrdersAre self.new) }
        ensures extends { Extends self.old.trace self.new.trace }
        ensures left { OnErr result (StillReports self.new) }
    {
        self.trace.push(alloc, Happening::Lost { k })?;
        self.net.lose(k);
        self.run_report.act();
        Ok(())
    }

    /// CUT: no message passes between two nodes, and those in flight between them are lost.
    #[tactic(auto, using(crate::proofs::NetworkLemmas::network_steps, crate::proofs::LeftLemmas::left_steps, run_trace::proofs::ExtendsLemmas::extends_steps))]
    pub(crate) fn cut(&mut self, alloc: Global, a: u8, b: u8) -> Result<(), AllocError>
        requires linked { IsLinked self.old }
        requires orders { OrdersAre self.old }
        requires due { due_in self.old.trace ≡ Cuts a b }
        ensures steps { OnOk result (StepsOn self.old self.new) }
        ensures orders { OnOk result (OrdersAre self.new) }
        ensures extends { Extends self.old.trace self.new.trace }
        ensures left { OnErr result (StillReports self.new) }
    {
        let lost = self.net.cut(alloc, a, b)?;
        self.losses = losses_of(alloc, lost.into_vec())?;
        self.trace.push(alloc, Happening::Cut { a, b })?;
        self.run_report.act();
        Ok(())
    }

    /// JOIN: messages pass between two nodes again.
    #[tactic(auto, using(crate::proofs::NetworkLemmas::network_steps, crate::proofs::LeftLemmas::left_steps, run_trace::proofs::ExtendsLemmas::extends_steps))]
    pub(crate) fn join(&mut self, alloc: Global, a: u8, b: u8) -> Result<(), AllocError>
        requires linked { IsLinked self.old }
        requires orders { OrdersAre self.old }
        requires due { due_in self.old.trace ≡ Joins a b }
        ensures steps { OnOk result (StepsOn self.old self.new) }
        ensures orders { OnOk result (OrdersAre self.new) }
        ensures extends { Extends self.old.trace self.new.trace }
        ensures left { OnErr result (StillReports self.new) }
    {
        self.trace.push(alloc, Happening::Join { a, b })?;
        self.net.join(a, b);
        self.run_report.act();
        Ok(())
    }
}
