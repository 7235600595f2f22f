//! Orders to lose a message.
ghost use Rattle.std.specs.Prelude.{◌≡◌};
ghost use Rattle.net_bag.specs.Net.{is_order_for};

use std::marker::Model;
use wire_msg::{KindName, Msg};

/// An order, given by LOSE NEXT, to lose the next message of a kind from one node to another.
#[derive(Drop)]
pub struct LoseNext {
    /// The kind.
    pub kind: KindName,
    /// The sender's node, from 1.
    pub from: u8,
    /// The receiver's node, from 1.
    pub to: u8,
}

impl Model for LoseNext {
    ghost use Rattle.net_bag.specs.Net.{LoseOrder};

    ghost Value = { LoseOrder };

    ghost view = { λ o. record { kind = o.kind; from = o.from; to = o.to } };
}

impl LoseNext {
    /// Whether it fits a message.
    pub(crate) fn fits(&self, msg: &Msg) -> bool
        ensures { result ≡ is_order_for msg.now self.now }
    {
        self.kind.is(msg.kind.name()) && self.from == msg.from.node && self.to == msg.to.node
    }
}
