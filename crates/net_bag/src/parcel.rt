//! A message that was sent, as bytes.
ghost use Rattle.std.specs.Prelude.{◌≡◌, Some, IfOk};
ghost use Rattle.msg_codec.specs.Message.{message_of};
ghost use Rattle.net_bag.specs.Net.{fated, flies as flies_of, goes_over as goes_over_pair, goes_to as goes_to_node, is_flying as is_flying_fate, is_pair as is_pair_of, packet};
ghost use Rattle.net_bag.specs.Texts.{packet_text};

use crate::Fate;
use dtx_values::{Bytes, Listing, Name};
use std::alloc::{AllocError, Global};
use std::marker::Model;
use tran_ids::{node_name, put_decimal};
use wire_msg::{KindName, Msg};

/// A message's bytes, its kind and its two nodes, and what became of it. Contracts see the message with its fate.
#[derive(Drop)]
pub(crate) struct Parcel {
    bytes: Bytes,
    kind: KindName,
    from: u8,
    to: u8,
    fate: Fate,
}

impl Model for Parcel {
    ghost use Rattle.net_bag.specs.declared.packet.Packet.{Packet};
    ghost use Rattle.net_bag.specs.Parcel.{spelled, IsLabelled};

    ghost Value = { Packet };

    ghost view = { λ p. record { msg = spelled p.bytes; fate = p.fate } };

    ghost invariant = { λ p. IsLabelled p.bytes p.kind p.from p.to };
}

impl Parcel {
    /// A message and bytes that spell it.
    #[tactic(auto, unfolding(crate::specs::Parcel::spelled))]
    pub(crate) fn new(msg: &Msg, bytes: Bytes, fate: Fate) -> Parcel
        requires { message_of bytes ≡ Some msg.now }
        ensures { result ≡ packet msg.now fate }
    {
        Parcel {
            bytes,
            kind: msg.kind.name(),
            from: msg.from.node,
            to: msg.to.node,
            fate,
        }
    }

    /// Bytes that spell the message.
    pub(crate) fn bytes(&self) -> &[u8]
        ensures { message_of result.now ≡ Some self.now.msg }
    {
        self.bytes.as_slice()
    }

    /// Whether it is in flight.
    pub(crate) fn flies(&self) -> bool
        ensures { result ≡ flies_of self.now }
    {
        is_flying(self.fate)
    }

    /// Whether it goes over this pair of nodes.
    pub(crate) fn goes_over(&self, a: u8, b: u8) -> bool
        ensures { result ≡ goes_over_pair a b self.now }
    {
        is_pair(a, b, (self.from, self.to))
    }

    /// Whether it goes to this node.
    pub(crate) fn goes_to(&self, node: u8) -> bool
        ensures { result ≡ goes_to_node node self.now }
    {
        self.to == node
    }

    /// The node that sent it.
    pub(crate) fn from(&self) -> u8
        ensures { result ≡ self.now.msg.from.node }
    {
        self.from
    }

    /// The node that it is for.
    pub(crate) fn to(&self) -> u8
        ensures { result ≡ self.now.msg.to.node }
    {
        self.to
    }

    /// It meets its fate, if it is in flight.
    pub(crate) fn meet(&mut self, fate: Fate)
        ensures { self.new ≡ fated fate self.old }
    {
        if is_flying(self.fate) {
            self.fate = fate;
        }
    }

    /// Its line among those in flight: its number, its kind, the sender's node and the receiver's.
    pub(crate) fn line(
        &self,
        alloc: Global,
        names: &[Name],
        number: u64,
    ) -> Result<Bytes, AllocError>
        ensures { IfOk result (λ line. line ≡ packet_text names.now number self.now) }
    {
        let mut out = Vec::new(alloc);
        put_decimal(&mut out, number)?;
        out.push(b' ')?;
        out.extend_from_slice(self.kind.text())?;
        out.push(b' ')?;
        out.extend_from_slice(node_name(names, self.from))?;
        out.push(b' ')?;
        out.extend_from_slice(node_name(names, self.to))?;
        Ok(Listing::of(out))
    }
}

fn is_flying(fate: Fate) -> bool
    ensures { result ≡ is_flying_fate fate }
{
    matches!(fate, Fate::InFlight)
}

/// Whether these are the two nodes of a pair.
pub(crate) fn is_pair(a: u8, b: u8, pair: (u8, u8)) -> bool
    ensures { result ≡ is_pair_of a b pair }
{
    (pair.0 == a && pair.1 == b) || (pair.0 == b && pair.1 == a)
}
