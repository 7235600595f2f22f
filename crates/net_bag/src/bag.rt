//! The network of a run.
ghost use Rattle.std.specs.Prelude.{◌≡◌, ◌+◌, ◌==◌, ◌||◌, not, is_some, if◌then◌else◌, length, filter, option_map, Some, IfOk, IfSome, OnOk, OnErr};
ghost use Rattle.std.specs.List.{list_any, position_or_len};
ghost use Rattle.msg_codec.specs.Message.{message_of};
ghost use Rattle.net_bag.specs.Net.{still, is_cut as is_cut_in, is_down as is_down_in, is_blocked as is_blocked_in, is_order_for, is_lost_at_once, is_pair as is_pair_of, use_order, first_fate, sent_one, delivered, lost, lost_by_cut, lost_by_stop, with_pair, with_node, cut_over, joined, stopped, started, with_order, first_flying, may_deliver, may_repeat, packet_at};
ghost use Rattle.net_bag.specs.declared.packet.Fate.TheVariants as fates;
ghost use Rattle.net_bag.specs.Texts.{net_lines};

use crate::flights::{Flights, Numbers};
use crate::parcel::{Parcel, is_pair};
use crate::route::Route;
use crate::{Fate, LoseNext};
use dtx_values::{Bytes, Listing, Name, Texts};
use std::alloc::{AllocError, Global};
use std::collections::VecDeque;
use std::marker::Model;
use wire_msg::Msg;

/// What became of a message as it was sent.
#[derive(Clone, Copy, Debug, PartialEq, Eq)]
pub struct Sent {
    /// Its number, from 1.
    pub number: u64,
    /// Whether it was lost at once: its pair is cut, its target is down, or an order fitted it.
    pub is_lost: bool,
}

/// The messages of a run with their fates, the pairs of nodes that are cut, the nodes that are down, and the orders to
/// lose a message.
#[derive(Drop)]
pub struct Bag {
    flights: Flights,
    // The newest first, as in the model.
    cuts: VecDeque<(u8, u8)>,
    down: VecDeque<u8>,
    orders: Vec<LoseNext>,
}

impl Model for Bag {
    ghost use Rattle.net_bag.specs.Net.{Net};

    ghost Value = { Net };

    ghost view = { λ b. record { packets = b.flights; cuts = b.cuts.items; down = b.down.items; orders = b.orders.items } };
}

impl Bag {
    /// Before any message.
    pub fn new(alloc: Global) -> Bag
        ensures { result ≡ still }
    {
        Bag {
            flights: Flights::new(alloc),
            cuts: VecDeque::new(alloc),
            down: VecDeque::new(alloc),
            orders: Vec::new(alloc),
        }
    }

    /// Whether the pair of two nodes is cut.
    pub fn is_cut(&self, a: u8, b: u8) -> bool
        ensures { result ≡ is_cut_in self.now a b }
    {
        has_pair(&self.cuts, a, b)
    }

    /// Whether a node is down.
    pub fn is_down(&self, node: u8) -> bool
        ensures { result ≡ is_down_in self.now node }
    {
        has_node(&self.down, node)
    }

    /// Sends a message, which these bytes spell: it is lost at once where it cannot pass or an order fits it, and uses up
    /// the earliest order that fits where it could pass. Fails where memory runs out, and then nothing has changed.
    pub fn send(&mut self, msg: &Msg, bytes: Bytes) -> Result<Sent, AllocError>
        requires { message_of bytes ≡ Some msg.now }
        ensures sent { OnOk result (self.new ≡ sent_one self.old msg.now) }
        ensures number { IfOk result (λ sent. sent.number ≡ length self.old.packets + 1) }
        ensures lost { IfOk result (λ sent. sent.is_lost ≡ is_lost_at_once self.old msg.now) }
        ensures err { OnErr result (self.new ≡ self.old) }
    {
        let number = self.flights.next();
        let is_blocked = self.is_blocked(msg);
        let is_lost = self.is_lost(msg, is_blocked);
        let parcel = Parcel::new(msg, bytes, fate(is_lost));
        self.flights.push(parcel)?;
        use_up(&mut self.orders, msg, is_blocked);
        Ok(Sent { number, is_lost })
    }

    /// Bytes that spell the message of this number, where it is in flight.
    pub fn flying(&self, number: u64) -> Option<&[u8]>
        ensures variant { is_some result ≡ may_deliver self.now number }
        ensures bytes { IfSome result (λ bytes. option_map (λ x. x.msg) (packet_at self.now number) ≡ message_of bytes.now) }
    {
        let parcel = self.flights.at(number)?;
        if parcel.flies() {
            Some(parcel.bytes())
        } else {
            None
        }
    }

    /// The node that the message of this number is for.
    pub fn target(&self, number: u64) -> Option<u8>
        ensures { result ≡ option_map (λ x. x.msg.to.node) (packet_at self.now number) }
    {
        let parcel = self.flights.at(number)?;
        Some(parcel.to())
    }

    /// Whether the message of this number was sent and is neither delivered nor lost.
    pub fn in_flight(&self, number: u64) -> bool
        ensures { result ≡ may_deliver self.now number }
    {
        self.flights.is_flying(number)
    }

    /// The message of this number is delivered, where it is in flight.
    #[tactic(auto, unfolding(crate::specs::Net::delivered, crate::specs::Numbered::met_at))]
    pub fn deliver(&mut self, number: u64)
        ensures { self.new ≡ delivered self.old number }
    {
        self.flights.meet(number, Fate::Delivered);
    }

    /// Bytes that spell the message of this number, for a copy of it: where its pair is joined and its target is up,
    /// whatever became of it.
    pub fn again(&self, number: u64) -> Option<&[u8]>
        ensures variant { is_some result ≡ may_repeat self.now number }
        ensures bytes { IfSome result (λ bytes. option_map (λ x. x.msg) (packet_at self.now number) ≡ message_of bytes.now) }
    {
        let parcel = self.flights.at(number)?;
        if self.is_stopped(parcel) {
            None
        } else {
            Some(parcel.bytes())
        }
    }

    /// The message in flight with the least number.
    pub fn first(&self) -> Option<u64>
        ensures { result ≡ first_flying self.now }
    {
        self.flights.first()
    }

    /// The message of this number is lost, where it is in flight. Whether it was.
    #[tactic(auto, unfolding(crate::specs::Net::lost, crate::specs::Numbered::met_at))]
    pub fn lose(&mut self, number: u64) -> bool
        ensures lost { self.new ≡ lost self.old number }
        ensures was_flying { result ≡ may_deliver self.old number }
    {
        let was_flying = self.flights.is_flying(number);
        self.flights.meet(number, Fate::Lost);
        was_flying
    }

    /// One more order to lose a message. Fails where memory runs out, and then nothing has changed.
    pub fn lose_next(&mut self, order: LoseNext) -> Result<(), AllocError>
        ensures ok { OnOk result (self.new ≡ with_order self.old order) }
        ensures err { OnErr result (self.new ≡ self.old) }
    {
        self.orders.push(order)?;
        Ok(())
    }

    /// Cuts a pair. The messages in flight over it are lost, and these are their numbers. Fails where memory runs out, and
    /// then nothing has changed.
    #[tactic(auto, unfolding(crate::specs::Net::cut_over))]
    pub fn cut(&mut self, alloc: Global, a: u8, b: u8) -> Result<Numbers, AllocError>
        ensures cut { OnOk result (self.new ≡ cut_over self.old a b) }
        ensures lost { IfOk result (λ numbers. numbers ≡ lost_by_cut self.old a b) }
        ensures err { OnErr result (self.new ≡ self.old) }
    {
        let numbers = self.flights.on_route(alloc, Route::Over(a, b))?;
        add_pair(&mut self.cuts, a, b)?;
        self.flights.lose(numbers.as_slice());
        Ok(numbers)
    }

    /// Joins a pair: it is no longer cut.
    #[tactic(auto, unfolding(crate::specs::Net::joined))]
    pub fn join(&mut self, a: u8, b: u8)
        ensures { self.new ≡ joined self.old a b }
    {
        drop_pair(&mut self.cuts, a, b);
    }

    /// A node is down. The messages in flight to it are lost, and these are their numbers. Fails where memory runs out, and
    /// then nothing has changed.
    #[tactic(auto, unfolding(crate::specs::Net::stopped))]
    pub fn stop(&mut self, alloc: Global, node: u8) -> Result<Numbers, AllocError>
        ensures stopped { OnOk result (self.new ≡ stopped self.old node) }
        ensures lost { IfOk result (λ numbers. numbers ≡ lost_by_stop self.old node) }
        ensures err { OnErr result (self.new ≡ self.old) }
    {
        let numbers = self.flights.on_route(alloc, Route::To(node))?;
        add_node(&mut self.down, node)?;
        self.flights.lose(numbers.as_slice());
        Ok(numbers)
    }

    /// A node is up.
    #[tactic(auto, unfolding(crate::specs::Net::started))]
    pub fn start(&mut self, node: u8)
        ensures { self.new ≡ started self.old node }
    {
        drop_node(&mut self.down, node);
    }

    /// The lines of SHOW NET, where `names` are the names of all nodes: one for each message in flight, by number, or that
    /// there is none. Fails where memory runs out.
    pub fn lines(&self, alloc: Global, names: &[Name]) -> Result<Texts, AllocError>
        ensures { IfOk result (λ lines. lines ≡ net_lines names.now self.now.packets) }
    {
        let mut lines = self.flights.lines(alloc, names)?;
        if lines.is_empty() {
            let none = Vec::from_slice(alloc, b"no messages in flight")?;
            lines.push(Listing::of(none))?;
        }
        Ok(Listing::of(lines))
    }

    // Whether a message is lost as it is sent.
    fn is_lost(&self, msg: &Msg, is_blocked: bool) -> bool
        ensures { result ≡ (is_blocked || list_any (is_order_for msg.now) self.now.orders) }
    {
        is_blocked || fits_any(&self.orders, msg)
    }

    // Whether a message that was sent could not pass now.
    fn is_stopped(&self, parcel: &Parcel) -> bool
        ensures { result ≡ is_blocked_in self.now parcel.now.msg }
    {
        self.is_cut(parcel.from(), parcel.to()) || self.is_down(parcel.to())
    }

    // Whether a message cannot pass.
    fn is_blocked(&self, msg: &Msg) -> bool
        ensures { result ≡ is_blocked_in self.now msg.now }
    {
        self.is_cut(msg.from.node, msg.to.node) || self.is_down(msg.to.node)
    }
}

fn has_pair(cuts: &VecDeque<(u8, u8)>, a: u8, b: u8) -> bool
    ensures { result ≡ list_any (is_pair_of a b) cuts.now.items }
{
    cuts.iter().any(|pair| is_pair(a, b, *pair))
}

fn has_node(down: &VecDeque<u8>, node: u8) -> bool
    ensures { result ≡ list_any (λ m. m == node) down.now.items }
{
    down.iter().any(|stopped| *stopped == node)
}

// Adds a pair, where it is not among these. Fails where memory runs out, and then nothing has changed.
fn add_pair(cuts: &mut VecDeque<(u8, u8)>, a: u8, b: u8) -> Result<(), AllocError>
    ensures ok { OnOk result (cuts.new.items ≡ with_pair a b cuts.old.items) }
    ensures err { OnErr result (cuts.new.items ≡ cuts.old.items) }
{
    if !has_pair(cuts, a, b) {
        cuts.push_front((a, b))?;
    }
    Ok(())
}

// Adds a node, where it is not among these. Fails where memory runs out, and then nothing has changed.
fn add_node(down: &mut VecDeque<u8>, node: u8) -> Result<(), AllocError>
    ensures ok { OnOk result (down.new.items ≡ with_node node down.old.items) }
    ensures err { OnErr result (down.new.items ≡ down.old.items) }
{
    if !has_node(down, node) {
        down.push_front(node)?;
    }
    Ok(())
}

fn drop_pair(cuts: &mut VecDeque<(u8, u8)>, a: u8, b: u8)
    ensures { cuts.new.items ≡ filter (λ pair. not (is_pair_of a b pair)) cuts.old.items }
{
    cuts.retain(|pair| !is_pair(a, b, *pair));
}

fn drop_node(down: &mut VecDeque<u8>, node: u8)
    ensures { down.new.items ≡ filter (λ m. not (m == node)) down.old.items }
{
    down.retain(|stopped| *stopped != node);
}

fn fate(is_lost: bool) -> Fate
    ensures { result ≡ (if is_lost then fates.Lost else fates.InFlight) }
{
    if is_lost { Fate::Lost } else { Fate::InFlight }
}

fn fits_any(orders: &[LoseNext], msg: &Msg) -> bool
    ensures { result ≡ list_any (is_order_for msg.now) orders.now }
{
    orders.iter().any(|order| order.fits(msg))
}

// The place of the earliest order that fits, or the number of orders.
fn place_for(orders: &[LoseNext], msg: &Msg) -> usize
    ensures { result ≡ position_or_len (is_order_for msg.now) orders.now }
{
    for (place, order) in orders.iter().enumerate() {
        if order.fits(msg) {
            return place;
        }
    }
    orders.len()
}

// The earliest order that fits is used up, unless the message cannot pass.
fn use_up(orders: &mut Vec<LoseNext>, msg: &Msg, is_blocked: bool)
    ensures { orders.new.items ≡ (if is_blocked then orders.old.items else use_order msg.now orders.old.items) }
{
    if is_blocked {
        return;
    }
    remove_first(orders, msg);
}

fn remove_first(orders: &mut Vec<LoseNext>, msg: &Msg)
    ensures { orders.new.items ≡ use_order msg.now orders.old.items }
{
    let place = place_for(orders, msg);
    if place < orders.len() {
        let _ = orders.remove(place);
    }
}
