//! What no clause says of the network: that calls succeed, and what becomes of a few messages between three nodes.
ghost use Rattle.std.specs.Prelude.{◌≡◌};

use dtx_values::{Listing, Name, NameErr};
use msg_codec::{WireErr, decode_msg};
use net_bag::{Bag, LoseNext, Sent};
use std::alloc::{AllocError, Global};
use wire_msg::KindName;

const SALES: u8 = 1;

const WAREHOUSE: u8 = 2;

const HQ: u8 = 3;

/// Why a message was not sent.
#[derive(Clone, Copy, Debug, PartialEq, Eq)]
enum Failed {
    NoMemory,
    NotAMessage,
}

impl From<AllocError> for Failed {
    fn from(_e: AllocError) -> Failed {
        Failed::NoMemory
    }
}

impl From<WireErr> for Failed {
    fn from(_e: WireErr) -> Failed {
        Failed::NotAMessage
    }
}

/// The bytes of a branch of a node.
fn put_branch(out: &mut Vec<u8>, node: u8) -> Result<(), AllocError> {
    out.extend_from_slice(&[node, 0, 0, 0, 1, 0, 0, 0, 65, 0, 0, 0, 1])
}

/// The bytes of an Ack: its kind, its two branches, and the clock.
fn ack(alloc: Global, from: u8, to: u8) -> Result<Vec<u8>, AllocError> {
    let mut out = vec![in alloc; 14]?;
    put_branch(&mut out, from)?;
    put_branch(&mut out, to)?;
    out.extend_from_slice(&[0, 0, 0, 0, 0, 0, 0, 7])?;
    Ok(out)
}

/// Sends an Ack.
fn send(alloc: Global, bag: &mut Bag, from: u8, to: u8) -> Result<Sent, Failed> {
    let bytes = ack(alloc, from, to)?;
    let msg = decode_msg(alloc, bytes.as_slice())?;
    Ok(bag.send(&msg, Listing::of(bytes))?)
}

/// Sends three Acks, numbered from 1: to WAREHOUSE, back from there, and to HQ.
fn send_three(alloc: Global, bag: &mut Bag) -> Result<(), Failed> {
    send(alloc, bag, SALES, WAREHOUSE)?;
    send(alloc, bag, WAREHOUSE, SALES)?;
    send(alloc, bag, SALES, HQ)?;
    Ok(())
}

/// Whether a cut loses both messages over it and says their numbers, and the third is still in flight.
fn is_lost_by_cut(alloc: Global, bag: &mut Bag) -> Result<bool, Failed> {
    send_three(alloc, bag)?;
    let lost = bag.cut(alloc, WAREHOUSE, SALES)?;
    Ok(lost.as_slice() == [1, 2].as_slice() && bag.first() == Some(3))
}

#[test]
fn a_cut_loses_what_is_in_flight_over_it(rt: HostRuntime) {
    let mut bag = Bag::new(rt.alloc());
    assert!(rt; is_lost_by_cut(rt.alloc(), &mut bag) == Ok(true));
}

/// Whether a stop loses the message to the node and says its number, and not the one from it.
fn is_lost_by_stop(alloc: Global, bag: &mut Bag) -> Result<bool, Failed> {
    send_three(alloc, bag)?;
    let lost = bag.stop(alloc, WAREHOUSE)?;
    Ok(lost.as_slice() == [1].as_slice() && bag.first() == Some(2))
}

#[test]
fn a_stop_loses_what_is_in_flight_to_the_node(rt: HostRuntime) {
    let mut bag = Bag::new(rt.alloc());
    assert!(rt; is_lost_by_stop(rt.alloc(), &mut bag) == Ok(true));
}

/// Whether a message over a cut pair is lost as it is sent.
fn is_lost_over_cut(alloc: Global, bag: &mut Bag) -> Result<bool, Failed> {
    bag.cut(alloc, SALES, WAREHOUSE)?;
    Ok(send(alloc, bag, SALES, WAREHOUSE)?.is_lost)
}

/// Whether it is repeated once the pair is joined.
fn is_repeated(bag: &mut Bag) -> bool {
    let before = bag.again(1).is_some();
    bag.join(WAREHOUSE, SALES);
    !before && bag.again(1).is_some() && bag.flying(1).is_none()
}

#[test]
fn a_lost_message_is_repeated_over_a_joined_pair(rt: HostRuntime) {
    let mut bag = Bag::new(rt.alloc());
    assert!(rt; is_lost_over_cut(rt.alloc(), &mut bag) == Ok(true));
    assert!(rt; is_repeated(&mut bag));
}

/// Whether a message to a node that is down is lost, and one after its start is not.
fn is_lost_while_down(alloc: Global, bag: &mut Bag) -> Result<bool, Failed> {
    bag.stop(alloc, HQ)?;
    let first = send(alloc, bag, SALES, HQ)?;
    bag.start(HQ);
    let second = send(alloc, bag, SALES, HQ)?;
    Ok(first.is_lost && !second.is_lost && second.number == 2)
}

#[test]
fn a_node_that_is_down_gets_nothing(rt: HostRuntime) {
    let mut bag = Bag::new(rt.alloc());
    assert!(rt; is_lost_while_down(rt.alloc(), &mut bag) == Ok(true));
}

/// Whether an order loses one message of its kind, and no other.
fn is_lost_by_order(alloc: Global, bag: &mut Bag) -> Result<bool, Failed> {
    bag.lose_next(LoseNext {
        kind: KindName::Ack,
        from: SALES,
        to: HQ,
    })?;
    let back = send(alloc, bag, HQ, SALES)?;
    let first = send(alloc, bag, SALES, HQ)?;
    let second = send(alloc, bag, SALES, HQ)?;
    Ok(!back.is_lost && first.is_lost && !second.is_lost)
}

#[test]
fn an_order_loses_one_message(rt: HostRuntime) {
    let mut bag = Bag::new(rt.alloc());
    assert!(rt; is_lost_by_order(rt.alloc(), &mut bag) == Ok(true));
}

/// Whether message 2 has the bytes that were sent.
fn is_taken(alloc: Global, bag: &Bag) -> Result<bool, Failed> {
    let due = ack(alloc, WAREHOUSE, SALES)?;
    match bag.flying(2) {
        None => Ok(false),
        Some(bytes) => Ok(bytes == due.as_slice()),
    }
}

/// Whether it is in flight no more once it was delivered, and the first still is.
fn is_delivered(bag: &mut Bag) -> bool {
    bag.deliver(2);
    !bag.in_flight(2) && bag.first() == Some(1)
}

/// Whether the first is lost once, and the third is the next.
fn is_lost_once(bag: &mut Bag) -> bool {
    let once = bag.lose(1);
    let twice = bag.lose(1);
    once && !twice && bag.first() == Some(3)
}

#[test]
fn each_message_is_taken_once(rt: HostRuntime) {
    let mut bag = Bag::new(rt.alloc());
    assert!(rt; send_three(rt.alloc(), &mut bag) == Ok(()));
    assert!(rt; is_taken(rt.alloc(), &bag) == Ok(true));
    assert!(rt; is_delivered(&mut bag));
    assert!(rt; is_lost_once(&mut bag));
}

fn names(alloc: Global) -> Result<Vec<Name>, NameErr> {
    let mut names = Vec::new(alloc);
    for text in [b"SALES".as_slice(), b"WAREHOUSE", b"HQ"] {
        names.push(Name::from_bytes(alloc, text)?)?;
    }
    Ok(names)
}

/// Whether the messages in flight are shown as this text.
fn is_shown(alloc: Global, bag: &Bag, due: &str) -> Result<bool, NameErr> {
    let names = names(alloc)?;
    let mut text = Vec::new(alloc);
    for line in bag.lines(alloc, &names)?.as_slice() {
        text.extend_from_slice(line.as_slice())?;
        text.push(b'\n')?;
    }
    Ok(text.as_slice() == due.as_bytes())
}

/// The messages in flight before message 2 is delivered.
const SHOWN: &str = "1 ACK SALES WAREHOUSE
2 ACK WAREHOUSE SALES
3 ACK SALES HQ
";

/// And after it.
const SHOWN_AFTER: &str = "1 ACK SALES WAREHOUSE
3 ACK SALES HQ
";

#[test]
fn the_messages_in_flight_are_shown(rt: HostRuntime) {
    let mut bag = Bag::new(rt.alloc());
    assert!(rt; is_shown(rt.alloc(), &bag, "no messages in flight\n") == Ok(true));
    assert!(rt; send_three(rt.alloc(), &mut bag) == Ok(()));
    assert!(rt; is_shown(rt.alloc(), &bag, SHOWN) == Ok(true));
    bag.deliver(2);
    assert!(rt; is_shown(rt.alloc(), &bag, SHOWN_AFTER) == Ok(true));
}
