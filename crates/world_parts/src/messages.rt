//! Messages of the network by their numbers: taken, lost, and their bytes.
ghost use Rattle.std.specs.Prelude.{◌≡◌, true, is_some, if◌then◌else◌, option_map, IfOk, IfSome};
ghost use Rattle.msg_codec.specs.Message.{message_of};
ghost use Rattle.net_bag.specs.Net.{may_deliver, may_repeat, packet_at};
ghost use Rattle.run_rules.specs.Facts.{taken};

use book::Took;
use dtx_values::{Bytes, Listing};
use net_bag::Bag;
use std::alloc::{AllocError, Global};
use std::collections::VecDeque;

/// A message that was taken is delivered, unless it is a copy.
pub fn take_message(net: &mut Bag, took: Option<Took>)
    ensures { net.new ≡ taken net.old took }
{
    match took {
        None => {}
        Some(took) => {
            if !took.again {
                net.deliver(took.number);
            }
        }
    }
}

/// Takes these numbers of messages as losses to tell, in order. Fails where memory runs out.
pub fn losses_of(alloc: Global, numbers: Vec<u64>) -> Result<VecDeque<u64>, AllocError>
    ensures { IfOk result (λ losses. losses.items ≡ numbers.items) }
{
    let mut losses = VecDeque::new(alloc);
    for number in numbers {
        losses.push_back(number)?;
    }
    Ok(losses)
}

// The bytes of a message that can come, or be repeated.
fn bytes_at(net: &Bag, k: u64, again: bool) -> Option<&[u8]>
    ensures variant { is_some result ≡ (if again then may_repeat net.now k else may_deliver net.now k) }
    ensures bytes { IfSome result (λ bytes. option_map (λ x. x.msg) (packet_at net.now k) ≡ message_of bytes.now) }
{
    if again { net.again(k) } else { net.flying(k) }
}

/// A copy of the bytes of a message that can come, or be repeated. Fails where memory runs out.
pub fn bytes_of(alloc: Global, net: &Bag, k: u64, again: bool) -> Result<Bytes, AllocError>
    requires there { (if again then may_repeat net.now k else may_deliver net.now k) ≡ true }
    ensures { IfOk result (λ bytes. option_map (λ x. x.msg) (packet_at net.now k) ≡ message_of bytes) }
{
    match bytes_at(net, k, again) {
        Some(bytes) => Ok(Listing::of(Vec::from_slice(alloc, bytes)?)),
        None => unreachable!(),
    }
}
