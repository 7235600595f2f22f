//! The messages of a turn: sent in order, and those that are lost at once.
ghost use Rattle.std.specs.Prelude.{◌≡◌, ◌++◌, ◌∷◌, [], Some, map, IfOk, OnOk};
ghost use Rattle.std.specs.List.{AllByRecursion};
ghost use Rattle.msg_codec.specs.Message.{message_of};
ghost use Rattle.net_bag.specs.Net.{sent_on, sent_one, lost_at_once};
ghost use Rattle.node_disk.specs.Effects.{IsMailed, call_of};

use dtx_values::{Bytes, Listing};
use net_bag::Bag;
use node_disk::{Finished, Mailed};
use node_rules::Ended;
use std::alloc::{AllocError, Global};
use std::collections::VecDeque;
use wire_msg::{Msg, Msgs};

/// Sends these messages in order, and adds the numbers of those that are lost at once. Fails where memory runs out.
#[tactic(auto, using(world_parts::proofs::MailLemmas::mail_steps))]
pub(crate) fn send_all(
    alloc: Global,
    net: &mut Bag,
    losses: &mut VecDeque<u64>,
    mails: Vec<Mailed>,
) -> Result<Msgs, AllocError>
    requires { AllByRecursion IsMailed mails.items }
    ensures sent { IfOk result (λ msgs. msgs ≡ map (λ mail. mail.msg) mails.items) }
    ensures net { OnOk result (net.new ≡ sent_on net.old (map (λ mail. mail.msg) mails.items)) }
    ensures losses { OnOk result (losses.new.items ≡ losses.old.items ++ lost_at_once net.old (map (λ mail. mail.msg) mails.items)) }
{
    let mut msgs = Vec::with_capacity(alloc, mails.len())?;
    for mail in mails {
        let msg = send_one(net, losses, mail)?;
        msgs.push(msg)?;
    }
    Ok(Listing::of(msgs))
}

fn send_one(net: &mut Bag, losses: &mut VecDeque<u64>, mail: Mailed) -> Result<Msg, AllocError>
    requires { message_of mail.bytes ≡ Some mail.msg }
    ensures msg { IfOk result (λ msg. msg ≡ mail.msg) }
    ensures net { OnOk result (net.new ≡ sent_one net.old mail.msg) }
    ensures losses { OnOk result (losses.new.items ≡ losses.old.items ++ lost_at_once net.old (mail.msg ∷ [])) }
{
    let Mailed { msg, bytes } = mail;
    match put(net, losses, &msg, bytes) {
        Ok(()) => Ok(msg),
        Err(err) => {
            drop(msg);
            Err(err)
        }
    }
}

// The message goes onto the network, and its number to the losses where it is lost at once.
fn put(net: &mut Bag, losses: &mut VecDeque<u64>, msg: &Msg, bytes: Bytes) -> Result<(), AllocError>
    requires { message_of bytes ≡ Some msg.now }
    ensures net { OnOk result (net.new ≡ sent_one net.old msg.now) }
    ensures losses { OnOk result (losses.new.items ≡ losses.old.items ++ lost_at_once net.old (msg.now ∷ [])) }
{
    let sent = net.send(msg, bytes)?;
    if sent.is_lost {
        losses.push_back(sent.number)?;
    }
    Ok(())
}

/// The calls that a turn ended. Fails where memory runs out.
pub(crate) fn ended_calls(alloc: Global, ended: Listing<Finished>) -> Result<Ended, AllocError>
    ensures { IfOk result (λ calls. calls ≡ map call_of ended) }
{
    let ended = ended.into_vec();
    let mut calls = Vec::with_capacity(alloc, ended.len())?;
    for call in ended {
        calls.push(call.into_call())?;
    }
    Ok(Listing::of(calls))
}
