//! Orders on a node's disk: to stop the node in a write, to let a call fail.
ghost use Rattle.std.specs.Prelude.{◌≡◌, ◌≤◌, ◌+◌, ◌<◌, ◌^◌, if◌then◌else◌, IfSome};
ghost use Rattle.std.specs.Option.{option_copied};
ghost use Rattle.run_rules.specs.Disks.{no_orders, is_open as is_open_gate, opens_gate as opens_gate_of, strike as strike_of, stop_in as stop_in_of, fault_in as fault_in_of, first_strike as first_strike_of, struck as struck_by, stop_left as stop_left_of, fault_left as fault_left_of, writes_by as writes_by_of, calls_made as calls_made_of, orders_left as orders_left_of, after_append as after_append_of};

use script_read::How;
use std::marker::Model;

/// An order to stop in a write.
#[derive(Clone, Copy, Debug)]
pub struct StopOrder {
    /// Which of the next writes, from 1.
    pub write: u32,
    /// Whether what it leaves opens the log's gate.
    pub opens: bool,
}

impl Model for StopOrder {
    ghost use Rattle.run_rules.specs.Disks.{Stop_order};

    ghost Value = { Stop_order };

    ghost view = { λ o. record { write = o.write; opens = o.opens } };

    ghost inverse = { λ o. record { write = o.write; opens = o.opens } };
}

/// The orders on a disk that have not struck.
#[derive(Clone, Copy, Debug)]
pub struct DiskOrders {
    /// To stop in a write.
    pub stop: Option<StopOrder>,
    /// To let a call fail: which of the next ones, from 1.
    pub fault: Option<u32>,
}

impl Model for DiskOrders {
    ghost use Rattle.run_rules.specs.Disks.{DiskOrders as OrdersByRules};

    ghost Value = { OrdersByRules };

    ghost view = { λ o. record { stop = o.stop; fault = o.fault } };

    ghost inverse = { λ o. record { stop = o.stop; fault = o.fault } };
}

/// How an order strikes an append.
#[derive(Clone, Copy, Debug)]
pub struct Strike {
    /// The disk call that it strikes, from 1.
    pub call: u32,
    /// Whether it stops the node there.
    pub is_stop: bool,
    /// Whether the record of the append stands.
    pub stands: bool,
}

impl Model for Strike {
    ghost use Rattle.run_rules.specs.Disks.{Strike as StrikeByRules};

    ghost Value = { StrikeByRules };

    ghost view = { λ s. record { call = s.call; is_stop = s.is_stop; stands = s.stands } };

    ghost inverse = { λ s. record { call = s.call; is_stop = s.is_stop; stands = s.stands } };
}

impl DiskOrders {
    /// No order.
    pub fn none() -> DiskOrders
        ensures { result ≡ no_orders }
    {
        DiskOrders {
            stop: None,
            fault: None,
        }
    }

    /// The order that strikes an append first, where so many calls, at most 3, come before the append.
    #[tactic(auto, unfolding(run_rules::specs::Disks::struck))]
    pub fn struck(&self, before: u32) -> Option<Strike>
        requires { before ≤ 3 }
        ensures { result ≡ struck_by before self.now }
    {
        let stop = stop_in(before, self.stop);
        let fault = fault_in(before, self.fault);
        first_strike(stop, fault)
    }

    /// The orders that an append leaves, where so many calls, at most 3, come before it.
    #[tactic(auto, unfolding(run_rules::specs::Disks::after_append))]
    pub fn after_append(&self, before: u32) -> DiskOrders
        requires { before ≤ 3 }
        ensures { result ≡ after_append_of before self.now }
    {
        let calls = calls_made(before, self.struck(before));
        self.left(before, calls)
    }

    // The orders that are left after so many calls.
    fn left(&self, before: u32, calls: u32) -> DiskOrders
        requires { before ≤ 3 }
        ensures { result ≡ orders_left_of before self.now calls }
    {
        let stop = stop_left(writes_by(before, calls), self.stop);
        let fault = fault_left(calls, self.fault);
        DiskOrders { stop, fault }
    }
}

/// Whether a write that leaves this opens the gate.
pub fn opens_gate(how: &How) -> bool
    ensures { result ≡ opens_gate_of how.now }
{
    match how {
        How::Keep(count) => 0 < *count,
        How::Leave(bytes) => is_open(bytes.as_slice()),
    }
}

fn is_open(bytes: &[u8]) -> bool
    ensures { result ≡ is_open_gate bytes.now }
{
    match bytes {
        [] => false,
        [byte, ..] => *byte == 1,
    }
}

fn striking(call: u32, is_stop: bool, stands: bool) -> Option<Strike>
    ensures { result ≡ strike_of call is_stop stands }
{
    Some(Strike {
        call,
        is_stop,
        stands,
    })
}

// The first write of an append is its first call, the second its third.
fn stop_in(before: u32, stop: Option<StopOrder>) -> Option<Strike>
    requires { before ≤ 3 }
    ensures { result ≡ stop_in_of before stop }
{
    match stop {
        None => None,
        Some(order) => match order.write {
            1 => striking(before + 1, true, false),
            2 => striking(before + 3, true, order.opens),
            _ => None,
        },
    }
}

// Only what the last call fails in stands.
fn fault_in(before: u32, fault: Option<u32>) -> Option<Strike>
    requires { before ≤ 3 }
    ensures { result ≡ fault_in_of before fault }
{
    match fault {
        None => None,
        Some(call) => {
            if call <= before + 4 {
                striking(call, false, call == before + 4)
            } else {
                None
            }
        }
    }
}

// Where both strike one call, the stop counts.
fn first_strike(stop: Option<Strike>, fault: Option<Strike>) -> Option<Strike>
    ensures { result ≡ first_strike_of stop fault }
{
    match (stop, fault) {
        (None, fault) => fault,
        (Some(stop), None) => Some(stop),
        (Some(stop), Some(fault)) => {
            if stop.call <= fault.call {
                Some(stop)
            } else {
                Some(fault)
            }
        }
    }
}

fn calls_made(before: u32, strike: Option<Strike>) -> u32
    requires { before ≤ 3 }
    ensures { result ≡ calls_made_of before strike }
{
    match strike {
        None => before + 4,
        Some(strike) => strike.call,
    }
}

fn one_if(test: bool) -> u32
    ensures { result ≡ (if test then 1 else 0) }
{
    if test { 1 } else { 0 }
}

fn writes_by(before: u32, call: u32) -> u32
    requires { before ≤ 3 }
    ensures { result ≡ writes_by_of before call }
{
    one_if(before + 1 <= call) + one_if(before + 3 <= call)
}

fn stop_left(writes: u32, stop: Option<StopOrder>) -> Option<StopOrder>
    ensures { result ≡ stop_left_of writes stop }
{
    match stop {
        None => None,
        Some(order) => {
            if writes < order.write {
                Some(StopOrder {
                    write: order.write - writes,
                    opens: order.opens,
                })
            } else {
                None
            }
        }
    }
}

fn fault_left(calls: u32, fault: Option<u32>) -> Option<u32>
    ensures { result ≡ fault_left_of calls fault }
{
    match fault {
        None => None,
        Some(call) => {
            if calls < call {
                Some(call - calls)
            } else {
                None
            }
        }
    }
}
