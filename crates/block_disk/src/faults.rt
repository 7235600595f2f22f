//! The orders of a disk in memory that have not struck yet.
ghost use Rattle.std.specs.Prelude.{◌≡◌, None, true, false};
ghost use Rattle.block_disk.specs.Plan.{is_next, counted_down, strikes};
ghost use Rattle.block_disk.specs.Orders.{plan_of, after_order, powered, after_orders, fault_strike, strike_of};

use crate::fault::{DiskFault, How, Stop};

/// Whether the disk is stopped, and its orders, whose numbers count from now on.
#[derive(Drop)]
pub struct DiskFaults {
    stopped: bool,
    stop: Option<Stop>,
    fault: Option<u32>,
}

/// What comes of a write.
#[derive(Drop)]
pub enum Strike {
    /// It is done.
    Spares,
    /// It fails, and writes nothing.
    Fails,
    /// It stops the disk, and leaves some bytes.
    Stops(How),
}

impl DiskFaults {
    /// No order, and the disk is not stopped.
    pub fn new() -> DiskFaults
        ensures stopped { result.stopped ≡ false }
        ensures stop { result.stop ≡ None }
        ensures fault { result.fault ≡ None }
    {
        DiskFaults {
            stopped: false,
            stop: None,
            fault: None,
        }
    }

    /// Takes an order, in place of an earlier one of its kind.
    pub fn add(&mut self, order: DiskFault)
        ensures { self.new ≡ after_order self.old order }
    {
        match order {
            DiskFault::Stop(stop) => self.stop = Some(stop),
            DiskFault::Fault(call) => self.fault = Some(call),
        }
    }

    /// The disk is no more stopped.
    pub fn power_on(&mut self)
        ensures { self.new ≡ powered self.old }
    {
        self.stopped = false;
    }

    /// Counts a call that is no write, and tells whether it fails.
    pub fn strike_call(&mut self) -> bool
        ensures strikes { result ≡ strikes (plan_of self.old) false }
        ensures after { self.new ≡ after_orders self.old false }
    {
        if self.stopped {
            true
        } else {
            let strikes = is_next_call(&self.fault);
            self.fault = with_call_counted(&self.fault);
            strikes
        }
    }

    /// Counts a write, and tells what comes of it.
    pub fn strike_write(&mut self) -> Strike
        ensures strikes { result ≡ strike_of self.old }
        ensures after { self.new ≡ after_orders self.old true }
    {
        if self.stopped {
            Strike::Fails
        } else {
            let fault = by_fault(&self.fault);
            self.fault = with_call_counted(&self.fault);
            match self.stop.take() {
                None => fault,
                Some(Stop { write: 1, how }) => {
                    self.stopped = true;
                    Strike::Stops(how)
                }
                Some(Stop { write, how }) => {
                    self.stop = Some(Stop {
                        write: write.saturating_sub(1),
                        how,
                    });
                    fault
                }
            }
        }
    }
}

// Whether an order strikes the next call.
fn is_next_call(fault: &Option<u32>) -> bool
    ensures { result ≡ is_next fault.now }
{
    match fault {
        Some(call) => *call == 1,
        None => false,
    }
}

// The order after one more call, which spends it where it strikes.
fn with_call_counted(fault: &Option<u32>) -> Option<u32>
    ensures { result ≡ counted_down fault.now }
{
    match fault {
        Some(call) if *call == 1 => None,
        Some(call) => Some(call.saturating_sub(1)),
        None => None,
    }
}

// What comes of a write that no stop strikes.
fn by_fault(fault: &Option<u32>) -> Strike
    ensures { result ≡ fault_strike fault.now }
{
    if is_next_call(fault) {
        Strike::Fails
    } else {
        Strike::Spares
    }
}
