//! A sink in memory, which fails at the calls that a list names, and when it is full.
ghost use Rattle.std.specs.Prelude.{◌≡◌, ◌+◌, ◌-◌, ◌<◌, ◌≤◌, ◌↔◌, ◌⊎◌, [], Some, min, length, IfOk, IsErr};
ghost use Rattle.std.specs.Io.KnownBytes.{WriteAppends};
ghost use Rattle.dtx_ports.specs.Causes.{HasCause, CountsFailure};
ghost use Rattle.dtx_ports.specs.Memory.{IsNextListed, next_call};

use crate::call_plan::CallPlan;
use crate::count::Count;
use crate::{Failed, Sink};
use std::alloc::{AllocError, Global};
use std::marker::Model;

/// Room in memory for a number of bytes, taken once, so that a write needs no memory. A write stores what still fits,
/// and fails where nothing does.
#[derive(Drop)]
pub struct MemSink {
    bytes: Vec<u8>,
    room: usize,
    plan: CallPlan,
    faults: Count,
}

impl Model for MemSink {
    ghost use Rattle.std.specs.Prelude.{◌-◌, ◌≤◌, vec_len, vec_capacity};
    ghost use Rattle.dtx_ports.specs.Memory.{SinkState};

    ghost Value = { SinkState };

    ghost view = { λ sink. record {
      written = sink.bytes.items;
      room = sink.room - vec_len sink.bytes;
      calls = sink.plan;
      faults = sink.faults;
    } };

    ghost invariant = { λ sink. (vec_len sink.bytes ≤ sink.room) × (sink.room ≤ vec_capacity sink.bytes) };
}

impl MemSink {
    /// An empty sink with room for so many bytes, whose calls of these numbers fail, counted from 1. It is an error only
    /// where there is no memory for that room.
    pub fn new(alloc: Global, room: usize, fail: Vec<u32>) -> Result<MemSink, AllocError>
        ensures written { IfOk result (λ sink. sink.written ≡ []) }
        ensures room { IfOk result (λ sink. sink.room ≡ room) }
        ensures fail { IfOk result (λ sink. sink.calls.fail ≡ fail.items) }
        ensures made { IfOk result (λ sink. sink.calls.made ≡ 0) }
        ensures faults { IfOk result (λ sink. sink.faults ≡ 0) }
    {
        Ok(MemSink {
            bytes: Vec::with_capacity(alloc, room)?,
            room,
            plan: CallPlan::new(fail),
            faults: Count::new(),
        })
    }

    /// The bytes that were written.
    pub fn bytes(&self) -> &[u8]
        ensures { result.now ≡ self.now.written }
    {
        self.bytes.as_slice()
    }
}

impl Sink for MemSink {
    ghost written = { λ sink. Some sink.written };

    ghost faults = { λ sink. sink.faults };

    fn write(&mut self, bytes: &[u8]) -> Result<usize, Failed>
        requires { 0 < length bytes.now }
        ensures some { IfOk result (λ count. 0 < count) }
        ensures bound { IfOk result (λ count. count ≤ length bytes.now) }
        ensures bytes { WriteAppends (Some self.old.written) (Some self.new.written) result bytes.now }
        ensures cause { HasCause self.old.faults self.new.faults result }

        ensures fails { IsErr result ↔ (IsNextListed self.old.calls ⊎ (self.old.room ≡ 0)) }
        ensures counted { CountsFailure self.old.faults self.new.faults result }
        ensures calls { self.new.calls ≡ next_call self.old.calls }
        ensures full { IfOk result (λ count. count ≡ min self.old.room (length bytes.now)) }
        ensures room { IfOk result (λ count. self.new.room + count ≡ self.old.room) }
    {
        let is_listed = self.plan.fails_next();
        let room = self.room - self.bytes.len();
        if is_listed || room == 0 {
            self.faults.rise();
            return Err(Failed);
        }
        let count = room.min(bytes.len());
        self.bytes.extend_from_slice(&bytes[..count]).unwrap();
        Ok(count)
    }
}
