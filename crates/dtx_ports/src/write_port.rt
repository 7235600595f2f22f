//! A writer of std as a sink.
ghost use Rattle.std.specs.Prelude.{◌≡◌, ◌<◌, ◌≤◌, length, IfOk};
ghost use Rattle.std.specs.Io.KnownBytes.{WriteAppends};
ghost use Rattle.dtx_ports.specs.Causes.{HasCause, CountsFailure};

use crate::count::Count;
use crate::{Failed, Sink};
use std::io::Write;
use std::marker::Model;

/// A writer, with a count of its faults: each error that a write answers is one, and each write that takes no byte.
///
/// It never flushes, so the writer is to keep nothing back.
#[derive(Drop)]
pub struct WritePort<W> {
    writer: W,
    faults: Count,
}

impl<W> Model for WritePort<W> {
    ghost use Rattle.dtx_ports.specs.Port.{PortState};

    ghost Value = { PortState W };

    ghost view = { λ port. record { device = port.writer; faults = port.faults } };
}

impl<W: Write> WritePort<W> {
    /// A port to this writer, with no fault yet.
    pub fn new(writer: W) -> WritePort<W>
        ensures writer { result.device ≡ writer }
        ensures faults { result.faults ≡ 0 }
    {
        WritePort {
            writer,
            faults: Count::new(),
        }
    }
}

impl<W: Write> Sink for WritePort<W> {
    ghost written = { λ port. W.contents port.device };

    ghost faults = { λ port. port.faults };

    fn write(&mut self, bytes: &[u8]) -> Result<usize, Failed>
        requires { 0 < length bytes.now }
        ensures some { IfOk result (λ count. 0 < count) }
        ensures bound { IfOk result (λ count. count ≤ length bytes.now) }
        ensures bytes { WriteAppends (W.contents self.old.device) (W.contents self.new.device) result bytes.now }
        ensures cause { HasCause self.old.faults self.new.faults result }

        ensures counted { CountsFailure self.old.faults self.new.faults result }
    {
        match self.writer.write(bytes) {
            // A writer that takes nothing would be asked for ever: that is a fault too.
            Ok(0) | Err(_) => {
                self.faults.rise();
                Err(Failed)
            }
            Ok(count) => Ok(count),
        }
    }
}
