//! A reader of std as a source.
ghost use Rattle.std.specs.Prelude.{◌≡◌};
ghost use Rattle.std.specs.Io.{ReadsAtMost};
ghost use Rattle.std.specs.Io.KnownBytes.{ReadConsumes};
ghost use Rattle.dtx_ports.specs.Causes.{HasCause, CountsFailure};

use crate::count::Count;
use crate::{Failed, Source};
use std::io::Read;
use std::marker::Model;

/// A reader, with a count of its faults: each error that a read answers is one.
#[derive(Drop)]
pub struct ReadPort<R> {
    reader: R,
    faults: Count,
}

impl<R> Model for ReadPort<R> {
    ghost use Rattle.dtx_ports.specs.Port.{PortState};

    ghost Value = { PortState R };

    ghost view = { λ port. record { device = port.reader; faults = port.faults } };
}

impl<R: Read> ReadPort<R> {
    /// A port to this reader, with no fault yet.
    pub fn new(reader: R) -> ReadPort<R>
        ensures reader { result.device ≡ reader }
        ensures faults { result.faults ≡ 0 }
    {
        ReadPort {
            reader,
            faults: Count::new(),
        }
    }
}

impl<R: Read> Source for ReadPort<R> {
    ghost left = { λ port. R.remaining port.device };

    ghost faults = { λ port. port.faults };

    fn read(&mut self, buffer: &mut [u8]) -> Result<usize, Failed>
        ensures bound { ReadsAtMost result buffer.new }
        ensures bytes { ReadConsumes (R.remaining self.old.device) (R.remaining self.new.device) result buffer.new }
        ensures cause { HasCause self.old.faults self.new.faults result }

        ensures counted { CountsFailure self.old.faults self.new.faults result }
    {
        match self.reader.read(buffer) {
            Ok(count) => Ok(count),
            Err(_) => {
                self.faults.rise();
                Err(Failed)
            }
        }
    }
}
