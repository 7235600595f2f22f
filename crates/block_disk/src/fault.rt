//! DiskFaults to a disk, to stop or to fail in one of its calls.
ghost use Rattle.std.specs.Prelude.{◌≡◌, take};
ghost use Rattle.block_disk.specs.Plan.{left_of};

/// An order. Its number counts from the call of `arm`: 1 is the next write or call.
#[derive(Drop)]
pub enum DiskFault {
    /// The disk stops in a write.
    Stop(Stop),
    /// The counted call of this number fails. Where it is a write, it writes nothing.
    Fault(u32),
}

/// An order to stop.
#[derive(Drop)]
pub struct Stop {
    /// The number of the write in which the disk stops.
    pub write: u32,
    /// What that write leaves.
    pub how: How,
}

/// What a struck write leaves at its place. What was there past these bytes stays.
#[derive(Drop)]
pub enum How {
    /// The first so many of its bytes, all where it has no more.
    Keep(u32),
    /// These bytes, cut to the write's length.
    Leave(Vec<u8>),
}

impl How {
    /// What is left of a write of these bytes.
    pub(crate) fn left_of<'a>(&'a self, bytes: &'a [u8]) -> &'a [u8]
        ensures { result.now ≡ left_of self.now bytes.now }
    {
        match self {
            How::Keep(count) => first(bytes, *count as usize),
            How::Leave(others) => first(others.as_slice(), bytes.len()),
        }
    }
}

// The first so many of these bytes, all where there are no more.
fn first(bytes: &[u8], count: usize) -> &[u8]
    ensures { result.now ≡ take count bytes.now }
{
    &bytes[..count.min(bytes.len())]
}
