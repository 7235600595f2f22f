//! One gate of a log, and what follows it.
ghost use Rattle.redo_log.specs.Gates.{IsGateOf};

/// The byte of an open gate. Each other byte is a closed gate.
pub(crate) const OPEN: u8 = 1;

/// The byte of the closed gates that are written.
pub(crate) const CLOSED: u8 = 0;

/// What the bytes of a log begin with.
#[derive(Clone, Copy)]
pub(crate) enum Gate<'a> {
    /// An open gate: the body of its cell, and the bytes after the cell.
    Open { body: &'a [u8], behind: &'a [u8] },
    /// A gate that is not open, at which a log ends.
    Closed,
    /// Neither: the bytes end before a gate, or within an open cell.
    CutOff,
}

/// Reads the first gate and, where it is open, its cell.
pub(crate) fn first_gate(bytes: &[u8]) -> Gate<'_>
    ensures { IsGateOf bytes.now result }
{
    let Some((gate, cell)) = bytes.split_first() else {
        return Gate::CutOff;
    };
    if *gate != OPEN {
        return Gate::Closed;
    }
    if cell.len() < 4 {
        return Gate::CutOff;
    }
    let (stated, rest) = cell.split_at(4);
    let length = u32::from_be_bytes([stated[0], stated[1], stated[2], stated[3]]) as usize;
    if rest.len() < length {
        return Gate::CutOff;
    }
    let (body, behind) = rest.split_at(length);
    Gate::Open { body, behind }
}
