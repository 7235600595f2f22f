//! Why a body was not decoded.
ghost use Rattle.std.specs.Prelude.{◌≡◌};

/// Why no record was made of a body.
#[derive(Clone, Copy, Debug, PartialEq, Eq)]
pub enum DecodeErr {
    /// The bytes are the body of no record.
    NotARecord,
    /// There was no memory for the record.
    NoMemory,
}
