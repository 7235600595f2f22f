//! Places of a turn.
ghost use Rattle.std.specs.Prelude.{◌≡◌};

/// A place of a turn at which a crash-test comment may stop a node. No message of the turn is sent then.
#[derive(Clone, Copy, Debug, PartialEq, Eq)]
pub enum TurnPlace {
    /// All children of the branch have answered: before it says Ready, before its Sealed, or before Decided at a root.
    Collected,
    /// Before its Sealed record.
    BeforeSealed,
    /// Its Sealed record stands.
    AfterSealed,
    /// Before its Decided record.
    BeforeDecided,
    /// Its Decided record stands.
    AfterDecided,
    /// Before its Ended record, by which it commits.
    BeforeEnded,
    /// That record stands.
    AfterEnded,
    /// Before its Forgot record.
    BeforeForgot,
}
