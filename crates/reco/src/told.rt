//! What is told to one that asks.
ghost use Rattle.std.specs.Prelude.{◌≡◌};
ghost use Rattle.reco.specs.Told.{told_kind};

use wire_msg::Kind;

/// What is told of a branch to one that asks for the decision of its transaction.
#[derive(Clone, Copy, Debug, PartialEq, Eq)]
pub enum Told {
    /// The transaction committed at this SCN.
    Committed(u64),
    /// It rolled back.
    RolledBack,
    /// The branch is live and its parent asks: it rolls back, and says so.
    RollBackFirst,
    /// Nothing is known.
    InDoubt,
}

impl Told {
    /// The message that tells it.
    pub fn kind(self) -> Kind
        ensures { result ≡ told_kind self }
    {
        match self {
            Told::Committed(scn) => Kind::Committed { scn },
            Told::RolledBack | Told::RollBackFirst => Kind::RolledBack,
            Told::InDoubt => Kind::InDoubt,
        }
    }
}
