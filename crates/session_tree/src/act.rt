//! What a branch does next in its prepare phase.
ghost use Rattle.std.specs.Prelude.{◌≡◌};

/// One step of the walk to the commit point site, which begins at the root.
#[derive(Clone, Copy, Debug, PartialEq, Eq)]
pub enum Walk {
    /// The branch is the site.
    Here,
    /// The walk goes to the child of this number, from 1.
    Down(u8),
    /// Neither the branch nor its children have changes: there is no site.
    Nowhere,
}

/// What a branch does next after a COMMIT, a Prepare, the answer of a child, or CommitPoint.
#[derive(Clone, Copy, Debug, PartialEq, Eq)]
pub enum Act {
    /// It waits for further answers.
    Rest,
    /// It sends Prepare to every child.
    AskDown,
    /// It answers ReadOnly: nothing was changed here or below.
    SayReadOnly,
    /// It answers Ready: the commit point site is here or below.
    SayReady,
    /// It becomes sealed and answers Prepared.
    Seal,
    /// It becomes sealed and sends CommitPoint to the child of this number, from 1.
    SealAndPass(u8),
    /// It is the site, and decides to commit.
    Decide,
    /// It is a root without a site: the COMMIT is complete.
    Finish,
    /// It rolls back, since a child answered Abort.
    Abandon,
}
