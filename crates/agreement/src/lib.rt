//! Agreement of distributed transactions, over the events of branches: how a branch stops being live, what it learns, what
//! it tells. Here is what each event needs of those before it (`specs/Events.antt`), and what follows of every such list of
//! events and of its book: branches end as their commit point site decided, mixed outcomes are marked, and the SCN of a
//! decision exceeds those of the seals.
//!
//! Nothing is said here of how nodes work. The crate run_branch_laws shows that the turns of nodes make such events.
#![tactic(auto)]

ghost use Rattle.agreement.specs.Laws.{RollbackMeansUndecided, CommitAsDecided, DecisionIsLater, DecisionIsCovered, CommitComesAfter, DoomedIsUndecided, BooksAgree, BooksAreMarked, DecisionsExceedSeals};
ghost use Rattle.agreement.specs.Examples.{ExamplesAreLawful};

/// Where a branch learned a rollback, its transaction has no decision.
pub fn rollback_means_undecided()
    ensures { RollbackMeansUndecided }
{}

/// A branch that learns a commit does so as its commit point site decided, with the same SCN.
pub fn commit_as_decided()
    ensures { CommitAsDecided }
{}

/// The SCN of a decision exceeds that of each sealed branch of its transaction.
pub fn decision_is_later()
    ensures { DecisionIsLater }
{}

/// Where a decision stands, each other branch of the tree is sealed, or answered that nothing was changed on it or beyond.
pub fn decision_covers()
    ensures { DecisionIsCovered }
{}

/// A commit that is learned comes after its decision.
pub fn commit_comes_after()
    ensures { CommitComesAfter }
{}

/// A transaction of which a branch was dropped has no decision, and no branch of it learns a commit.
pub fn doomed_is_undecided()
    ensures { DoomedIsUndecided }
{}

/// Each entry of a book agrees with those before it.
pub fn books_agree()
    ensures { BooksAgree }
{}

/// Every Met of a book is marked as mixed exactly where it is.
pub fn books_are_marked()
    ensures { BooksAreMarked }
{}

/// The SCN of a decision exceeds that of every seal of its transaction.
pub fn decisions_exceed_seals()
    ensures { DecisionsExceedSeals }
{}

/// No law is about nothing: lists of events of a commit, of a forced branch and of a rollback are lawful.
pub fn examples_are_lawful()
    ensures { ExamplesAreLawful }
{}
