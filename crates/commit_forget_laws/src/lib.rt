//! The forget phase: laws of every lawful run, and that nothing is left of an undisturbed COMMIT.
//!
//! A branch that knows the commit acknowledges it toward the commit point site once all beyond it did, and the row of a branch
//! that was not forced goes when the branch forgets (`specs/RowLaws.antt`). An Ack that was delivered is held, a delivered
//! Forgotten makes its receiver forget, and who forgets tells those beyond (`specs/ForgetLaws.antt`). So where each sealed
//! branch of a transaction has ended with commit, all its messages came and no node has stopped, all acknowledged, the
//! farthest from the site first, and all forgot, the nearest first: no node keeps a row of it (`specs/GoneLaws.antt`).
#![tactic(auto)]

ghost use Rattle.commit_forget_laws.specs.GoneLaws.{EndedBranchesGo, EndedRowsGo};
ghost use Rattle.commit_forget_laws.specs.TriedForget.{TheTriedForget};

/// So where each sealed branch of a transaction has ended with commit, all messages of its branches came, and none of their
/// nodes has stopped, no node keeps a row of it, and each of its branches that is not live is gone.
pub fn ended_rows_go()
    ensures { EndedRowsGo }
{}

/// So where none of its branches is live any more their nodes know nothing of them.
pub fn ended_branches_go()
    ensures { EndedBranchesGo }
{}

/// No law of the forget phase is about nothing: in the tried run of two nodes B acknowledges, A, the site, waits for it,
/// forgets and tells B, and B forgets.
pub fn the_tried_forget()
    ensures { TheTriedForget }
{}
