//! What a COMMIT comes to that nothing disturbs, and for whom branches wait on the way.
//!
//! `specs/Undisturbed.antt` says what an undisturbed COMMIT is and what it leaves. That every undisturbed COMMIT is complete is
//! proved in `commit_course_laws`. Proved here of every lawful run is what a delivered message has done (`specs/DeliveryLaws.antt`),
//! for whom a branch waits that collects (`specs/WaitLaws.antt`), that Prepare is sent once (`specs/OnceLaws.antt`) and why a
//! branch leaves in a turn (`specs/LeaveLaws.antt`); and of undisturbed COMMITs that their collect ends and their root leaves,
//! where no branch below it was dropped (`specs/StillLaws.antt`).
#![tactic(auto)]

ghost use Rattle.commit_laws.specs.WaitLaws.{CollectorsWait};
ghost use Rattle.commit_laws.specs.StillLaws.{UndisturbedMessagesCome};
ghost use Rattle.commit_laws.specs.TriedCommit.{TheTriedCommit};

/// A branch that awaits the answer of a child waits for one that was not asked yet, collects, or has answered, or that was
/// dropped or whose node has stopped.
pub fn collectors_wait()
    ensures { CollectorsWait }
{}

/// Each message of the transaction of an undisturbed COMMIT was delivered.
pub fn undisturbed_messages_come()
    ensures { UndisturbedMessagesCome }
{}

/// No definition of undisturbed COMMITs is about nothing: the COMMIT of the tried run is undisturbed and complete; where a
/// message of it is lost it is neither.
pub fn the_tried_commit()
    ensures { TheTriedCommit }
{}
