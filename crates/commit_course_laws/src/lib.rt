//! An undisturbed COMMIT is complete, and in the run of a script it is complete in its own command.
//!
//! The laws of the crates below put together: no branch below the root is dropped, and none says Abort (commit_spread_laws); the
//! walk of CommitPoint ends where the site decides, or nobody had changes (commit_point_laws); its commit reaches each sealed
//! branch (commit_spread_laws), and all acknowledge and forget (commit_forget_laws); each branch of the transaction was asked
//! and has left, and the COMMIT is answered (commit_leave_laws). `run_claims` says what an undisturbed COMMIT is, and a
//! complete one. With HOLD off its messages are delivered one after the other until none is in flight.
#![tactic(auto)]

ghost use Rattle.run_claims.specs.Undisturbed.{UndisturbedCommitsAreComplete};
ghost use Rattle.commit_course_laws.specs.CompleteLaws.{LawfulCommitsAreComplete};
ghost use Rattle.commit_course_laws.specs.CommandCalls.{HoldIsKept, CommandsFindNoCall, CommandsFindNothingInFlight};
ghost use Rattle.run_claims.specs.CommitCourse.{CommitsFlow, CommitsEnd, QuietCommitsAreComplete};
ghost use Rattle.commit_course_laws.specs.TriedCourse.{TheTriedCourse};
ghost use Rattle.commit_course_laws.specs.TriedQuiet.{QuietCommitsExist};

/// An undisturbed COMMIT of a lawful run is complete when nothing is in flight any more: its call has one answer, Commit
/// complete; each sealed branch of its transaction has ended with commit; and no node knows anything of its branches.
pub fn every_undisturbed_commit_is_complete()
    ensures { UndisturbedCommitsAreComplete }
{}

/// So it is of a COMMIT in the middle of a lawful run, at the moment when nothing is in flight.
pub fn lawful_commits_are_complete()
    ensures { LawfulCommitsAreComplete }
{}

/// Only HOLD ON and HOLD OFF change HOLD.
pub fn hold_is_kept()
    ensures { HoldIsKept }
{}

/// With HOLD off a command begins only where no call is pending.
pub fn commands_find_no_call()
    ensures { CommandsFindNoCall }
{}

/// And nothing is in flight then, unless the command before has had its 4,096 deliveries.
pub fn commands_find_nothing_in_flight()
    ensures { CommandsFindNothingInFlight }
{}

/// While messages are in flight in the command of a COMMIT that goes well, with HOLD off, the first of them is delivered next.
pub fn commits_flow()
    ensures { CommitsFlow }
{}

/// Where such a COMMIT has been answered and nothing is in flight any more, no call is pending and the next command is due.
pub fn commits_end()
    ensures { CommitsEnd }
{}

/// In the run of a script each quiet COMMIT is undisturbed, and it is complete when its command is done: it has one answer, Commit
/// complete, its transaction is decided if any of its session tree had changes, and no node knows anything of its branches. The
/// report says Commit complete. So it is of the COMMIT that a CREATE makes first, too: after it the CREATE itself has come.
pub fn quiet_commits_are_complete()
    ensures { QuietCommitsAreComplete }
{}

/// None of this is about nothing: in a script of two nodes a COMMIT is quiet, and the report says Commit complete; where a
/// message of it is lost, its call is given up.
pub fn the_tried_course()
    ensures { TheTriedCourse }
{}

/// Quiet COMMITs exist: that script's COMMIT is one, and so is the COMMIT of a CREATE in its place. Both are done.
pub fn quiet_commits_exist()
    ensures { QuietCommitsExist }
{}
