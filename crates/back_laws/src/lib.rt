//! What a branch has changed and holds over time, and what ROLLBACK TO gives back of it.
//!
//! `specs/Returns.antt` says what a session tree has after a ROLLBACK TO. Proved of every lawful run are its parts at one branch:
//! what a branch had at a moment stays until it goes back to a lower step, a savepoint stands for the moment that set it, and the
//! root that goes back to a savepoint has again what it had then. And a savepoint that stands is one of the whole live session tree
//! (`specs/LiveTree.antt`): each branch of it has still what it had at the SAVEPOINT.
#![tactic(auto)]

ghost use Rattle.back_laws.specs.BackLaws.{BranchesReturn, CallsAreNoted, RestIsNoted, RollbacksGoBack, RunsStay, SavepointsStand, StepsAreTaken, RootsReturn};
ghost use Rattle.back_laws.specs.Floors.{BranchesStayAbove, FloorsHold};
ghost use Rattle.back_laws.specs.LiveTree.{ChildrenNoted, NotesHold, SavepointsHold, TreeBranchesReturn};
ghost use Rattle.back_laws.specs.TriedBack.{TheTriedBack};

/// The runs that a branch had at a moment are those that it has later up to the step of that moment, unless it went back to a
/// lower step meanwhile.
pub fn runs_stay()
    ensures { RunsStay }
{}

/// A savepoint of a live root is that of the last SAVEPOINT of its name; the root did not go back below it since, and its runs up
/// to its step are those that it had then.
pub fn savepoints_stand()
    ensures { SavepointsStand }
{}

/// Where a root goes back to a savepoint, it has changed, and holds, what it had changed and held at the SAVEPOINT.
pub fn roots_return()
    ensures { RootsReturn }
{}

/// What a branch notes of its calls to its children rises with the steps, up to the calls that it made last: so a child is never
/// called to go back to a call that was not made, and one that goes back to a later step keeps more.
pub fn calls_are_noted()
    ensures { CallsAreNoted }
{}

/// A ROLLBACK TO that is not refused, in a turn that is not cut, takes the root of its session back.
pub fn rollbacks_go_back()
    ensures { RollbacksGoBack }
{}

/// A branch that goes back to the step of a moment has changed, and holds, what it had changed and held then, unless it went
/// back further meanwhile.
pub fn branches_return()
    ensures { BranchesReturn }
{}

/// What a branch noted of its calls up to its step, that of the last call that came to it or at a root of its client's last call, are
/// all the calls that it made.
pub fn steps_are_taken()
    ensures { StepsAreTaken }
{}

/// Where a branch waits for nothing, each of its live children waits for nothing either, and the last call that it has taken is
/// the last that its parent noted. So a SAVEPOINT, which comes to a root at rest, finds the calls of its whole tree noted.
pub fn rest_is_noted()
    ensures { RestIsNoted }
{}

/// Where each branch has a floor, which is noted with its parent, and no root goes back below its own, no branch does: no BACK that
/// is sent names a call below the floor of its branch.
pub fn floors_hold()
    ensures { FloorsHold }
{}

/// So no branch is taken back below its floor, and what it had up to there stays.
pub fn branches_stay_above()
    ensures { BranchesStayAbove }
{}

/// A savepoint that stands is one of the whole session tree: each branch of it that was live at the SAVEPOINT, with all those on its
/// way to the root, has still what it had then.
pub fn savepoints_hold()
    ensures { SavepointsHold }
{}

/// So a branch of this tree that goes back to the step that it had at the SAVEPOINT, while the savepoint stands, has changed, and
/// holds, what it had changed and held then.
pub fn tree_branches_return()
    ensures { TreeBranchesReturn }
{}

/// And each branch of it has noted still what it had noted of its calls at the SAVEPOINT, and no more up to that step: so it calls
/// each child to go back to the last call that was made to that child then.
pub fn notes_hold()
    ensures { NotesHold }
{}

/// At a SAVEPOINT each branch of the live tree had noted of each child in it the last call that the child took.
pub fn children_noted()
    ensures { ChildrenNoted }
{}

/// This is about something: in a run of two nodes both branches of a session tree have a row more when it goes back, and neither
/// has it afterwards.
pub fn the_tried_back()
    ensures { TheTriedBack }
{}
