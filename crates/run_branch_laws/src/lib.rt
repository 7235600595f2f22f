//! Laws of branches in every lawful run: what they hear and tell, how they vote, that a tree stands still once its COMMIT was
//! asked, and that the run's book agrees as far as each turn does what its session trees allow.
#![tactic(auto)]

ghost use Rattle.run_base_laws.specs.Laws.{RunsArePlayed};
ghost use Rattle.run_base_laws.specs.EventLaws.{BookOfEvents, JustRunsAreLawful, JustRunsAgree, SealedAreKept, GoneAreDone};
ghost use Rattle.run_branch_laws.specs.HeardLaws.{AcksAreTrue};
ghost use Rattle.run_branch_laws.specs.TriedRun.{TheTriedRun};
ghost use Rattle.run_branch_laws.specs.VoteLaws.{LiveHaveNotVoted};
ghost use Rattle.run_base_laws.specs.FreezeLaws.{AskedHaveAnswered};

/// What a play computes is the run of its script: each happening is the one that is due.
pub fn runs_are_played()
    ensures { RunsArePlayed }
{}

/// The events of a run, which agreement speaks of, have the run's book.
pub fn book_is_of_events()
    ensures { BookOfEvents }
{}

/// Where each turn of a run is just, the events of the run are lawful: stops, starts, cuts and losses need nothing.
pub fn just_runs_are_lawful()
    ensures { JustRunsAreLawful }
{}

/// So its branches end as their sites decided, its mixed outcomes are marked, and its decisions exceed their seals.
pub fn just_runs_agree()
    ensures { JustRunsAgree }
{}

/// A sealed branch has a row, by the records of its node, until it learned a rollback or forgot.
pub fn sealed_are_kept()
    ensures { SealedAreKept }
{}

/// A sealed branch that is neither live nor kept at its node learned a rollback or forgot.
pub fn gone_are_done()
    ensures { GoneAreDone }
{}

/// Each Ack that a row holds was sent by that neighbour.
pub fn acks_are_true()
    ensures { AcksAreTrue }
{}

/// No law of trees and events is about nothing: a run of two nodes to a commit has these births and these events.
pub fn the_tried_run()
    ensures { TheTriedRun }
{}

/// No live branch has voted.
pub fn live_have_not_voted()
    ensures { LiveHaveNotVoted }
{}

/// A branch asks a child to prepare once the child answered each of its calls, and calls it no more.
pub fn asked_have_answered()
    ensures { AskedHaveAnswered }
{}
