//! The turns that pending calls come in: in the run of a script each call that waits for its answer came in a turn of its
//! node, in the course of its command, with the statement that the command has.
//!
//! Where the answers of a run come from: the run of a statement at its table, over the Execs and the Replies of its session tree.
#![tactic(auto)]

ghost use Rattle.answer_origin_laws.specs.CallTurns.{PendingCallsCame, TurnsFindCallsCome};
ghost use Rattle.answer_origin_laws.specs.TriedCalls.{TheTriedCalls};
ghost use Rattle.answer_origin_laws.specs.ReplyLaws.{RepliesComeFromRuns};
ghost use Rattle.answer_origin_laws.specs.TriedPlace.{TheTriedPlace};
ghost use Rattle.answer_origin_laws.specs.LeadLaws.{RepliesLeadToRuns, KeptAnswersLeadToRuns};

/// A pending call came in a turn of its session's node and has been pending since, with no other call of the session, unless
/// it comes next.
pub fn pending_calls_came()
    ensures { PendingCallsCame }
{}

/// In each turn each pending call comes, or has come before.
pub fn turns_find_calls_come()
    ensures { TurnsFindCallsCome }
{}

/// None of this is about nothing: in a script of two nodes an INSERT over a link waits for its Reply, and a CREATE TABLE for
/// its COMMIT.
pub fn the_tried_calls()
    ensures { TheTriedCalls }
{}

/// Each Reply that is no refusal comes from the run of a statement that stands in a turn of the run, and that turn answered
/// what the Reply says.
pub fn replies_come_from_runs()
    ensures { RepliesComeFromRuns }
{}

/// That run is one that the Reply's call led to: an Exec brought the branch a statement, and the names of its table lead
/// over links to the node and the table where it ran, with an Exec for each link, none of them after the run.
pub fn replies_lead_to_runs()
    ensures { RepliesLeadToRuns }
{}

/// So is the run of an answer that a live branch below a root keeps for a call that comes again.
pub fn kept_answers_lead_to_runs()
    ensures { KeptAnswersLeadToRuns }
{}

/// The laws of places are not about nothing: in the tried run of two nodes B's Reply comes from its run of the statement that
/// A passed on, and A's last answer from its own run.
pub fn the_tried_place()
    ensures { TheTriedPlace }
{}
