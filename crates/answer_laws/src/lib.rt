//! Each answer that a client gets to a statement with a table has its place: the call of its command, the run of the
//! statement that gave the answer, and the way from the one to the other through the session tree.
#![tactic(auto)]

ghost use Rattle.run_claims.specs.Headline.{EveryAnswerHasItsPlace};
ghost use Rattle.answer_laws.specs.EndLaws.{CallsEndForCause, PendingCommitsCame};
ghost use Rattle.answer_laws.specs.LinkLaws.{StatementsWaitForTheirLinks};
ghost use Rattle.answer_laws.specs.PendingCalls.{PendingCallsEnd};
ghost use Rattle.answer_laws.specs.StatementEnds.{CausesEndStatements, StatementsEndForCause};
ghost use Rattle.answer_laws.specs.TriedAnswers.{TheTriedAnswers};
ghost use Rattle.answer_laws.specs.TriedStatementEnds.{TheTriedStatementEnds};

use answer_origin_laws::turns_find_calls_come;

/// A turn of a lawful run ends at most one client's call: one that came in this turn, one whose statement waited for what
/// came, or a COMMIT that was pending. Only where a user forces the outcome of a root in doubt does that root's COMMIT end too, refused.
pub fn calls_end_for_cause()
    ensures { CallsEndForCause }
{}

/// A statement that waits for another node ends in a turn only where the Reply comes to what its root sent down last, with the
/// answer of that Reply, or DTX-08 where a branch is gone, or where it is given up, with DTX-03. ROLLBACK TO, which calls one child
/// after the other to go back, ends with the Reply of the last of them, or with the first refusal.
pub fn statements_end_for_cause()
    ensures { StatementsEndForCause }
{}

/// Each of these ends it in that very turn, with this answer, and ends no other call: so a statement ends with the first of them.
pub fn causes_end_statements()
    ensures { CausesEndStatements }
{}

/// The link that DTX-03 and DTX-08 name is the one that the name of the statement's table stands for, at the node of its session;
/// with ROLLBACK TO it is that of a child of its transaction.
pub fn statements_wait_for_their_links()
    ensures { StatementsWaitForTheirLinks }
{}

/// In the run of a script a call ends with the first happening that ends it, and with no other: from the turn in which it comes it
/// is pending until a turn of its node ends it, for a cause, or its node stops; no other call comes to its session meanwhile, and
/// none is pending at a node that is down; and each cause of a statement that waits ends it in its very turn, DTX-03 and DTX-08 with
/// the link of its table, or of a child of its transaction.
pub fn pending_calls_end()
    ensures { PendingCallsEnd }
{}

/// This is about something: as the count of the tried script waits, the Reply to an earlier statement comes once more and changes
/// nothing, and its own Reply, DTX-08 in it, and its give-up each end it.
pub fn the_tried_statement_ends()
    ensures { TheTriedStatementEnds }
{}

/// A COMMIT that is pending at a node is the last call of its session.
pub fn pending_commits_came()
    ensures { PendingCommitsCame }
{}

/// In the run of a script each line with a node's answer to a SELECT, INSERT, UPDATE or DELETE, unless it is a refusal, is
/// the answer of a run of that command's statement: the client's call was pending and ended with it, the run is the one that
/// the last answer of the session's transaction came from, the names of its table lead from the statement of the command over
/// links to the table where it ran, and it ran no earlier than the command.
pub fn every_answer_has_its_place()
    ensures { EveryAnswerHasItsPlace }
{
    turns_find_calls_come();
}

/// The law of places is about something: in the tried script a row goes in and is counted through two synonyms and over two
/// links, the count is told to come from its run at the table, and a Reply to the INSERT that comes again changes nothing.
pub fn the_tried_answers()
    ensures { TheTriedAnswers }
{}
