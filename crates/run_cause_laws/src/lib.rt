//! Each record that a turn writes, and each message that it sends, has its cause in what came and what happened before.
//!
//! In every lawful run a branch says Abort on what came to it (`specs/AbortLaws.antt`) and ReadOnly where nothing was
//! changed on it or below (`specs/QuietLaws.antt`), an Exec passes on what its sender was asked (`specs/PassLaws.antt`), and
//! a commit point site forgets once each neighbour's Ack came (`specs/ForgetLaws.antt`).
#![tactic(auto)]

ghost use Rattle.run_claims.specs.Headline.{EveryTurnKnows};
ghost use Rattle.run_cause_laws.specs.TriedPass.{TheTriedPass};
ghost use Rattle.run_cause_laws.specs.TriedQuiet.{TheTriedQuiet};
ghost use Rattle.run_cause_laws.specs.TriedTurns.{TheTriedTurns};

/// So each record of a turn, and each Exec, Abort, ReadOnly and Committed, has its cause in what came and what happened before.
pub fn every_turn_knows()
    ensures { EveryTurnKnows }
{}

/// No law of turns is about nothing: in the tried run of two nodes A, the site, has B as its neighbour, B's Ack came, and
/// both are gone.
pub fn the_tried_turns()
    ensures { TheTriedTurns }
{}

/// Nor is the law of Execs: in that run A's statement goes on to B over its link, and what goes on is what B is asked.
pub fn the_tried_pass()
    ensures { TheTriedPass }
{}

/// Nor is that of ReadOnly: in another run of both B, which was only read, says it and leaves so.
pub fn the_tried_quiet()
    ensures { TheTriedQuiet }
{}
