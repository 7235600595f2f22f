//! How many messages are delivered in the course of a COMMIT that nothing disturbs.
//!
//! A command of a script has at most 4,096 messages delivered. That a COMMIT never comes to that is shown by what each message
//! in flight, each live branch and each row may still lead to (`specs/Worth.antt`): a delivery is worth more than what its turn
//! sends and keeps. An Ack that came to a row which holds it already would lessen nothing. None does: each commit goes from a
//! branch to a neighbour once, and its Ack comes back once (`specs/Once.antt`). When COMMIT is called its session tree leads to at
//! most 11 deliveries for each branch, less 5, and a tree has at most 256 branches (`specs/FewLaws.antt`).
#![tactic(auto)]

ghost use Rattle.commit_length_laws.specs.FewLaws.{MessagesGoOnce, DeliveriesLessen, DeliveriesAreFew, DeliveriesStayBelow};
ghost use Rattle.commit_length_laws.specs.TriedFlow.{TheTriedFlow};

/// While a COMMIT flows each commit goes from a branch to a neighbour once, and its Ack comes back once: between two branches
/// there is never more than one of CommitPoint, the commit and its Ack.
pub fn messages_go_once()
    ensures { MessagesGoOnce }
{}

/// So each delivery lessens what all that is in flight and kept of its transaction may still lead to.
pub fn deliveries_lessen()
    ensures { DeliveriesLessen }
{}

/// A COMMIT that flows has had at most 11 messages delivered for each branch of its session tree, less 5.
pub fn deliveries_are_few()
    ensures { DeliveriesAreFew }
{}

/// So it has had fewer than a command may have: a tree of 256 branches comes to 2,811 at most.
pub fn deliveries_stay_below()
    ensures { DeliveriesStayBelow }
{}

/// No COMMIT that flows is about nothing: that of the tried run flows while its third message is in flight, and when all
/// five came.
pub fn the_tried_flow()
    ensures { TheTriedFlow }
{}
