//! Laws of the runs of scripts, on which the code that runs them rests: the numbers of nodes and messages are below the
//! limits of their turns, and what is due names nodes and messages that are there.
//!
//! The roots of sessions between their calls: laws of every lawful run.
//!
//! A call comes only to a session that waits for no answer. While it waits for none its live root is working, so a COMMIT comes to a
//! root whose collect has not begun (`specs/RootLaws.antt`).
#![tactic(auto)]

ghost use Rattle.run_number_laws.specs.Counts.{DeliveriesAreWithin};
ghost use Rattle.run_number_laws.specs.Numbers.{NumbersAreWithin, MessagesAreWithin, DisksAreWithin, StartsAreCounted, NumbersAreBelowLimits, MessagesAreBelowLimits, EachStartsSeldom};
ghost use Rattle.run_number_laws.specs.There.{MessagesGoToNodes, DueMessagesAreThere, DueNodesAreThere, DueNodesAreUp};
ghost use Rattle.run_number_laws.specs.Turns.{WhatIsDueMayHappen, DueTurnsFindAble};
ghost use Rattle.run_number_laws.specs.RootLaws.{RootsWork, CommitsFindWork, TurnsFindWork};

use node_ready_laws::turns_stay_ready;
use run_base_laws::commits_are_recorded;
use run_ready_laws::{nodes_are_ready, the_run_is_lawful};
use run_undo_laws::nodes_keep_undo;

/// In every lawful run the numbers of each node that is up are no more than the happenings so far: its clock, the sessions that
/// it opened, the transactions of its sessions, the calls of its branches. So are the SCNs of every message that was sent, and
/// those that a node's records tell, and its starts after the first.
pub fn numbers_are_within()
    ensures nodes { NumbersAreWithin }
    ensures messages { MessagesAreWithin }
    ensures disks { DisksAreWithin }
{
    turns_stay_ready();
    commits_are_recorded();
}

/// In every lawful run what is stored of a node's last start is how often it started.
pub fn starts_are_counted()
    ensures { StartsAreCounted }
{}

/// In the run of a script, as far as it has few happenings, the numbers of each node that is up are below the limits of its next
/// turn, and so are the SCNs that messages bring.
pub fn numbers_are_below_limits()
    ensures nodes { NumbersAreBelowLimits }
    ensures messages { MessagesAreBelowLimits }
{
    the_run_is_lawful();
    numbers_are_within();
}

/// In such a run each node starts seldom, and as often as is stored of its last start.
pub fn each_starts_seldom()
    ensures { EachStartsSeldom }
{
    the_run_is_lawful();
    starts_are_counted();
    numbers_are_within();
}

/// The deliveries that are counted for the command that runs are no more than the happenings so far.
pub fn deliveries_are_within()
    ensures { DeliveriesAreWithin }
{}

/// In every lawful run each message that was sent goes to a node that there is.
pub fn messages_go_to_nodes()
    ensures { MessagesGoToNodes }
{}

/// What is due in the run of a script is there: the message that is to come, the nodes that are named, and the node that is to
/// take a turn is up.
pub fn due_is_there()
    ensures messages { DueMessagesAreThere }
    ensures nodes { DueNodesAreThere }
    ensures up { DueNodesAreUp }
{
    the_run_is_lawful();
    messages_go_to_nodes();
}

/// What comes next in the run of a script may happen. A turn that is due finds its node up and its input there, and in a run with
/// few happenings whose Replies tell of few branches the node is able to take it.
pub fn due_turns_find_able()
    ensures may { WhatIsDueMayHappen }
    ensures able { DueTurnsFindAble }
{
    the_run_is_lawful();
    nodes_are_ready();
    nodes_keep_undo();
    due_is_there();
    numbers_are_below_limits();
}

/// The live root of a session without a pending call is working.
pub fn roots_work()
    ensures { RootsWork }
{}

/// A COMMIT that may come after the happenings of a lawful run finds the live root of its session working.
pub fn commits_find_work()
    ensures { CommitsFindWork }
{}

/// Each COMMIT that came in a lawful run found the live root of its session working.
pub fn turns_find_work()
    ensures { TurnsFindWork }
{}
