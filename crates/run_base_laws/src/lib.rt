//! Laws of every lawful run on which all others stand: what its nodes keep, that facts are a fold of the happenings, which
//! session trees its branches form, and that calls are answered one after the other.
#![tactic(auto)]

ghost use Rattle.run_base_laws.specs.Laws.{BookIsOfTrace, FactsAreAlone, PastGoesOn, LawfulGoesOn};
ghost use Rattle.run_base_laws.specs.NodeLaws.{ClocksRise, ClocksCover, CommitsAreKnown, CommitsAreRecorded};
ghost use Rattle.run_base_laws.specs.IdLaws.{IdsNameTheirNode};
ghost use Rattle.run_base_laws.specs.EventLaws.{NodesAreAsEvents, TurnsTellAsEvents};

/// The book that the facts keep is the book of the trace.
pub fn book_is_of_trace()
    ensures { BookIsOfTrace }
{}

/// The facts of a run are a fold of its happenings alone.
pub fn facts_are_alone()
    ensures { FactsAreAlone }
{}

/// The fold over a trace may be stopped and gone on with anywhere.
pub fn past_goes_on()
    ensures { PastGoesOn }
{}

/// A lawful trace, and a happening that may come after it, are a lawful trace.
pub fn lawful_goes_on()
    ensures { LawfulGoesOn }
{}

/// In a lawful run no turn sets its node's clock back. The SCN of a commit that a turn decides is above the clock before
/// the turn, and the SCN of a seal is not below it.
pub fn clocks_rise()
    ensures { ClocksRise }
{}

/// The clock of a node is not below any SCN that its records name, apart from those that users gave with COMMIT FORCE.
pub fn clocks_cover()
    ensures { ClocksCover }
{}

/// A branch tells Committed only where its row knows that commit before the turn, or the turn's record says it.
pub fn commits_are_known()
    ensures { CommitsAreKnown }
{}

/// A branch tells Committed only where a record of its node says that commit, the turn's own record among them.
pub fn commits_are_recorded()
    ensures { CommitsAreRecorded }
{}

/// The live branches of a node, its rows, the branches that were opened there and those that its records name are its own.
pub fn ids_name_their_node()
    ensures { IdsNameTheirNode }
{}

/// A live branch has no exit by the events of the run. The row of a kept branch tells its exit, what it learned, what was
/// forced on it and whether it forgot as the events do.
pub fn nodes_are_as_events()
    ensures { NodesAreAsEvents }
{}

/// Each turn writes a record and says messages that it may by the events before it, as far as that hangs on no session tree:
/// a branch has one exit, learns a decision once and is forced once, and only while it is sealed; it votes once it is sealed,
/// at no lower clock; it tells a commit that it knows; it tells that it forgot, or answers an Ack.
pub fn turns_tell_as_events()
    ensures { TurnsTellAsEvents }
{}
