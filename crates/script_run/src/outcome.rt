//! How a run of the program ends, and what was done.
ghost use Rattle.std.specs.Prelude.{◌≡◌, []};
ghost use Rattle.script_read.specs.Sound.{IsOfAScript};
ghost use Rattle.run_claims.specs.Headline.{EveryTurnKnows, EveryRunIsMeant, EveryAnswerHasItsPlace, EverySiteDecides, EveryDecisionCovers, EveryBookAgrees, EveryMixedIsMarked, EveryScnIsLater};
ghost use Rattle.run_rules.specs.Reported.{All_run};
ghost use Rattle.run_rules.specs.Scripts.{places_of, TheRunIsLawful};
ghost use Rattle.run_claims.specs.ReportedDone.{DoneIsReported};
ghost use Rattle.run_claims.specs.CommitCourse.{QuietCommitsAreComplete};
ghost use Rattle.answer_laws.specs.PendingCalls.{PendingCallsEnd};
ghost use Rattle.commit_answer_laws.specs.CauseLaws.{CausesEndCommits};
ghost use Rattle.commit_answer_laws.specs.CommitLines.{CommitsAnswerTruly};
ghost use Rattle.commit_obey_laws.specs.ObeyLaws.{EveryDecisionIsObeyed};
ghost use Rattle.node_purge_laws.specs.LeftOutLaws.{EveryPurgeChangesNothing};
ghost use Rattle.view_laws.specs.ReportedViews.{ViewsAreReported};
ghost use Rattle.view_laws.specs.ViewLaws.{ViewsAreOfBranches};
ghost use Rattle.repeat_read_laws.specs.RepeatLaws.{EveryReaderReadsTheSame};
ghost use Rattle.run_undo_laws.specs.UndoRuns.{EveryRunKeepsUndo};
ghost use Rattle.start_laws.specs.StartLaws.{EveryStartRestores};
ghost use Rattle.answer_once_laws.specs.OnceLaws.{EveryCommandIsAnsweredOnce};
ghost use Rattle.world.specs.Ran.{IsRan, as_ending};
ghost use Rattle.script_run.specs.Headline.{IsRun, nothing_done};
ghost use Rattle.script_run.specs.Ending.{status_code};

use answer_done_laws::done_is_reported;
use answer_laws::{every_answer_has_its_place, pending_calls_end};
use answer_once_laws::every_command_is_answered_once;
use book::{AnswerLines, Book, Trace};
use book_laws::every_scn_is_later;
use commit_answer_laws::{causes_end_commits, commits_answer_truly};
use commit_course_laws::quiet_commits_are_complete;
use commit_obey_laws::every_decision_is_obeyed;
use dtx_values::Listing;
use node_purge_laws::every_purge_changes_nothing;
use repeat_read_laws::every_reader_reads_the_same;
use run_cause_laws::every_turn_knows;
use run_ready_laws::the_run_is_lawful;
use run_trace::RunRecord;
use run_undo_laws::every_run_keeps_undo;
use script_read::Commands;
use start_laws::every_start_restores;
use std::alloc::Global;
use tree_cover_laws::every_decision_covers;
use tree_laws::every_book_agrees;
use tree_trail_laws::{every_run_is_meant, every_site_decides};
use view_laws::{views_are_of_branches, views_are_reported};
use world::EndedRun;

/// How a run of the program ends.
#[derive(Clone, Copy, Debug, PartialEq, Eq)]
pub enum Status {
    /// Every command was run, and the report was written.
    Done,
    /// The script has a bad command, and the number of its line was written, and why it is bad.
    BadScript,
    /// The command line has other words than the program's.
    Usage,
    /// Out of memory.
    NoMemory,
    /// The script could not be read.
    ReadFault,
    /// The report could not be written.
    WriteFault,
    /// The script is longer than 1,048,576 bytes.
    TooLong,
}

impl Status {
    /// The exit status of the program.
    pub fn code(self) -> u8
        ensures { result ≡ status_code self }
    {
        match self {
            Status::Done => 0,
            Status::BadScript => 1,
            Status::Usage => 2,
            Status::NoMemory => 3,
            Status::ReadFault => 4,
            Status::WriteFault => 5,
            Status::TooLong => 6,
        }
    }
}

/// What was done.
#[derive(Drop)]
pub struct Run {
    /// The commands of the script.
    pub commands: Commands,
    /// Their answers, in the order of the commands.
    pub answers: AnswerLines,
    /// The book of the redo records that were written.
    pub book: Book,
    /// All that happened, oldest first.
    pub trace: Trace,
}

// What holds of every lawful run, and that the run of a script is one.
fn laws_of_runs()
    ensures lawful { TheRunIsLawful }
    ensures once { EveryCommandIsAnsweredOnce }
    ensures views { ViewsAreOfBranches }
    ensures reported { ViewsAreReported }
    ensures starts { EveryStartRestores }
    ensures undoes { EveryRunKeepsUndo }
    ensures knows { EveryTurnKnows }
    ensures meant { EveryRunIsMeant }
    ensures reads { EveryReaderReadsTheSame }
    ensures comes { EveryAnswerHasItsPlace }
    ensures tells { DoneIsReported }
    ensures ended { PendingCallsEnd }
    ensures caused { CausesEndCommits }
    ensures commits { CommitsAnswerTruly }
    ensures completes { QuietCommitsAreComplete }
    ensures obeys { EveryDecisionIsObeyed }
    ensures purged { EveryPurgeChangesNothing }
    ensures sites { EverySiteDecides }
    ensures covers { EveryDecisionCovers }
    ensures agrees { EveryBookAgrees }
    ensures marked { EveryMixedIsMarked }
    ensures later { EveryScnIsLater }
{
    the_run_is_lawful();
    every_command_is_answered_once();
    views_are_of_branches();
    views_are_reported();
    every_start_restores();
    every_run_keeps_undo();
    every_turn_knows();
    every_run_is_meant();
    every_reader_reads_the_same();
    every_answer_has_its_place();
    done_is_reported();
    pending_calls_end();
    causes_end_commits();
    commits_answer_truly();
    quiet_commits_are_complete();
    every_decision_is_obeyed();
    every_purge_changes_nothing();
    every_site_decides();
    every_decision_covers();
    every_book_agrees();
    every_scn_is_later();
}

impl Run {
    /// A run that has ended, of a script.
    pub fn of(ran: EndedRun) -> Run
        requires script { IsOfAScript ran.recorded.asked }
        requires places { ran.recorded.places ≡ places_of ran.recorded.asked }
        requires ran { IsRan ran }
        ensures commands { result.commands ≡ ran.recorded.asked }
        ensures trace { result.trace ≡ ran.recorded.happenings }
        ensures run { IsRun result (as_ending ran.ended) }
    {
        laws_of_runs();
        let EndedRun {
            recorded,
            answers,
            ended: _ended,
            pending: _pending,
        } = ran;
        let RunRecord {
            places: _places,
            asked,
            happenings,
            book,
        } = recorded;
        Run {
            commands: asked,
            answers,
            book,
            trace: happenings,
        }
    }

    fn nothing(alloc: Global) -> Run
        ensures { result ≡ nothing_done }
    {
        Run {
            commands: Listing::new(alloc),
            answers: Listing::new(alloc),
            book: Listing::new(alloc),
            trace: Listing::new(alloc),
        }
    }

    /// The run in which nothing was done.
    pub fn empty(alloc: Global) -> Run
        ensures empty { result ≡ nothing_done }
        ensures run { IsRun result All_run }
    {
        laws_of_runs();
        Run::nothing(alloc)
    }
}

/// How the program ended, and what it did.
#[derive(Drop)]
pub struct Outcome {
    /// How it ended.
    pub status: Status,
    /// What was done until then.
    pub run: Run,
}
