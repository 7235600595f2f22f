//! What nodes did or met, beside their lanes.
ghost use Rattle.std.specs.Prelude.{◌≡◌, ◌++◌, OnOk};
ghost use Rattle.chart_marks.specs.Marks.{note_kind_of_input, note_kind_ended, note_kind_forced, note_kind_of as note_kind_of_record, note_kind_written, side_of, across as across_from, noted, notes_after};

use crate::mark::{Note, NoteKind, Side};
use crate::walk::Marked;
use book::{Happening, Turn};
use redo_record::{Decision, RedoRecord};
use std::alloc::AllocError;
use wire_msg::Input;

fn note_kind_taken(input: &Input) -> Option<NoteKind>
    ensures { result ≡ note_kind_of_input input.now }
{
    match input {
        Input::Call {
            session,
            statement: _statement,
        } => Some(NoteKind::Call(*session)),
        Input::GiveUp { session } => Some(NoteKind::GiveUp(*session)),
        Input::Message(_) => None,
        Input::Reco => Some(NoteKind::Reco),
        Input::Checkpoint => None,
    }
}

fn ended(decision: &Decision) -> NoteKind
    ensures { result ≡ note_kind_ended decision.now }
{
    match decision {
        Decision::Commit(scn) => NoteKind::Committed(*scn),
        Decision::Rollback => NoteKind::RolledBack,
    }
}

fn forced(decision: &Decision) -> NoteKind
    ensures { result ≡ note_kind_forced decision.now }
{
    match decision {
        Decision::Commit(scn) => NoteKind::ForcedCommit(*scn),
        Decision::Rollback => NoteKind::ForcedRollback,
    }
}

fn note_kind_of(item: &RedoRecord) -> Option<NoteKind>
    ensures { result ≡ note_kind_of_record item.now }
{
    match item {
        RedoRecord::Sealed(_) => Some(NoteKind::Prepared),
        RedoRecord::Decided(decided) => Some(NoteKind::Decided(decided.scn)),
        RedoRecord::Ended { me: _me, decision } => Some(ended(decision)),
        RedoRecord::Forced {
            me: _me,
            decision,
            given: _given,
        } => Some(forced(decision)),
        RedoRecord::Met {
            me: _me,
            decision: _decision,
            mixed,
        } => Some(if *mixed {
            NoteKind::MetMixed
        } else {
            NoteKind::Met
        }),
        RedoRecord::Forgot(_) => Some(NoteKind::Forgotten),
        RedoRecord::Hidden(_) => Some(NoteKind::Purged),
        _ => None,
    }
}

fn note_kind_of_written(wrote: &Option<RedoRecord>) -> Option<NoteKind>
    ensures { result ≡ note_kind_written wrote.now }
{
    match wrote {
        None => None,
        Some(item) => note_kind_of(item),
    }
}

fn side(node: u8, input: &Input) -> Side
    ensures { result ≡ side_of node input.now }
{
    match input {
        Input::Message(msg) if node < msg.from.node => Side::Right,
        _ => Side::Left,
    }
}

fn across(side: Side) -> Side
    ensures { result ≡ across_from side }
{
    match side {
        Side::Left => Side::Right,
        Side::Right => Side::Left,
    }
}

fn note(
    notes: &mut Vec<Note>,
    node: u8,
    row: u32,
    side: Side,
    note_kind: Option<NoteKind>,
) -> Result<(), AllocError>
    ensures { OnOk result (notes.new.items ≡ notes.old.items ++ noted node row side note_kind) }
{
    if let Some(note_kind) = note_kind {
        notes.push(Note {
            node,
            row,
            side,
            note_kind,
        })?;
    }
    Ok(())
}

fn turn(notes: &mut Vec<Note>, row: u32, turn: &Turn) -> Result<(), AllocError>
    ensures { OnOk result (notes.new.items ≡ notes.old.items
        ++ noted turn.now.node row (side_of turn.now.node turn.now.input) (note_kind_of_input turn.now.input)
        ++ noted turn.now.node row (across_from (side_of turn.now.node turn.now.input)) (note_kind_written turn.now.wrote)) }
{
    let side = side(turn.node, &turn.input);
    note(notes, turn.node, row, side, note_kind_taken(&turn.input))?;
    note(
        notes,
        turn.node,
        row,
        across(side),
        note_kind_of_written(&turn.wrote),
    )
}

impl Marked for Note {
    ghost after = { notes_after };

    fn add(notes: &mut Vec<Note>, row: u32, happening: &Happening) -> Result<(), AllocError> {
        match happening {
            Happening::Turn(taken) => turn(notes, row, taken),
            Happening::Stopped { node } => {
                note(notes, *node, row, Side::Right, Some(NoteKind::Stopped))
            }
            Happening::Started { node, boot } => {
                note(
                    notes,
                    *node,
                    row,
                    Side::Right,
                    Some(NoteKind::Started(*boot)),
                )
            }
            _ => Ok(()),
        }
    }
}
