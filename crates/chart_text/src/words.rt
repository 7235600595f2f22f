//! The words of a picture: its title, and what stands beside its marks.
ghost use Rattle.std.specs.Prelude.{◌≡◌, ◌++◌, OnOk};
ghost use Rattle.chart_text.specs.Words.{title_words as title_start, window_text, message_text, note_kind_words as words_of, note_kind_number as number_of, number_text, parting_text};

use crate::window::Window;
use chart_marks::{NoteKind, Parting};
use dtx_values::Name;
use std::alloc::AllocError;
use tran_ids::{node_name, put_decimal};
use wire_msg::KindName;

#[tactic(auto, unfolding(crate::specs::Words::title_words))]
fn title_words() -> &'static [u8]
    ensures { result.now ≡ title_start }
{
    b"A run of dtx: commands "
}

/// Adds which commands are drawn.
#[tactic(auto, unfolding(crate::specs::Words::window_text))]
pub(crate) fn put_window(out: &mut Vec<u8>, window: Window) -> Result<(), AllocError>
    ensures { OnOk result (out.new.items ≡ out.old.items ++ window_text window) }
{
    out.extend_from_slice(title_words())?;
    put_decimal(out, u64::from(window.first))?;
    out.extend_from_slice(b" to ")?;
    put_decimal(out, u64::from(window.last))?;
    out.extend_from_slice(b" of ")?;
    put_decimal(out, window.count)
}

/// Adds a message, by its number and its kind.
pub(crate) fn put_message(out: &mut Vec<u8>, number: u64, kind: KindName) -> Result<(), AllocError>
    ensures { OnOk result (out.new.items ≡ out.old.items ++ message_text number kind) }
{
    out.extend_from_slice(b"#")?;
    put_decimal(out, number)?;
    out.extend_from_slice(b" ")?;
    out.extend_from_slice(kind.text())
}

fn note_kind_words(note_kind: NoteKind) -> &'static [u8]
    ensures { result.now ≡ words_of note_kind }
{
    match note_kind {
        NoteKind::Call(_) => b"call, session ",
        NoteKind::GiveUp(_) => b"given up, session ",
        NoteKind::Reco => b"RECO",
        NoteKind::Prepared => b"prepared",
        NoteKind::Decided(_) => b"decides: commit, SCN ",
        NoteKind::Committed(_) => b"committed, SCN ",
        NoteKind::RolledBack => b"rolled back",
        NoteKind::ForcedCommit(_) => b"forced commit, SCN ",
        NoteKind::ForcedRollback => b"forced rollback",
        NoteKind::Met => b"decision as forced",
        NoteKind::MetMixed => b"decision differs: MIXED",
        NoteKind::Forgotten => b"forgotten",
        NoteKind::Purged => b"purged",
        NoteKind::Stopped => b"node stops",
        NoteKind::Started(_) => b"node starts, boot ",
    }
}

fn note_kind_number(note_kind: NoteKind) -> Option<u64>
    ensures { result ≡ number_of note_kind }
{
    match note_kind {
        NoteKind::Call(session) => Some(u64::from(session)),
        NoteKind::GiveUp(session) => Some(u64::from(session)),
        NoteKind::Decided(scn) => Some(scn),
        NoteKind::Committed(scn) => Some(scn),
        NoteKind::ForcedCommit(scn) => Some(scn),
        NoteKind::Started(boot) => Some(u64::from(boot)),
        NoteKind::Reco => None,
        NoteKind::Prepared => None,
        NoteKind::RolledBack => None,
        NoteKind::ForcedRollback => None,
        NoteKind::Met => None,
        NoteKind::MetMixed => None,
        NoteKind::Forgotten => None,
        NoteKind::Purged => None,
        NoteKind::Stopped => None,
    }
}

fn put_number(out: &mut Vec<u8>, number: Option<u64>) -> Result<(), AllocError>
    ensures { OnOk result (out.new.items ≡ out.old.items ++ number_text number) }
{
    match number {
        None => Ok(()),
        Some(number) => put_decimal(out, number),
    }
}

/// Adds what a node did or met.
pub(crate) fn put_note_kind(out: &mut Vec<u8>, note_kind: NoteKind) -> Result<(), AllocError>
    ensures { OnOk result (out.new.items ≡ out.old.items ++ words_of note_kind ++ number_text (number_of note_kind)) }
{
    out.extend_from_slice(note_kind_words(note_kind))?;
    put_number(out, note_kind_number(note_kind))
}

/// Adds a pair that is cut or joined.
pub(crate) fn put_parting(
    out: &mut Vec<u8>,
    names: &[Name],
    parting: &Parting,
) -> Result<(), AllocError>
    ensures { OnOk result (out.new.items ≡ out.old.items ++ parting_text names.now parting.now) }
{
    if parting.joined {
        out.extend_from_slice(b"joined: ")?;
    } else {
        out.extend_from_slice(b"cut: ")?;
    }
    out.extend_from_slice(node_name(names, parting.a))?;
    out.extend_from_slice(b" and ")?;
    out.extend_from_slice(node_name(names, parting.b))
}
