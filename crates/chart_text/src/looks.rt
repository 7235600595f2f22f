//! How shapes look: the attributes of SVG for each kind.
ghost use Rattle.std.specs.Prelude.{◌≡◌};
ghost use Rattle.chart_text.specs.Looks.{line_look as look_of_line, bar_look as look_of_bar, sign_look as look_of_sign, anchor as anchor_of, bold_anchor as bold_anchor_of, text_look as look_of_text, is_crossed as is_text_crossed};

use crate::shape::{BarKind, LineKind, TextKind};
use chart_marks::{NoteKind, Side};

/// How a line looks.
pub(crate) fn line_look(kind: LineKind) -> &'static [u8]
    ensures { result.now ≡ look_of_line kind }
{
    match kind {
        LineKind::Lane => b"stroke=\"#000000\" stroke-width=\"1\"",
        LineKind::Command => b"stroke=\"#bbbbbb\"",
        LineKind::Delivered => {
            b"stroke=\"#0072b2\" stroke-width=\"1.5\" marker-end=\"url(#head)\""
        }
        LineKind::Lost => b"stroke=\"#d55e00\" stroke-width=\"1.5\" marker-end=\"url(#cross)\"",
        LineKind::InFlight => b"stroke=\"#0072b2\" stroke-width=\"1.5\" marker-end=\"url(#open)\"",
        LineKind::Repeat => {
            b"stroke=\"#0072b2\" stroke-width=\"1.5\" stroke-dasharray=\"5 3\" marker-end=\"url(#head)\""
        }
        LineKind::Cut => b"stroke=\"#d55e00\" stroke-width=\"2\" stroke-dasharray=\"3 5\"",
        LineKind::Joined => b"stroke=\"#555555\" stroke-width=\"2\"",
    }
}

/// How a bar looks.
pub(crate) fn bar_look(kind: BarKind) -> &'static [u8]
    ensures { result.now ≡ look_of_bar kind }
{
    match kind {
        BarKind::Doubt => b"fill=\"#e69f00\" fill-opacity=\"0.6\"",
        BarKind::Outage => b"fill=\"#ffffff\" stroke=\"#555555\" stroke-dasharray=\"2 3\"",
    }
}

/// How the sign looks of what a node did or met.
pub(crate) fn sign_look(note_kind: NoteKind) -> &'static [u8]
    ensures { result.now ≡ look_of_sign note_kind }
{
    match note_kind {
        NoteKind::Call(_) => b"d=\"M-10 -4L-3 0L-10 4Z\" fill=\"#555555\"",
        NoteKind::GiveUp(_) => b"d=\"M-10 -4L-3 0L-10 4Z\" fill=\"#ffffff\" stroke=\"#555555\"",
        NoteKind::Reco => b"d=\"M-10 -4L-3 0L-10 4Z\" fill=\"#56b4e9\" stroke=\"#000000\"",
        NoteKind::Prepared => b"d=\"M-5 -5H5V5H-5Z\" fill=\"#e69f00\" stroke=\"#000000\"",
        NoteKind::Decided(_) => b"d=\"M0 -9L9 0L0 9L-9 0Z\" fill=\"#0072b2\" stroke=\"#000000\"",
        NoteKind::Committed(_) => {
            b"d=\"M-5 0A5 5 0 1 0 5 0A5 5 0 1 0 -5 0Z\" fill=\"#0072b2\" stroke=\"#000000\""
        }
        NoteKind::RolledBack => {
            b"d=\"M-5 0A5 5 0 1 0 5 0A5 5 0 1 0 -5 0Z\" fill=\"#ffffff\" stroke=\"#000000\""
        }
        NoteKind::ForcedCommit(_) => b"d=\"M0 -7L7 5L-7 5Z\" fill=\"#0072b2\" stroke=\"#000000\"",
        NoteKind::ForcedRollback => b"d=\"M0 -7L7 5L-7 5Z\" fill=\"#ffffff\" stroke=\"#000000\"",
        NoteKind::Met => b"d=\"M-5 -5H5V5H-5Z\" fill=\"#ffffff\" stroke=\"#000000\"",
        NoteKind::MetMixed => b"d=\"M-6 -6L6 6M-6 6L6 -6\" stroke=\"#d55e00\" stroke-width=\"3\"",
        NoteKind::Forgotten => b"d=\"M-3 0A3 3 0 1 0 3 0A3 3 0 1 0 -3 0Z\" fill=\"#555555\"",
        NoteKind::Purged => {
            b"d=\"M-3 0A3 3 0 1 0 3 0A3 3 0 1 0 -3 0Z\" fill=\"#ffffff\" stroke=\"#555555\""
        }
        NoteKind::Stopped => b"d=\"M-10 0H10\" stroke=\"#000000\" stroke-width=\"4\"",
        NoteKind::Started(_) => b"d=\"M-7 -5H7L0 6Z\" fill=\"#000000\"",
    }
}

fn anchor(side: Side) -> &'static [u8]
    ensures { result.now ≡ anchor_of side }
{
    match side {
        Side::Left => b"text-anchor=\"end\"",
        Side::Right => b"text-anchor=\"start\"",
    }
}

fn bold_anchor(side: Side) -> &'static [u8]
    ensures { result.now ≡ bold_anchor_of side }
{
    match side {
        Side::Left => b"text-anchor=\"end\" font-weight=\"bold\"",
        Side::Right => b"text-anchor=\"start\" font-weight=\"bold\"",
    }
}

/// How large a text is, and where its point is.
pub(crate) fn text_look(kind: TextKind) -> &'static [u8]
    ensures { result.now ≡ look_of_text kind }
{
    match kind {
        TextKind::Title => b"font-size=\"14\" font-weight=\"bold\"",
        TextKind::Meaning => b"text-anchor=\"start\"",
        TextKind::Node => b"text-anchor=\"middle\" font-weight=\"bold\" font-size=\"12\"",
        TextKind::Number => b"font-weight=\"bold\"",
        TextKind::Message(side) => anchor(side),
        TextKind::NoteKind(side) => bold_anchor(side),
    }
}

/// Whether lines may cross a text.
pub(crate) fn is_crossed(kind: TextKind) -> bool
    ensures { result ≡ is_text_crossed kind }
{
    match kind {
        TextKind::Title => false,
        TextKind::Meaning => false,
        TextKind::Node => false,
        TextKind::Number => false,
        TextKind::Message(_) => true,
        TextKind::NoteKind(_) => true,
    }
}
