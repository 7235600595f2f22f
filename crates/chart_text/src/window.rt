//! Which commands are drawn.
ghost use Rattle.std.specs.Prelude.{◌≡◌};
ghost use Rattle.std.specs.Option.{option_copied};
ghost use Rattle.tran_ids.specs.Listed.{numbered};
ghost use Rattle.chart_text.specs.Window.{row_at as row_of_command, begins_above as begins_above_row, commands_above as commands_above_row, last_of, between as window_between, window_of, is_in as is_in_window, reaches as reaches_window, till_of, end_row as end_row_of, shows_arrow as is_arrow_shown};

use chart_marks::{Arrow, Band, End, Marks};

/// The commands that are drawn, and their rows.
#[derive(Clone, Copy, Debug)]
pub struct Window {
    /// The first command that is drawn.
    pub first: u32,
    /// The last one.
    pub last: u32,
    /// How many commands there are.
    pub count: u64,
    /// The row in which the first one begins.
    pub top: u32,
    /// The row behind the last one.
    pub bottom: u32,
}

const ROW_LIMIT: u64 = 1_000;

fn band_at(bands: &[Band], command: u64) -> Option<&Band>
    ensures { option_copied result ≡ numbered bands.now command }
{
    bands.get(command.checked_sub(1)? as usize)
}

fn row_at(marks: &Marks, command: u64) -> u32
    ensures { result ≡ row_of_command marks.now command }
{
    match band_at(marks.bands.as_slice(), command) {
        None => marks.rows,
        Some(band) => band.row,
    }
}

fn begins_above(row: u64, band: &Band) -> bool
    ensures { result ≡ begins_above_row row band.now }
{
    u64::from(band.row) < row
}

fn commands_above(bands: &[Band], row: u64) -> u64
    ensures { result ≡ commands_above_row row bands.now }
{
    bands.iter().filter(|band| begins_above(row, *band)).count() as u64
}

fn last(marks: &Marks, first: u32, last: u32) -> u32
    ensures { result ≡ last_of marks.now first last }
{
    let row = u64::from(row_at(marks, u64::from(first))) + ROW_LIMIT;
    u64::from(last).min(commands_above(marks.bands.as_slice(), row)) as u32
}

fn between(marks: &Marks, first: u32, last: u32) -> Window
    ensures { result ≡ window_between marks.now first last }
{
    let top = row_at(marks, u64::from(first));
    let behind = row_at(marks, u64::from(last) + 1);
    Window {
        first,
        last,
        count: marks.bands.as_slice().len() as u64,
        top,
        bottom: top.max(behind),
    }
}

impl Window {
    /// The window of the commands from `first` to `wanted`: of those that begin within the first rows of it.
    pub fn of(marks: &Marks, first: u32, wanted: u32) -> Window
        ensures { result ≡ window_of marks.now first wanted }
    {
        between(marks, first, last(marks, first, wanted))
    }

    /// Whether a row is drawn.
    pub(crate) fn is_in(self, row: u32) -> bool
        ensures { result ≡ is_in_window self row }
    {
        self.top <= row && row < self.bottom
    }

    /// Whether something that goes from a row to a row reaches the window.
    pub(crate) fn reaches(self, from: u32, till: u32) -> bool
        ensures { result ≡ reaches_window self from till }
    {
        from < self.bottom && self.top <= till
    }

    /// Where a stretch ends that may go on to the end of the picture.
    pub(crate) fn till(self, till: Option<u32>) -> u32
        ensures { result ≡ till_of self till }
    {
        match till {
            None => self.bottom,
            Some(row) => row,
        }
    }

    /// Whether an arrow reaches the window.
    pub(crate) fn shows_arrow(self, arrow: &Arrow) -> bool
        ensures { result ≡ is_arrow_shown self arrow.now }
    {
        self.reaches(arrow.sent, end_row(arrow.end))
    }
}

/// The row in which a message ends.
pub(crate) fn end_row(end: End) -> u32
    ensures { result ≡ end_row_of end }
{
    match end {
        End::InFlight(row) => row,
        End::Delivered(row) => row,
        End::Lost(row) => row,
    }
}
