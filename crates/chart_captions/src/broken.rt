//! A text that is broken into lines, between its words.
ghost use Rattle.std.specs.Prelude.{◌≡◌, [], IfOk, OnOk};
ghost use Rattle.chart_captions.specs.Lines.{ends_word as byte_ends_word, nothing_broken, with_cut, with_word, with_byte, broken_on};

use dtx_values::{Bytes, Listing};
use std::alloc::{AllocError, Global};
use std::marker::Model;
use std::mem;

/// The most bytes of a line.
const LINE_WIDTH: usize = 58;

fn ends_word(byte: u8) -> bool
    ensures { result ≡ byte_ends_word byte }
{
    matches!(byte, b' ' | b'|')
}

// Breaks a word that no line can hold wherever a line is full. The result is the line that is begun.
fn cut_word(
    lines: &mut Vec<Bytes>,
    alloc: Global,
    line: Vec<u8>,
    word: &[u8],
) -> Result<Vec<u8>, AllocError>
    ensures { IfOk result (λ begun. record { lines = lines.new.items; line = begun.items; word = [] } ≡ with_cut lines.old.items line.items word.now) }
{
    let mut line = line;
    for byte in word {
        if line.len() == LINE_WIDTH {
            lines.push(Listing::of(line))?;
            line = Vec::new(alloc);
        }
        line.push(*byte)?;
    }
    Ok(line)
}

/// A text that is broken so far: the lines that are full, the line that is begun, and the word that is begun. Calls fail
/// where memory runs out.
#[derive(Drop)]
pub(crate) struct Broken {
    lines: Vec<Bytes>,
    line: Vec<u8>,
    word: Vec<u8>,
}

impl Model for Broken {
    ghost use Rattle.chart_captions.specs.Lines.{Broken as BrokenText};

    ghost Value = { BrokenText };

    ghost view = { λ broken. record { lines = broken.lines.items; line = broken.line.items; word = broken.word.items } };
}

impl Broken {
    /// Nothing so far.
    pub(crate) fn new(alloc: Global) -> Broken
        ensures { result ≡ nothing_broken }
    {
        Broken {
            lines: Vec::new(alloc),
            line: Vec::new(alloc),
            word: Vec::new(alloc),
        }
    }

    // Puts the word, which has ended, on its line.
    fn end_word(&mut self, alloc: Global) -> Result<(), AllocError>
        ensures { OnOk result (self.new ≡ with_word self.old.lines self.old.line self.old.word) }
    {
        if self.line.len() + self.word.len() <= LINE_WIDTH {
            return self.line.append(&mut self.word);
        }
        let word = mem::replace(&mut self.word, Vec::new(alloc));
        let line = mem::replace(&mut self.line, Vec::new(alloc));
        if word.len() <= LINE_WIDTH {
            self.lines.push(Listing::of(line))?;
            self.line = word;
        } else {
            self.line = cut_word(&mut self.lines, alloc, line, &word)?;
        }
        Ok(())
    }

    /// One byte more.
    pub(crate) fn put(&mut self, alloc: Global, byte: u8) -> Result<(), AllocError>
        ensures { OnOk result (self.new ≡ with_byte self.old byte) }
    {
        self.word.push(byte)?;
        if ends_word(byte) {
            self.end_word(alloc)?;
        }
        Ok(())
    }

    /// The lines of the text, which ends here.
    pub(crate) fn into_lines(self, alloc: Global) -> Result<Vec<Bytes>, AllocError>
        ensures { IfOk result (λ lines. lines.items ≡ broken_on self []) }
    {
        let mut broken = self;
        broken.end_word(alloc)?;
        let Broken {
            mut lines,
            line,
            word: _word,
        } = broken;
        lines.push(Listing::of(line))?;
        Ok(lines)
    }
}
