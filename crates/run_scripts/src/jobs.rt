//! The list of jobs: the words of a command line and a script each. `specs/Jobs.antt` says its form.
ghost use Rattle.std.specs.Prelude.{◌≡◌, Some, map, IfOk};
ghost use Rattle.std.specs.String.{string_bytes};
ghost use Rattle.byte_format.specs.Several.{times_at};
ghost use Rattle.run_scripts.specs.Jobs.{bytes_format, job_format};
ghost use Rattle.run_scripts.specs.declared.jobs.ListErr.TheVariants.{Bad as IsBad, NoMemory as IsNoMemory, WriteFault as IsWriteFault};

use byte_format::{NoSpelling, take_run_u32, take_u8};
use dtx_ports::Failed;
use std::alloc::{AllocError, AllocFailed, Global};

/// Why a list was not run to its end.
#[derive(Clone, Copy, Debug, PartialEq, Eq)]
pub enum ListErr {
    /// It has not the form of a list, or a word is not UTF-8.
    Bad,
    /// Out of memory.
    NoMemory,
    /// A result could not be written.
    WriteFault,
}

impl ListErr {
    /// The exit status of the program.
    pub fn code(self) -> u8 {
        match self {
            ListErr::Bad => 1,
            ListErr::NoMemory => 3,
            ListErr::WriteFault => 5,
        }
    }
}

impl From<NoSpelling> for ListErr {
    ghost from_gives = { λ _ e. e ≡ IsBad };

    fn from(_: NoSpelling) -> ListErr {
        ListErr::Bad
    }
}

impl From<AllocError> for ListErr {
    ghost from_gives = { λ _ e. e ≡ IsNoMemory };

    fn from(_: AllocError) -> ListErr {
        ListErr::NoMemory
    }
}

impl<T: Drop> From<AllocFailed<T>> for ListErr {
    ghost from_gives = { λ _ e. e ≡ IsNoMemory };

    fn from(_: AllocFailed<T>) -> ListErr {
        ListErr::NoMemory
    }
}

impl From<Failed> for ListErr {
    ghost from_gives = { λ _ e. e ≡ IsWriteFault };

    fn from(_: Failed) -> ListErr {
        ListErr::WriteFault
    }
}

/// The words of a command line, and a script.
#[derive(Drop)]
pub struct Job {
    /// The words of the command line after the program's name.
    pub words: Vec<String>,
    /// The bytes of the script.
    pub script: Vec<u8>,
}

/// The word at the front, and the bytes after it.
fn take_word(alloc: Global, list: &[u8]) -> Result<(String, &[u8]), ListErr>
    ensures { IfOk result (λ x. bytes_format.read list.now ≡ Some (string_bytes x.0, x.1.now)) }
{
    let (bytes, rest) = take_run_u32(list)?;
    match std::str::from_utf8(bytes) {
        Ok(word) => Ok((String::from_str(alloc, word)?, rest)),
        Err(_) => Err(ListErr::Bad),
    }
}

/// So many words, one after the other, and the bytes after them.
fn take_words(alloc: Global, count: u8, list: &[u8]) -> Result<(Vec<String>, &[u8]), ListErr>
    ensures { IfOk result (λ x. times_at count bytes_format.read list.now ≡ Some (map string_bytes x.0.items, x.1.now)) }
{
    let mut words = Vec::new(alloc);
    let mut rest = list;
    for _ in 0..count {
        let (word, after) = take_word(alloc, rest)?;
        words.push(word)?;
        rest = after;
    }
    Ok((words, rest))
}

/// The job at the front, and the bytes after it.
pub fn take_job(alloc: Global, list: &[u8]) -> Result<(Job, &[u8]), ListErr>
    ensures { IfOk result (λ x. job_format.read list.now ≡ Some ((map string_bytes x.0.words.items, x.0.script.items), x.1.now)) }
{
    let (count, rest) = take_u8(list)?;
    let (words, rest) = take_words(alloc, count, rest)?;
    let (script, rest) = take_run_u32(rest)?;
    let script = script.to_vec(alloc)?;
    Ok((Job { words, script }, rest))
}
