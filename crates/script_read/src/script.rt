//! How a script is read.
ghost use Rattle.std.specs.Prelude.{◌≡◌, ℕ, ◌+◌, ◌<◌, ◌≤◌, ◌^◌, List, [], length, OnOk, IfOk, IsErrOf};
ghost use Rattle.dtx_values.specs.Limits.{node_limit, script_limit};
ghost use Rattle.script_read.specs.Asked.{judged as judgement_of, asked_at_end, asked, nothing_before, AsksFor, JudgesOn};
ghost use Rattle.script_read.specs.Parts.{line_ends as line_ends_in};
ghost use Rattle.script_read.specs.declared.command.Command.{Command};
ghost use Rattle.script_read.specs.declared.why.Why.{Why};
ghost use Rattle.script_read.specs.declared.why.ScriptErr.TheVariants.{Bad};
ghost use Rattle.script_read.specs.Reading.{ReadsOn, Refuses};
ghost use Rattle.script_read.specs.Spelled.{IsScript};
ghost use Rattle.script_read.specs.Sound.{IsOfAScript};

use crate::before::Before;
use crate::command::{Command, Commands};
use crate::cut::{cut, first_unclean, is_blank_text, is_clean, line_ends, line_of, said};
use crate::judging::judged;
use crate::reading::Reading;
use crate::why::{ScriptErr, Why};
use dtx_values::Listing;
use std::alloc::Global;

/// The command that stands on this line and those after it.
fn command_on(
    alloc: Global,
    before: &Before,
    line: usize,
    piece: &[u8],
) -> Result<Command, ScriptErr>
    requires room { length before.now.names ≤ node_limit }
    requires short { line + length piece.now < 2 ^ 32 }
    ensures { JudgesOn line piece.now result (judgement_of before.now piece.now) }
{
    match judged(alloc, before, piece)? {
        Ok(command) => Ok(command),
        Err(why) => {
            let text = said(alloc, piece)?;
            let line = line_of(line, &text);
            Err(ScriptErr::Bad { line, why })
        }
    }
}

/// Behind the last `;` stand blanks and comments alone.
#[tactic(auto, unfolding(crate::specs::Asked::asked_at_end))]
fn ended(alloc: Global, line: usize, rest: &[u8]) -> Result<(), ScriptErr>
    requires { line + length rest.now < 2 ^ 32 }
    ensures { AsksFor (λ _. []) result (asked_at_end line rest.now) }
{
    let text = said(alloc, rest)?;
    let line = if is_blank_text(&text) {
        if is_clean(rest) {
            return Ok(());
        }
        first_unclean(line, rest)
    } else {
        line_of(line, &text)
    };
    let why = if is_clean(rest) {
        Why::Unended
    } else {
        Why::Byte
    };
    Err(ScriptErr::Bad { line, why })
}

impl Reading {
    /// Nothing has been read.
    fn new(alloc: Global) -> Reading
        ensures commands { result.commands ≡ [] }
        ensures before { result.before ≡ nothing_before }
        ensures line { result.line ≡ 1 }
    {
        Reading {
            commands: Listing::new(alloc),
            before: Before {
                names: Listing::new(alloc),
                others: false,
            },
            line: 1,
        }
    }

    /// Reads the next command. After an Err the reading is of no use.
    #[tactic(auto, using(crate::proofs::ReadLemmas::reads_on, crate::proofs::ReadLemmas::refused, crate::proofs::RoomLemmas::good_leaves_room))]
    fn take_next(&mut self, alloc: Global, piece: &[u8]) -> Result<(), ScriptErr>
        requires room { length self.old.before.names ≤ node_limit }
        requires short { self.old.line + length piece.now < 2 ^ 32 }
        ensures read { OnOk result (ReadsOn self.old piece.now self.new) }
        ensures room { OnOk result (length self.new.before.names ≤ node_limit) }
        ensures line { OnOk result (self.new.line ≡ self.old.line + line_ends_in piece.now) }
        ensures refused { Refuses self.old piece.now result }
    {
        let command = command_on(alloc, &self.before, self.line, piece)?;
        self.before.take_in(alloc, &command)?;
        self.commands.push(command)?;
        self.line += line_ends(piece);
        Ok(())
    }
}

fn commands_in(alloc: Global, bytes: &[u8]) -> Result<Commands, ScriptErr>
    requires short { length bytes.now ≤ script_limit }
    ensures { AsksFor (λ commands. commands) result (asked bytes.now) }
{
    let mut reading = Reading::new(alloc);
    let mut rest = bytes;
    while let Some((piece, behind)) = cut(rest) {
        reading.take_next(alloc, piece)?;
        rest = behind;
    }
    ended(alloc, reading.line, rest)?;
    Ok(reading.commands)
}

/// What a script asks for: its commands in order, or the line of the first bad one and why it is bad. Fails with NoMemory
/// where memory runs out.
pub fn read_script(alloc: Global, bytes: &[u8]) -> Result<Commands, ScriptErr>
    requires short { length bytes.now ≤ script_limit }
    // Just what is asked for: the commands, or the first bad one's line and reason.
    ensures asked { AsksFor (λ commands. commands) result (asked bytes.now) }
    // The bytes spell the commands that are returned.
    ensures spelled { IfOk result (λ commands. IsScript commands bytes.now) }
    // Bytes with a bad command are no script.
    ensures bad { (line : ℕ) (why : Why) → IsErrOf result (Bad line why) → (commands : List Command) → IsScript commands bytes.now → ⊥ }
    // The nodes are not too many and are all there, and the numbers are in their ranges.
    ensures sound { IfOk result IsOfAScript }
{
    commands_in(alloc, bytes)
}
