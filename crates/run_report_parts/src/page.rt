//! The lines of the command that runs.
ghost use Rattle.std.specs.Prelude.{◌≡◌, ◌≤◌, ◌∷◌, ◌++◌, [], map, length, IfOk, OnErr, OnOk};
ghost use Rattle.std.specs.List.{insert, position_or_len};
ghost use Rattle.std.specs.Prelude.{nat_lt};
ghost use Rattle.run_rules.specs.Lines.{line as line_of, put_line};
ghost use Rattle.run_rules.specs.Commands.{page_of};
ghost use Rattle.run_report_parts.specs.Lines.{page_by};

use book::{AnswerLine, Said};
use std::alloc::{AllocError, Global};
use std::marker::Model;

/// The lines of the command that runs.
#[derive(Drop)]
pub struct CommandOutput {
    // Its own.
    own: Vec<Said>,
    // The answers of earlier calls that it ended, in order of command.
    others: Vec<AnswerLine>,
    // The nodes that stopped.
    stops: Vec<Said>,
}

impl Model for CommandOutput {
    ghost use Rattle.run_rules.specs.RunReport.{CommandOutput as PageByRules};

    ghost Value = { PageByRules };

    ghost view = { λ p. record { own = p.own.items; others = p.others.items; stops = p.stops.items } };
}

impl CommandOutput {
    /// A page with these lines of the command's own.
    pub fn of(alloc: Global, own: Vec<Said>) -> CommandOutput
        ensures { result ≡ page_of own.items }
    {
        CommandOutput {
            own,
            others: Vec::new(alloc),
            stops: Vec::new(alloc),
        }
    }

    /// One more line of the command's own. Fails where memory runs out.
    pub fn say(&mut self, said: Said) -> Result<(), AllocError>
        ensures { OnOk result (self.new ≡ record self.old { own = self.old.own ++ said ∷ [] }) }
    {
        self.own.push(said)?;
        Ok(())
    }

    /// This is the one line of the command's own. Fails where memory runs out.
    pub fn say_alone(&mut self, alloc: Global, said: Said) -> Result<(), AllocError>
        ensures { OnOk result (self.new ≡ record self.old { own = said ∷ [] }) }
    {
        self.own = vec![in alloc; said]?;
        Ok(())
    }

    /// The answer of an earlier call, among the others by its number. Fails where memory runs out.
    pub fn put(&mut self, line: AnswerLine) -> Result<(), AllocError>
        ensures { OnOk result (self.new ≡ record self.old { others = put_line self.old.others line }) }
    {
        put(&mut self.others, line)
    }

    /// A node stopped. Fails where memory runs out.
    pub fn add_stop(&mut self, said: Said) -> Result<(), AllocError>
        ensures { OnOk result (self.new ≡ record self.old { stops = self.old.stops ++ said ∷ [] }) }
    {
        self.stops.push(said)?;
        Ok(())
    }

    /// Adds its lines, as those of the command of the number `running`, to the lines of the commands before, and then
    /// `over`. Fails where memory runs out, and then adds nothing.
    pub fn tell(
        self,
        alloc: Global,
        lines: &mut Vec<AnswerLine>,
        running: u32,
        over: Vec<Said>,
    ) -> Result<(), AllocError>
        ensures ok { OnOk result (lines.new.items ≡ lines.old.items ++ page_by running self over.items) }
        ensures err { OnErr result (lines.new.items ≡ lines.old.items) }
    {
        let mut more = self.into_lines(alloc, running, over)?;
        lines.append(&mut more)
    }

    fn into_lines(
        self,
        alloc: Global,
        running: u32,
        over: Vec<Said>,
    ) -> Result<Vec<AnswerLine>, AllocError>
        ensures { IfOk result (λ lines. lines.items ≡ page_by running self over.items) }
    {
        let mut lines = Vec::new(alloc);
        add_own(&mut lines, running, self.own)?;
        add_all(&mut lines, self.others)?;
        add_own(&mut lines, running, self.stops)?;
        add_own(&mut lines, running, over)?;
        Ok(lines)
    }
}

fn add_own(lines: &mut Vec<AnswerLine>, command: u32, own: Vec<Said>) -> Result<(), AllocError>
    ensures { OnOk result (lines.new.items ≡ lines.old.items ++ map (line_of command) own.items) }
{
    for said in own {
        lines.push(AnswerLine { command, said })?;
    }
    Ok(())
}

fn add_all(lines: &mut Vec<AnswerLine>, more: Vec<AnswerLine>) -> Result<(), AllocError>
    ensures { OnOk result (lines.new.items ≡ lines.old.items ++ more.items) }
{
    for line in more {
        lines.push(line)?;
    }
    Ok(())
}

// In front of the first line of a later command.
fn place_of(lines: &[AnswerLine], command: u32) -> usize
    ensures first { result ≡ position_or_len (λ x. nat_lt command x.command) lines.now }
    ensures within { result ≤ length lines.now }
{
    for (place, line) in lines.iter().enumerate() {
        if command < line.command {
            return place;
        }
    }
    lines.len()
}

fn place_for(lines: &[AnswerLine], line: &AnswerLine) -> usize
    ensures added { insert lines.now result line.now ≡ put_line lines.now line.now }
    ensures within { result ≤ length lines.now }
{
    place_of(lines, line.command)
}

fn put(lines: &mut Vec<AnswerLine>, line: AnswerLine) -> Result<(), AllocError>
    ensures { OnOk result (lines.new.items ≡ put_line lines.old.items line) }
{
    let place = place_for(lines, &line);
    lines.insert(place, line)?;
    Ok(())
}
