//! How pending calls end.
ghost use Rattle.std.specs.Prelude.{◌≡◌, IfOk};
ghost use Rattle.std.specs.Option.{option_copied};
ghost use Rattle.run_rules.specs.Calls.{is_complete as is_complete_answer};
ghost use Rattle.run_report_parts.specs.declared.ending.Ending.TheVariants.{Ends};
ghost use Rattle.run_report_parts.specs.Endings.{ending_by, ending_of as ending_of_call};

use crate::Call;
use dtx_values::{Answer, Done};
use node_rules::Finished;
use sql_statement::Stmt;
use std::alloc::{AllocError, Global};

/// How a pending call ends.
#[derive(Drop)]
pub enum Ending {
    /// No call was pending.
    NoCall,
    /// The call of this command and session is answered.
    Ends {
        node: u8,
        session: u32,
        command: u32,
    },
    /// It was the COMMIT before a CREATE, and is complete: this call follows.
    Follows(Call),
}

/// Commit complete.
fn is_complete(answer: &Answer) -> bool
    ensures { result ≡ is_complete_answer answer.now }
{
    matches!(answer, Answer::Did(Done::Committed, _))
}

fn ends(call: &Call) -> Ending
    ensures { result ≡ Ends call.now.node call.now.session call.now.command }
{
    Ending::Ends {
        node: call.node,
        session: call.session,
        command: call.command,
    }
}

fn ends_or_follows(
    alloc: Global,
    done: &Finished,
    call: &Call,
    follows: Option<&Stmt>,
) -> Result<Ending, AllocError>
    ensures { IfOk result (λ ending. ending ≡ ending_by done.now call.now (option_copied follows.entry)) }
{
    match follows {
        None => Ok(ends(call)),
        Some(statement) => {
            if is_complete(&done.answer) {
                Ok(Ending::Follows(call.second(alloc, statement)?))
            } else {
                Ok(ends(call))
            }
        }
    }
}

/// How a pending call ends that a node has finished so. Fails where memory runs out.
pub fn ending_of(alloc: Global, done: &Finished, call: Option<&Call>) -> Result<Ending, AllocError>
    ensures { IfOk result (λ ending. ending ≡ ending_of_call done.now (option_copied call.entry)) }
{
    match call {
        None => Ok(Ending::NoCall),
        Some(call) => ends_or_follows(alloc, done, call, call.follows.as_ref()),
    }
}
