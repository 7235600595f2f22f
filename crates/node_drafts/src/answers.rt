//! What clients are answered.
ghost use Rattle.std.specs.Prelude.{◌≡◌, [], ◌∷◌, IfOk};
ghost use Rattle.std.specs.Option.{option_copied};
ghost use Rattle.sql_check.specs.Refusals.{dtx};
ghost use Rattle.sql_check.specs.Words.{one};
ghost use Rattle.dtx_values.specs.declared.answer.Answer.TheVariants.{Refused};
ghost use Rattle.node_rules.specs.Sessions.{commit_complete as commit_complete_of, tran_refusal as tran_refusal_of};
ghost use Rattle.node_rules.specs.Client.{given_up_code as given_up_code_of};

use crate::codes::{TRAN_COMMITTED, TRAN_IN_DOUBT};
use crate::refusals::{of_branch, unanswered};
use commit_forget::knows_commit;
use dtx_values::{Answer, Done, Listing};
use node_rules::{Ended, Finished};
use redo_record::{Decision, KeptRow};
use std::alloc::{AllocError, Global};
use tran_ids::BranchId;

/// The end of one call of a session. Fails where memory runs out.
pub fn ended(alloc: Global, session: u32, answer: Answer) -> Result<Ended, AllocError>
    ensures { IfOk result (λ calls. calls ≡ (record { session = session; answer = answer }) ∷ []) }
{
    Ok(Listing::of(vec![in alloc; Finished { session, answer }]?))
}

/// Commit complete.
pub fn commit_complete() -> Answer
    ensures { result ≡ commit_complete_of }
{
    Answer::Did(Done::Committed, 0)
}

/// A refusal of a COMMIT, which names its root. Fails where memory runs out.
pub fn tran_refusal(alloc: Global, code: u16, root: BranchId) -> Result<Answer, AllocError>
    ensures { IfOk result (λ answer. answer ≡ tran_refusal_of code root) }
{
    Ok(Answer::Refused(of_branch(alloc, code, root)?))
}

/// The code of the answer to a COMMIT that is given up at a root that is not live, by the root's row: ORA-02053 where the
/// root knows the commit, else ORA-02054.
fn given_up_code(row: Option<&KeptRow>) -> u16
    ensures { result ≡ given_up_code_of (option_copied row.entry) }
{
    match row {
        None => TRAN_IN_DOUBT,
        Some(row) => {
            if knows_commit(row.decision) {
                TRAN_COMMITTED
            } else {
                TRAN_IN_DOUBT
            }
        }
    }
}

/// The answer to a COMMIT that is given up at a root that is not live. Fails where memory runs out.
pub fn given_up_answer(
    alloc: Global,
    root: BranchId,
    row: Option<&KeptRow>,
) -> Result<Answer, AllocError>
    ensures { IfOk result (λ answer. answer ≡ tran_refusal_of (given_up_code_of (option_copied row.entry)) root) }
{
    tran_refusal(alloc, given_up_code(row), root)
}

/// The answer to a statement that is given up: DTX-03 with the link that it waits for. Fails where memory runs out.
pub fn no_answer(alloc: Global, link: &[u8]) -> Result<Answer, AllocError>
    ensures { IfOk result (λ answer. answer ≡ Refused (dtx 3 (one link.now))) }
{
    Ok(Answer::Refused(unanswered(alloc, link)?))
}
