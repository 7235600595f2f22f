//! What a statement came to.
ghost use Rattle.std.specs.Prelude.{◌≡◌};
ghost use Rattle.stmt_store.specs.Stores.{written_unless};

use dtx_values::Answer;
use row_locks::Keys;

/// What an accepted statement wrote.
#[derive(Drop)]
pub struct Written {
    /// How many sets of changes: one, or none.
    pub sets: u32,
    /// The keys.
    pub keys: Keys,
}

/// What a statement came to.
#[derive(Drop)]
pub struct Ran {
    /// What is answered.
    pub answer: Answer,
    /// What it wrote, where it was not refused.
    pub written: Option<Written>,
}

/// What changes of these keys came to, by what is answered to them.
pub(crate) fn ran_by(answer: Answer, keys: Keys) -> Ran
    ensures answer { result.answer ≡ answer }
    ensures written { result.written ≡ written_unless answer keys }
{
    let written = written_by(&answer, keys);
    Ran { answer, written }
}

fn written_by(answer: &Answer, keys: Keys) -> Option<Written>
    ensures { result ≡ written_unless answer.now keys }
{
    match answer {
        Answer::Refused(_) => {
            drop(keys);
            None
        }
        _ => Some(Written { sets: 1, keys }),
    }
}
