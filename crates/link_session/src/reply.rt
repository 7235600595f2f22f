//! What is answered to a call.
ghost use Rattle.std.specs.Prelude.{◌≡◌};

use dtx_values::{Answer, Duplicate};
use std::alloc::{AllocError, Global};

/// What a Reply says beside its call number. A call that comes again is answered with it.
#[derive(Drop)]
pub struct ReplyFields {
    /// The commit point strength that the branch weighs, where there are changes on it or below it.
    pub weight: Option<u8>,
    /// The branches of the subtree.
    pub count: u16,
    /// The answer of the statement.
    pub result: Answer,
}

impl Duplicate for ReplyFields {
    fn copy(&self, alloc: Global) -> Result<ReplyFields, AllocError> {
        let result = self.result.copy(alloc)?;
        Ok(ReplyFields {
            weight: self.weight,
            count: self.count,
            result,
        })
    }
}
