//! What a turn of a node writes, says and answers, apart from what the node keeps: the messages and answers of the rules,
//! each as the definition of its name, from what its caller looked up. The turns themselves stand above.
//!
//! A call fails where memory runs out, and for no other reason.
#![tactic(auto)]

mod answers;
mod children;
mod codes;
mod commit;
mod draft;
mod forced;
mod kept;
mod posts;
mod prepare;
mod records;
mod refusals;
mod replying;
mod sending;
mod waiting;

pub use answers::{commit_complete, ended, given_up_answer, no_answer, tran_refusal};
pub use children::{edge_at, peer_of};
pub use codes::{
    BRANCH_GONE, IN_TRAN, IS_READ_ONLY, LINK_USED, NAME_USED, NO_ANSWER, NO_NODE, NO_ROW,
    NO_SAVEPOINT, NO_TABLE, NOT_IN_DOUBT, ONLY_ROLLBACK, SEVERAL_IN_DOUBT, TOO_MANY_LINKS,
    TRAN_COMMITTED, TRAN_IN_DOUBT, TRAN_ROLLED_BACK, TREE_FULL,
};
pub use commit::{passes, to_beyond};
pub use draft::TurnDraft;
pub use forced::branch_to_force;
pub use kept::{on_ask_kept, on_commit_point_kept, on_prepare_kept};
pub use posts::{post, to_each, to_one};
pub use prepare::{abandon_says, drop_says, prepares, to_children};
pub use records::{decided_record, sealed_record};
pub use refusals::{is_read_only, needs_rollback, no_savepoint, nothing_to_purge};
pub use replying::{
    gone_reply, heard_answer, is_gone, opened_says, replies, reply_fields, says_again,
};
pub use sending::stamp;
pub use waiting::waited_link;
