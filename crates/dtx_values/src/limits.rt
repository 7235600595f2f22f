//! The limits of everything that a script, a statement, a message or a record may hold.

/// The most bytes of an identifier.
pub const IDENTIFIER_LIMIT: usize = 30;

/// The most bytes of a name, its dots included.
pub const NAME_LIMIT: usize = 128;

/// The most bytes of a text, and of the texts of a column.
pub const TEXT_LIMIT: usize = 2000;

/// The most bytes of a comment.
pub const COMMENT_LIMIT: usize = 255;

/// The most bytes of a transaction id in a statement.
pub const ID_LIMIT: usize = 2000;

/// The most columns of a table.
pub const COLUMN_LIMIT: usize = 32;

/// The most names in the list of a SELECT.
pub const SELECT_LIMIT: usize = 255;

/// The most bytes of the changes of one branch: 8 MiB.
pub const CHANGES_LIMIT: u64 = 8_388_608;

/// The bytes of an undo extent.
pub const EXTENT_SIZE: u64 = 4096;

/// The undo extents of a node where its NODE command names no number.
pub const USUAL_EXTENTS: u32 = 64;

/// The most undo extents of a node.
pub const EXTENTS_LIMIT: u32 = 1024;

/// The greatest commit point strength.
pub const STRENGTH_LIMIT: u8 = 255;

/// The links that a branch may have open where its node's NODE command names no number.
pub const USUAL_LINKS: u32 = 4;

/// The most links that a branch may have open, whatever the NODE command says, and so the most children of a branch.
pub const LINK_LIMIT: u32 = 64;

/// The most branches of a session tree.
pub const BRANCH_LIMIT: usize = 256;

/// The greatest depth of a branch in its session tree, where the root has depth 1.
pub const DEPTH_LIMIT: u8 = 8;

/// The greatest SCN: 2 ^ 48 - 1.
pub const SCN_LIMIT: u64 = (1 << 48) - 1;

/// The sessions of clients at a node, numbered from 1.
pub const SESSION_LIMIT: u32 = 64;

/// The most nodes of a script.
pub const NODE_LIMIT: usize = 16;

/// The most deliveries in the course of one command.
pub const DELIVERY_LIMIT: u32 = 4096;

/// The most bytes of a script: 1 MiB.
pub const SCRIPT_LIMIT: usize = 1_048_576;
