//! The codes of the refusals that a node answers with: ORA codes as they are, and DTX codes from 60,000 on.

/// ORA-00942: the node knows no table of this name.
pub const NO_TABLE: u16 = 942;

/// ORA-00955: a table or a synonym has this name already.
pub const NAME_USED: u16 = 955;

/// ORA-01453: a transaction has begun already.
pub const IN_TRAN: u16 = 1453;

/// ORA-02011: a link has this name already.
pub const LINK_USED: u16 = 2011;

/// ORA-02019: the link leads to no node.
pub const NO_NODE: u16 = 2019;

/// ORA-02020: the branch uses as many links as it may.
pub const TOO_MANY_LINKS: u16 = 2020;

/// ORA-02050: the transaction is rolled back.
pub const TRAN_ROLLED_BACK: u16 = 2050;

/// ORA-02053: the transaction is committed, and not every branch knows it.
pub const TRAN_COMMITTED: u16 = 2053;

/// ORA-02054: the transaction is in doubt.
pub const TRAN_IN_DOUBT: u16 = 2054;

/// ORA-02058: no branch in doubt has this id.
pub const NOT_IN_DOUBT: u16 = 2058;

/// ORA-02067: the transaction can only be rolled back.
pub const ONLY_ROLLBACK: u16 = 2067;

/// DTX-02: the session tree is too deep or too wide.
pub const TREE_FULL: u16 = 60002;

/// DTX-03: no answer came over a link.
pub const NO_ANSWER: u16 = 60003;

/// DTX-06: no row that may be purged has this id.
pub const NO_ROW: u16 = 60006;

/// DTX-07: several branches in doubt have this id.
pub const SEVERAL_IN_DOUBT: u16 = 60007;

/// DTX-08: the branch that a call came to is gone.
pub const BRANCH_GONE: u16 = 60008;

/// DTX-21: the transaction is READ ONLY.
pub const IS_READ_ONLY: u16 = 60021;

/// DTX-22: the transaction has no savepoint of this name.
pub const NO_SAVEPOINT: u16 = 60022;
