//! Forced outcomes and purges: which branch of a node an id names. Whether a forced outcome and the decision differ is
//! told where the decision is met.
//! (Database Administrator's Guide, "Managing Distributed Transactions": manually overriding in-doubt transactions;
//! PL/SQL Packages and Types Reference, DBMS_TRANSACTION.)
#![tactic(auto)]

mod finding;
mod id_names;
mod purge;

pub use finding::find;
pub use id_names::IdNames;
pub use purge::may_purge;
