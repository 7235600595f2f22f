//! What has come before a command.

use dtx_values::Names;

/// The nodes so far, and whether a command has come that makes none.
#[derive(Drop)]
pub struct Before {
    pub names: Names,
    pub others: bool,
}
