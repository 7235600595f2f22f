//! What the checks of a statement come to.

use dtx_values::{Cells, Refusal};

/// What the checks of a statement come to.
#[derive(Drop)]
pub enum Checked {
    /// The first refusal that applies.
    Refused(Refusal),
    /// Nothing refuses it.
    Passed {
        /// The cells of the row that it inserts. Only an INSERT has some.
        cells: Cells,
    },
}
