//! The parts of a script.

/// What a byte of a script stands in.
#[derive(Clone, Copy, Debug, PartialEq, Eq)]
pub enum Part {
    /// Neither of the two others, as where a command begins.
    Plain,
    /// A quoted text, which a quote begins. The next quote ends it.
    Quoted,
    /// A comment, which two dashes begin. The end of the line ends it.
    Comment,
}
