//! Marks: what stands between words.
ghost use Rattle.std.specs.Prelude.{◌≡◌};
ghost use Rattle.token_grammar.specs.Marks.{is_same};

/// A mark of one byte or two, with no blank inside.
#[derive(Clone, Copy, Debug, PartialEq, Eq)]
pub enum Mark {
    /// `(`
    Open,
    /// `)`
    Close,
    /// `,`
    Comma,
    /// `*`
    Star,
    /// `@`
    At,
    /// `+`
    Plus,
    /// `-`
    Minus,
    /// `=`
    Equal,
    /// `<>`, also written `!=`
    Unequal,
    /// `<`
    Below,
    /// `<=`
    AtMost,
    /// `>`
    Above,
    /// `>=`
    AtLeast,
    /// `:`
    Colon,
}

impl Mark {
    /// Whether two marks are the same.
    pub fn is(self, other: Mark) -> bool
        ensures { result ≡ is_same self other }
    {
        self as u8 == other as u8
    }
}
