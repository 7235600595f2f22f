//! What holds of all texts. These functions do nothing: their contracts are the theorems.
ghost use Rattle.std.specs.Prelude.{◌≡◌, ℕ, List, map};
ghost use Rattle.token_grammar.specs.declared.token.Token.{Token};
ghost use Rattle.token_grammar.specs.Tokens as spec;
ghost use Rattle.token_grammar.specs.Printing.{Printed, IsReadable, shown, token_of};

/// No text is two lists of tokens.
pub fn one_list_of_tokens()
    ensures { (text : List ℕ) (a b : List Token) → spec.Tokens a text → spec.Tokens b text → a ≡ b }
{}

/// What is printed of tokens that stand apart is those tokens.
pub fn printed_tokens_are_read()
    ensures { (printed : List Printed) → IsReadable printed → spec.Tokens (map token_of printed) (shown printed) }
{}
