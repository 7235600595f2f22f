//! Texts, as cells hold them.
ghost use Rattle.std.specs.Prelude.{◌≡◌, ◌↔◌, ◌<◌, ◌≤◌, [], length, true, false, nat_eq, is_some, IfOk, IfSome, IsErrOf};
ghost use Rattle.std.specs.Str.{is_utf8};
ghost use Rattle.std.specs.Ordering.{nat_cmp, as_partial_cmp};
ghost use Rattle.std.specs.Hash as fed;
ghost use Rattle.std.specs.Cmp.Lexicographic.{pointwise, slice_cmp, nat_list_eq_equiv, nat_list_cmp_total, texts_ties, texts_po};
ghost use Rattle.std.specs.Cmp.{partial_equiv_from_equiv};
ghost use Rattle.std.specs.Cmp.Rules.{hashing};
ghost use Rattle.std.proofs.Common.{rules, refl};
ghost use Rattle.dtx_values.specs.Limits.{text_limit};
ghost use Rattle.dtx_values.specs.Str.{is_text};
ghost use Rattle.dtx_values.specs.declared.text_err.TextErr.TheVariants.{Empty, TooLong, NotUtf8};

use crate::limits::TEXT_LIMIT;
use crate::{Duplicate, TextErr};
use std::alloc::{AllocError, Global};
use std::cmp::Ordering;
use std::hash::{Hash, Hasher};
use std::marker::Model;

/// A text of UTF-8, of 1 to 2,000 bytes. Texts are compared by their bytes.
#[derive(Drop)]
pub struct Str {
    text: String,
}

impl Model for Str {
    ghost use Rattle.std.specs.Prelude.{◌≡◌, List, ℕ, true};
    ghost use Rattle.std.specs.String.{string_bytes};
    ghost use Rattle.dtx_values.specs.Str.{is_text};

    ghost Value = { List ℕ };

    ghost view = { λ s. string_bytes s.text };

    ghost invariant = { λ s. is_text (string_bytes s.text) ≡ true };
}

impl Str {
    /// The text of these bytes.
    pub fn from_bytes(alloc: Global, bytes: &[u8]) -> Result<Str, TextErr>
        ensures text { IfOk result (λ text. (is_text bytes.now ≡ true) × (text ≡ bytes.now)) }
        ensures empty { IsErrOf result Empty ↔ (bytes.now ≡ []) }
        ensures too_long { IsErrOf result TooLong ↔ (text_limit < length bytes.now) }

        // Bytes of a length that will not do are not said to be no UTF-8.
        ensures not_utf8 { IsErrOf result NotUtf8
            ↔ ((0 < length bytes.now) × (length bytes.now ≤ text_limit) × (is_utf8 bytes.now ≡ false)) }
    {
        if bytes.is_empty() {
            return Err(TextErr::Empty);
        }
        if bytes.len() > TEXT_LIMIT {
            return Err(TextErr::TooLong);
        }
        let text = utf8_of(bytes).ok_or(TextErr::NotUtf8)?;
        Ok(Str {
            text: String::from_str(alloc, text)?,
        })
    }

    /// The text.
    pub fn as_str(&self) -> &str
        ensures bytes { result.now ≡ self.now }
        ensures text { is_text self.now ≡ true }
    {
        self.text.as_str()
    }

    /// The text's bytes.
    pub fn as_bytes(&self) -> &[u8]
        ensures bytes { result.now ≡ self.now }
        ensures text { is_text self.now ≡ true }
    {
        self.as_str().as_bytes()
    }
}

fn utf8_of(bytes: &[u8]) -> Option<&str>
    ensures text { IfSome result (λ text. text.now ≡ bytes.now) }
    ensures utf8 { is_some result ≡ is_utf8 bytes.now }
{
    std::str::from_utf8(bytes).ok()
}

impl PartialEq for Str {
    ghost eq = { pointwise nat_eq };

    ghost laws = { partial_equiv_from_equiv nat_list_eq_equiv };

    fn eq(&self, other: &Str) -> bool {
        self.as_bytes() == other.as_bytes()
    }
}

impl Eq for Str {
    ghost laws = { nat_list_eq_equiv };
}

impl PartialOrd for Str {
    ghost partial_cmp = { as_partial_cmp (slice_cmp nat_cmp) };

    ghost laws = { texts_po };

    fn partial_cmp(&self, other: &Str) -> Option<Ordering> {
        Some(self.cmp(other))
    }
}

impl Ord for Str {
    ghost cmp = { slice_cmp nat_cmp };

    ghost total = { nat_list_cmp_total };

    ghost matches_partial_cmp = { λ x y. refl };

    ghost matches_eq = { texts_ties };

    fn cmp(&self, other: &Str) -> Ordering {
        self.as_bytes().cmp(other.as_bytes())
    }
}

impl Hash for Str {
    ghost hash_input = { fed.slice fed.u8 };

    ghost respects_eq = { Prim.search (hashing, rules) };

    fn hash<H: Hasher>(&self, state: &mut H) {
        self.as_bytes().hash(state);
    }
}

impl Duplicate for Str {
    fn copy(&self, alloc: Global) -> Result<Str, AllocError> {
        Ok(Str {
            text: String::from_str(alloc, self.as_str())?,
        })
    }
}
