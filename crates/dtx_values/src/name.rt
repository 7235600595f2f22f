//! Names of nodes, links, tables and columns.
ghost use Rattle.std.specs.Prelude.{◌≡◌, ◌↔◌, Some, None, nat_eq, IfOk, IsErrOf};
ghost use Rattle.std.specs.Str.{bytes_eq};
ghost use Rattle.std.specs.Ordering.{nat_cmp, as_partial_cmp};
ghost use Rattle.std.specs.Hash as fed;
ghost use Rattle.std.specs.Cmp.Lexicographic.{pointwise, slice_cmp, nat_list_eq_equiv, nat_list_cmp_total, texts_ties, texts_po};
ghost use Rattle.std.specs.Cmp.{partial_equiv_from_equiv};
ghost use Rattle.std.specs.Cmp.Rules.{hashing};
ghost use Rattle.std.proofs.Common.{rules, refl};
ghost use Rattle.dtx_values.specs.Name.{name_of};
ghost use Rattle.dtx_values.specs.declared.name_err.NameErr.TheVariants.{Bad};

use crate::identifier::is_name;
use crate::{Bytes, Duplicate, Listing, NameErr};
use std::alloc::{AllocError, Global};
use std::cmp::Ordering;
use std::hash::{Hash, Hasher};
use std::marker::Model;

/// A name, in upper case: identifiers joined by dots. Names are compared by their bytes.
#[derive(Drop)]
pub struct Name {
    text: Bytes,
}

/// Names in order.
pub type Names = Listing<Name>;

impl Model for Name {
    ghost use Rattle.std.specs.Prelude.{◌≡◌, List, ℕ, Some};
    ghost use Rattle.dtx_values.specs.Name.{name_of};

    ghost Value = { List ℕ };

    ghost view = { λ name. name.text };

    ghost invariant = { λ name. name_of name.text ≡ Some name.text };
}

impl Name {
    /// The name that these bytes spell, in any case of letters.
    pub fn from_bytes(alloc: Global, bytes: &[u8]) -> Result<Name, NameErr>
        ensures name { IfOk result (λ name. name_of bytes.now ≡ Some name) }
        ensures bad { IsErrOf result Bad ↔ (name_of bytes.now ≡ None) }
    {
        if !is_name(bytes) {
            return Err(NameErr::Bad);
        }
        Ok(Name {
            text: Listing::of(bytes.to_ascii_uppercase(alloc)?),
        })
    }

    /// The name's bytes. They spell this name themselves.
    pub fn as_bytes(&self) -> &[u8]
        ensures bytes { result.now ≡ self.now }
        ensures name { name_of self.now ≡ Some self.now }
    {
        self.text.as_slice()
    }

    /// Whether two names are the same.
    pub fn is(&self, other: &Name) -> bool
        ensures { result ≡ bytes_eq self.now other.now }
    {
        self.as_bytes() == other.as_bytes()
    }
}

impl PartialEq for Name {
    ghost eq = { pointwise nat_eq };

    ghost laws = { partial_equiv_from_equiv nat_list_eq_equiv };

    fn eq(&self, other: &Name) -> bool {
        self.is(other)
    }
}

impl Eq for Name {
    ghost laws = { nat_list_eq_equiv };
}

impl PartialOrd for Name {
    ghost partial_cmp = { as_partial_cmp (slice_cmp nat_cmp) };

    ghost laws = { texts_po };

    fn partial_cmp(&self, other: &Name) -> Option<Ordering> {
        Some(self.cmp(other))
    }
}

impl Ord for Name {
    ghost cmp = { slice_cmp nat_cmp };

    ghost total = { nat_list_cmp_total };

    ghost matches_partial_cmp = { λ x y. refl };

    ghost matches_eq = { texts_ties };

    fn cmp(&self, other: &Name) -> Ordering {
        self.as_bytes().cmp(other.as_bytes())
    }
}

impl Hash for Name {
    ghost hash_input = { fed.slice fed.u8 };

    ghost respects_eq = { Prim.search (hashing, rules) };

    fn hash<H: Hasher>(&self, state: &mut H) {
        self.as_bytes().hash(state);
    }
}

impl Duplicate for Name {
    fn copy(&self, alloc: Global) -> Result<Name, AllocError> {
        Ok(Name {
            text: self.text.copy(alloc)?,
        })
    }
}
