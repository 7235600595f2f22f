//! The laws of formats, each the contract of a function that does nothing: of what is exact, something exact is made.
//!
//! A crate above composes the lemmas of `proofs/` by these names: `pair_exact`, `run_exact`, `counted_exact` and so on.
ghost use Rattle.std.specs.Prelude.{◌≡◌, ℕ, Bool, List, Option, None};
ghost use Rattle.byte_format.specs.Format.{IsExact, HasNoFront, HasOneReading};
ghost use Rattle.byte_format.specs.Number.{number8, number16, number32, number48, number64, signed64, flag, constant};
ghost use Rattle.byte_format.specs.Part.{pair, run, optional, mapped, tested};
ghost use Rattle.byte_format.specs.Several.{counted};
ghost use Rattle.byte_format.specs.Choice.{choice, kind, no_kind, IsVariant};

use crate::Field;

/// No spelling is that of two values, nor does one begin another's; and where nothing is read, no spelling begins.
pub fn has_one_reading<F: Field>()
    requires { IsExact F.format }
    ensures one { HasOneReading F.format }
    ensures refused { (bytes : List ℕ) → F.format.read bytes ≡ None → HasNoFront F.format bytes }
{}

/// Numbers, flags and constants.
pub fn numbers_are_exact()
    ensures one_byte { IsExact number8 }
    ensures two_bytes { IsExact number16 }
    ensures four_bytes { IsExact number32 }
    ensures six_bytes { IsExact number48 }
    ensures eight_bytes { IsExact number64 }
    ensures signed { IsExact signed64 }
    ensures flags { IsExact flag }
    ensures constants { (mark : List ℕ) → IsExact (constant mark) }
{}

/// Runs of bytes after their length.
pub fn runs_are_exact()
    ensures one_byte { IsExact (run number8) }
    ensures two_bytes { IsExact (run number16) }
    ensures four_bytes { IsExact (run number32) }
{}

/// One and then the other.
pub fn pair_is_exact<A: Field, B: Field>()
    requires first { IsExact A.format }
    requires second { IsExact B.format }
    ensures { IsExact (pair A.format B.format) }
{}

/// A list after its count.
pub fn list_is_exact<F: Field>()
    requires { IsExact F.format }
    ensures one_byte { IsExact (counted number8 F.format) }
    ensures four_bytes { IsExact (counted number32 F.format) }
{}

/// A value or none, after a byte that says which.
pub fn option_is_exact<F: Field>()
    requires { IsExact F.format }
    ensures { IsExact (optional F.format) }
{}

/// The values that pass a test.
pub fn tested_is_exact<F: Field>()
    requires { IsExact F.format }
    ensures { (test : F.Value → Bool) → IsExact (tested test F.format) }
{}

/// The same bytes for other values, one for one.
pub fn mapped_is_exact<A: Field, B>()
    requires { IsExact A.format }
    ensures { (to : A.Value → B) (from : B → A.Value) → ((a : A.Value) → from (to a) ≡ a) → ((b : B) → to (from b) ≡ b) →
        IsExact (mapped to from A.format) }
{}

/// A choice between two kinds, by the byte in front. Further kinds are added in the same way.
pub fn choice_is_exact<A: Field, B: Field, V>()
    requires first { IsExact A.format }
    requires second { IsExact B.format }
    ensures { (kind_of : V → ℕ) (m n : ℕ) →
        (make_a : A.Value → V) (a_of : V → Option A.Value) → IsVariant make_a a_of → ((a : A.Value) → kind_of (make_a a) ≡ m) →
        (make_b : B.Value → V) (b_of : V → Option B.Value) → IsVariant make_b b_of → ((b : B.Value) → kind_of (make_b b) ≡ n) →
        IsExact (choice kind_of (kind m make_a a_of A.format (kind n make_b b_of B.format no_kind))) }
{}
