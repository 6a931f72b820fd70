//! Laws on the definitions of this crate, as contracts of functions that do nothing.
//! So a proof that stands in `proofs/` alone is asked for by the check.

ghost use Rattle.std.specs.Prelude.{Bool};
ghost use Rattle.c_lexer.specs.Fronts.{Text, longest, IsLongest};

/// What the definitions call the longest front of a form is of that form, and no longer front is.
pub fn longest_is_longest()
    ensures { (test : Text → Bool) (bytes : Text) → IsLongest test bytes (longest test bytes) }
{}
