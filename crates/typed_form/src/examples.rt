//! Examples, each computed from the definitions alone. The functions do nothing: each is here for what its contract says.
ghost use Rattle.std.specs.Prelude.{◌≡◌, ℕ, [], ◌∷◌};
ghost use Rattle.c_tree.specs.declared.typed.statement.Label.TheVariants as label;
ghost use Rattle.c_tree.specs.declared.typed.statement.Initial.TheVariants as initial;
ghost use Rattle.c_tree.specs.declared.typed.unit.StaticPart.TheVariants as part;
ghost use Rattle.typed_form.specs.Weights.{acts, jumps, weight_of, weight_of_function};
ghost use Rattle.typed_form.specs.Statements.{AreDifferent, PiecesLie};
ghost use Rattle.typed_form.specs.Units.{PartsLie, IsCounted, HangsTogether};
ghost use Rattle.typed_form.specs.Examples.{small, overlapping, of_no_tokens, both, main_function};

/// A unit that hangs together, with a `switch` and a static object that has a byte and an address in it, and neighbours that do
/// not: parts with a byte in common or past the end, a byte of 300, a string that does not fit, a label twice, a function
/// without tokens.
pub fn units_that_hang_together()
    ensures unit { HangsTogether small }
    ensures parts_apart { PartsLie 0 8 overlapping → ⊥ }
    ensures parts_inside { PartsLie 0 8 (part.Address 6 0 0 ∷ []) → ⊥ }
    ensures bytes_are_small { PartsLie 0 8 (part.Bytes 0 (300 ∷ []) ∷ []) → ⊥ }
    ensures strings_fit { PiecesLie 0 2 (initial.Bytes 0 (97 ∷ 98 ∷ 99 ∷ []) ∷ []) → ⊥ }
    ensures labels_differ { AreDifferent (label.Case 1 ∷ label.Default ∷ label.Case 1 ∷ []) → ⊥ }
    ensures functions_have_tokens { IsCounted of_no_tokens → ⊥ }
{}

/// What `1 && 0` comes to in acts and in jumps, and a function of 29 tokens in acts.
pub fn acts_of_trees()
    ensures both_in_acts { weight_of acts both ≡ 6 }
    ensures both_in_jumps { weight_of jumps both ≡ 4 }
    ensures main_in_acts { weight_of_function acts main_function ≡ 17 }
{}
