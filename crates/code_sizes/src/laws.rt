//! Laws of the definitions that contracts cite. The function does nothing: it is here for what its contract says, and the lemmas
//! that other crates' proofs cite stand in `specs/Laws`.
ghost use Rattle.std.specs.Prelude.{ℕ, ◌+◌, ◌*◌, ◌≤◌};
ghost use Rattle.word_ops.specs.Stack.{bytes_of_objects};
ghost use Rattle.core_lang.specs.declared.program.CoreFunction.{CoreFunction};
ghost use Rattle.code_sizes.specs.Weights.{weight_of_function};
ghost use Rattle.code_sizes.specs.Sizes.{IsCounted, size_of, jumps, text_words, frame_bytes};

/// The limits on the text and on the frame of a function: they follow from how its acts are counted, where each jump has an
/// argument of a phi for each variable at most, and a function as many phis. The words for which the text leaves room are those
/// before the first function and behind the last one.
pub fn sizes_fit()
    ensures text { (g : CoreFunction) (tokens initialised variables arguments : ℕ) →
        IsCounted g tokens initialised variables → arguments ≤ weight_of_function jumps g * variables →
        text_words g arguments + 4 * (tokens + 1) ≤ 64 * size_of tokens initialised variables }
    ensures frame { (g : CoreFunction) (tokens initialised variables phis most : ℕ) →
        IsCounted g tokens initialised variables → phis ≤ weight_of_function jumps g * variables → most ≤ variables →
        frame_bytes g phis most ≤ 16 * size_of tokens initialised variables + bytes_of_objects g.locals }
{}
