//! Laws of the definitions. The functions do nothing: each is here for what its contract says.

ghost use Rattle.std.specs.Prelude.{◌≡◌, ◌<◌, ◌≤◌, ◌+◌, ◌-◌, ◌%◌, ◌^◌, ◌∷◌, ◌++◌, [], ℕ, List, true, slice_get, slice_set, Some, None};
ghost use Rattle.c_tree.specs.declared.typed.types.CType.{CType};
ghost use Rattle.c_layout.specs.declared.tags.StructLayout.{StructLayout};
ghost use Rattle.c_layout.specs.Tags.{Structs, are_aligned};
ghost use Rattle.c_layout.specs.Sizes.{is_complete};
ghost use Rattle.c_layout.specs.Structures.{Declared, layout, next_multiple};
ghost use Rattle.c_tree.specs.declared.typed.expression.TExpr.{TExpr};
ghost use Rattle.c_tree.specs.declared.typed.expression.TExpr.TheVariants as x;
ghost use Rattle.c_tree.specs.declared.typed.expression.Step.{Step};
ghost use Rattle.c_layout.specs.Constants.{constant_of, constant_after};
ghost use Rattle.c_layout.specs.Laws.{LieBetween, KeepsLayouts, Measures};

/// The next multiple of an alignment is the least one that is not below.
pub fn next_multiple_is_the_least()
    ensures multiple { (n a : ℕ) → 0 < a → next_multiple n a % a ≡ 0 }
    ensures above { (n a : ℕ) → n ≤ next_multiple n a }
    ensures least { (n a : ℕ) → 0 < a → next_multiple n a < n + a }
{}

/// Where 64 bits hold the size of a structure, its members lie in it one behind another, each at a multiple of
/// its alignment, and the size is a multiple of the alignment, so that elements of an array are aligned
/// (C11 6.7.2.1p15, p17, 6.2.8p1).
pub fn members_lie_in_their_structure()
    ensures members { (tags : Structs) (ms : List Declared) → are_aligned tags ≡ true →
        (layout tags ms).size < 2 ^ 64 - 1 →
        LieBetween tags 0 (layout tags ms).size (layout tags ms).members }
    ensures size { (tags : Structs) (ms : List Declared) → are_aligned tags ≡ true →
        (layout tags ms).size < 2 ^ 64 - 1 →
        (layout tags ms).size % (layout tags ms).alignment ≡ 0 }
{}

/// A type that is complete keeps its size and its alignment, whatever structures are declared and completed
/// after (C11 6.2.5p22, 6.7.2.3p4).
pub fn complete_types_keep_their_size()
    ensures kept { (old new : Structs) (t : CType) → KeepsLayouts old new → is_complete old t ≡ true →
        Measures old new t }
    ensures declared { (tags : Structs) → KeepsLayouts tags (tags ++ None ∷ []) }
    ensures completed { (tags : Structs) (tag : ℕ) (l : StructLayout) → slice_get tags tag ≡ Some None →
        KeepsLayouts tags (slice_set tags tag (Some l)) }
{}

/// An expression and what is then done with its value is an integer constant expression, with that value, exactly where
/// the tree of both is one.
pub fn steps_are_folded_as_their_tree()
    ensures { (t : CType) (e : TExpr) (steps : List Step) → constant_after e steps ≡ constant_of (x.Applied t e steps) }
{}
