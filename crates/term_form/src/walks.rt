//! Laws of walks. The functions do nothing: each is here for what its contract says, and the lemmas that other crates' proofs
//! cite stand in `specs/Laws`.
ghost use Rattle.std.specs.Prelude.{◌≡◌, ℕ, List, ◌++◌, Some, None};
ghost use Rattle.word_ops.specs.declared.operation.Width.{Width};
ghost use Rattle.word_ops.specs.Store.{Value, Number, Cell, Store};
ghost use Rattle.word_ops.specs.Access.{IsInRange, decode, cells_at, load};
ghost use Rattle.word_ops.specs.Changes.{HasBytes, MayLoad, IsInRangeUnless};
ghost use Rattle.word_ops.specs.Run.{Outside, then_do};
ghost use Rattle.word_ops.specs.Clock.{IsTimed};
ghost use Rattle.term_form.specs.Walk.{Program, Layout, Walk, loaded, walk, walk_of_program};
ghost use Rattle.term_form.specs.Examples.{TakesFirst, TakesSecond, Swaps, RunsOut, Adds, GoesTooDeep, Chooses};

/// Closed walks, computed from the definition: a branch, a loop in which two phis change places, a clock that runs out, calls
/// and their depth, and a load of which the cells say half.
pub fn closed_walks()
    ensures takes_first { TakesFirst }
    ensures takes_second { TakesSecond }
    ensures swaps { Swaps }
    ensures runs_out { RunsOut }
    ensures adds { Adds }
    ensures goes_too_deep { GoesTooDeep }
    ensures chooses { Chooses }
{}

/// Loads in a walk: one that is defined gives its value. One that is undefined by its cells alone gives, by the choice, each
/// number in the range of its width that has the bytes which are there, and nothing else.
pub fn loads_of_walks()
    ensures told { (s : Store) (k : Width) (n : ℕ) (p v : Value) → load s k p ≡ Some v →
        loaded s k n p ≡ Some v }
    ensures any { (s : Store) (k : Width) (p : Value) (cells : List Cell) (n : ℕ) →
        cells_at s k p ≡ Some cells → decode k cells ≡ None → IsInRange k n → HasBytes cells n →
        loaded s k n p ≡ Some (Number n) }
    ensures allowed { (s : Store) (k : Width) (p : Value) (cells : List Cell) (n : ℕ) (v : Value) →
        cells_at s k p ≡ Some cells → loaded s k n p ≡ Some v →
        MayLoad s k cells v × IsInRangeUnless k (decode k cells) v }
{}

/// Walks one behind the other, and walks with a longer clock: with more ticks a walk does the same, and goes on where it
/// ended for want of them.
pub fn walks_go_on()
    ensures append { (p : Program) (layout : Layout) (first second : List ℕ) (s : Walk) (w : Outside) →
        walk p layout (first ++ second) s w
        ≡ then_do (walk p layout first s w) (λ s w done. walk p layout second s w) }
    ensures timed { (p : Program) (layout : Layout) (main depth : ℕ) (statics : Store) (choices : List ℕ) →
        IsTimed (λ w. walk_of_program p layout main depth statics choices w) }
{}
