//! Laws of the definitions that contracts cite. The functions do nothing: each is here for what its contract says, and
//! the lemmas that other crates' proofs cite stand in `specs/Laws`.
ghost use Rattle.std.specs.Prelude.{◌≡◌, ◌≢◌, ℕ, ◌+◌, ◌<◌, ◌≤◌, ◌/◌, List, ◌++◌, map, Option, Some, None, true, false, slice_get, length};
ghost use Rattle.word_ops.specs.Store.{Value, Cell, Byte, Region, Store, refill_region};
ghost use Rattle.word_ops.specs.Access.{cells_from, put_cells, copy};
ghost use Rattle.word_ops.specs.Values.{value_of_operation};
ghost use Rattle.word_ops.specs.Addresses.{IsValueIn};
ghost use Rattle.word_ops.specs.Changes.{SameRegions, Fades};
ghost use Rattle.word_ops.specs.Run.{Outside, Run, End, then_do, after_turn};
ghost use Rattle.word_ops.specs.Following.{Follows};
ghost use Rattle.word_ops.specs.Clock.{Reaches, IsTimed};
ghost use Rattle.word_ops.specs.Outcome.{Outcome, IsFurther, IsWithinClock};
ghost use Rattle.core_lang.specs.declared.act.Atom.{Atom};
ghost use Rattle.core_lang.specs.declared.act.PointerOp.{PointerOp};
ghost use Rattle.core_lang.specs.declared.act.Core.{Core};
ghost use Rattle.core_lang.specs.declared.program.CoreFunction.{CoreFunction};
ghost use Rattle.core_lang.specs.declared.program.Program.{Program};
ghost use Rattle.core_lang.specs.Layout.{Layout};
ghost use Rattle.core_lang.specs.State.{State, Activation, value_of_atom, argument};
ghost use Rattle.core_lang.specs.Acts.{Invocation, Calls, value_of_pointers, operation_of, in_turn, as_block, as_loop, by_truth, turn_of, act, acts};
ghost use Rattle.core_lang.specs.Run.{calls, first_call, program_from, run_of_core};
ghost use Rattle.word_ops.specs.Depth.{GoesDeeper};
ghost use Rattle.core_lang.specs.Following.{OnGives};
ghost use Rattle.core_lang.specs.Copying.{reduced, overlap_in_part, copied, width_of_unit, LoadsAndStores};
ghost use Rattle.core_lang.specs.Filling.{widths_of_fill, store_zeros};
ghost use Rattle.core_lang.specs.Counts.{count_of_acts};
ghost use Rattle.core_lang.specs.WellFormed.{IsUnits, AreActsIn, assigned_behind, places_in, IsFunctionIn, IsWellFormed};
ghost use Rattle.core_lang.specs.Addresses.{IsLayoutOf, KeepsAddresses, IsCallable};

use crate::act::Core;

/// Acts one after another: those of two lists are those of the first and then those of the second, and what a block, a
/// loop and a choice do is told by the lists in them. A loop is its first iteration, and behind a tick the loop.
pub fn acts_in_lists()
    ensures append { (call : Calls) (e : Activation) (xs ys : List Core) (s : State) (w : Outside) →
        acts call e (xs ++ ys) s w ≡ in_turn (acts call e xs) (acts call e ys) s w }
    ensures block { (call : Calls) (e : Activation) (xs : List Core) →
        act call e (Core.Block xs) ≡ as_block (acts call e xs) }
    ensures loops { (call : Calls) (e : Activation) (xs : List Core) →
        act call e (Core.Loop xs) ≡ as_loop (acts call e xs) }
    ensures choice { (call : Calls) (e : Activation) (v : Atom) (xs ys : List Core) (s : State) (w : Outside) →
        act call e (Core.If v xs ys) s w ≡ by_truth (value_of_atom e s v) (acts call e xs) (acts call e ys) s w }
    ensures iteration { (l : Layout) (gs : List CoreFunction) (depth : ℕ) (e : Activation) (xs : List Core) (s : State)
        (w : Outside) → let go = acts (calls l gs depth) e xs in
        as_loop go s w ≡ then_do (turn_of go s w) (λ s w t. after_turn t (as_loop go s) s w) }
{}

/// Variables: as a function begins its parameters have the arguments and all others are 0, and acts leave the value of
/// each variable and temporary that they assign in no place.
pub fn variables_of_acts()
    ensures arguments { (vs : List Value) (x : ℕ) (v : Value) → slice_get vs x ≡ Some v → argument vs x ≡ v }
    ensures others { (vs : List Value) (x : ℕ) → length vs ≤ x → argument vs x ≡ Value.Number 0 }
    ensures unassigned { (call : Calls) (e : Activation) (x : ℕ) (xs : List Core) → places_in x xs ≡ 0 → (s : State)
        (w : Outside) → OnGives (λ (t : State) f. t.vars x ≡ s.vars x) (acts call e xs s w) }
{}

/// Operations on pointers: each that is defined is an operation on values, and gives a value of the store.
pub fn operations_on_pointers()
    ensures operation { (s : Store) (op : PointerOp) (x y v : Value) → value_of_pointers s op x y ≡ Some v →
        value_of_operation s (operation_of op) x y ≡ Some v }
    ensures inside { (s : Store) (op : PointerOp) (x y v : Value) → IsValueIn s x → IsValueIn s y →
        value_of_pointers s op x y ≡ Some v → IsValueIn s v }
{}

/// Copies and fills: a copy by units puts all cells of the source, with their bytes modulo 2^8, but for cells that it makes
/// Unset; of bytes below 2^8 it is the copy of all cells, and it is defined where that is and the ranges do not overlap in
/// part. It is the loads and stores of its units, whatever they give of what they may give, but for cells that are
/// Unset behind it, also in a store that has fewer cells Unset. An object that lives and is not constant is filled by stores of zeros.
pub fn copies_and_fills()
    ensures cells { (s t : Store) (p q : Value) (n a : ℕ) → IsUnits n a → copied s p q n a ≡ Some t →
        (cs : List Cell) × (u : Store) × (cells_from s q n a ≡ Some cs) × (put_cells s p a (map reduced cs) ≡ Some u) × Fades u t }
    ensures bytes { (s t : Store) (p q : Value) (n a : ℕ) (cs : List Cell) → IsUnits n a → copied s p q n a ≡ Some t →
        cells_from s q n a ≡ Some cs → map reduced cs ≡ cs → (u : Store) × (copy s p q n a ≡ Some u) × Fades u t }
    ensures defined { (s u : Store) (p q : Value) (n a : ℕ) → IsUnits n a → overlap_in_part p q n ≡ false →
        copy s p q n a ≡ Some u → (t : Store) × (copied s p q n a ≡ Some t) }
    ensures units { (x s t : Store) (r o q p n a : ℕ) → IsUnits n a → Fades x s →
        copied s (Value.Pointer r o) (Value.Pointer q p) n a ≡ Some t →
        LoadsAndStores (width_of_unit a) (n / a) x r o q p t }
    ensures filled { (s : Store) (r : ℕ) (g : Region) → slice_get s r ≡ Some g → g.live ≡ true → g.constant ≡ false →
        store_zeros s r 0 (widths_of_fill (length g.cells)) ≡ Some (refill_region s r (Byte 0)) }
{}

/// Well-formed acts: two lists are well formed one behind the other where the second is so behind what the first
/// assigns, a number is assigned in the places of both, and the lists count for what both count for. A well-formed
/// function does the same whatever its temporaries hold as it begins, so it reads none that it has not assigned.
pub fn well_formed_acts()
    ensures append { (p : Program) (g : CoreFunction) (k : ℕ) (ts : List ℕ) (xs ys : List Core) →
        AreActsIn p g k ts xs → AreActsIn p g k (assigned_behind xs ts) ys → AreActsIn p g k ts (xs ++ ys) }
    ensures split { (p : Program) (g : CoreFunction) (k : ℕ) (ts : List ℕ) (xs ys : List Core) →
        AreActsIn p g k ts (xs ++ ys) → AreActsIn p g k ts xs × AreActsIn p g k (assigned_behind xs ts) ys }
    ensures counts { (sizes : List ℕ) (xs ys : List Core) →
        count_of_acts sizes (xs ++ ys) ≡ count_of_acts sizes xs + count_of_acts sizes ys }
    ensures places { (x : ℕ) (xs ys : List Core) → places_in x (xs ++ ys) ≡ places_in x xs + places_in x ys }
    ensures temporaries { (p : Program) (g : CoreFunction) (call : Calls) (e : Activation) → IsFunctionIn p g →
        (s t : State) (w : Outside) → ((x : ℕ) → x < g.vars → s.vars x ≡ t.vars x) → s.store ≡ t.store →
        Follows (λ (s : State) f (t : State) d. (f ≡ d) × (s.store ≡ t.store)) (acts call e g.body s w) (acts call e g.body t w) }
{}

/// A longer clock: an outcome stays within the clock and the input; one that came otherwise than for want of ticks is
/// that of each longer clock, any outcome of a longer clock has all that the shorter one's has, and what is undefined
/// within a clock is so within each longer one.
pub fn runs_with_a_longer_clock()
    ensures within { (l : Layout) (p : Program) (input : List ℕ) (depth clock : ℕ) (o : Outcome) →
        run_of_core l p input depth clock ≡ Some o → IsWithinClock input clock o }
    ensures same { (l : Layout) (p : Program) (input : List ℕ) (depth clock k : ℕ) (o : Outcome) →
        run_of_core l p input depth clock ≡ Some o → o.end ≢ End.More →
        run_of_core l p input depth (clock + k) ≡ Some o }
    ensures further { (l : Layout) (p : Program) (input : List ℕ) (depth clock k : ℕ) (o q : Outcome) →
        run_of_core l p input depth clock ≡ Some o → run_of_core l p input depth (clock + k) ≡ Some q → IsFurther o q }
    ensures undefined { (l : Layout) (p : Program) (input : List ℕ) (depth clock k : ℕ) →
        run_of_core l p input depth clock ≡ None → run_of_core l p input depth (clock + k) ≡ None }
    ensures calls { (l : Layout) (gs : List CoreFunction) (depth : ℕ) (c : Invocation) → IsTimed (calls l gs depth c) }
{}

/// More depth: an outcome that came otherwise than for a call that was too deep is that of each greater depth, any
/// outcome with more depth has all that the one with less has, and what is undefined with a depth is so with each
/// greater one.
pub fn runs_with_more_depth()
    ensures same { (l : Layout) (p : Program) (input : List ℕ) (depth k clock : ℕ) (o : Outcome) →
        run_of_core l p input depth clock ≡ Some o → o.end ≢ End.Deep →
        run_of_core l p input (depth + k) clock ≡ Some o }
    ensures further { (l : Layout) (p : Program) (input : List ℕ) (depth k clock : ℕ) (o q : Outcome) →
        run_of_core l p input depth clock ≡ Some o → run_of_core l p input (depth + k) clock ≡ Some q → IsFurther o q }
    ensures undefined { (l : Layout) (p : Program) (input : List ℕ) (depth k clock : ℕ) →
        run_of_core l p input depth clock ≡ None → run_of_core l p input (depth + k) clock ≡ None }
    ensures calls { (l : Layout) (gs : List CoreFunction) (n m : ℕ) → n ≤ m → (c : Invocation) (w : Outside) →
        GoesDeeper (calls l gs n c w) (calls l gs m c w) }
{}

/// The outside: a program, an input, a depth and a clock have at most one outcome, which is the same wherever the
/// objects lie; and from a moment on a run takes a prefix of the input that is left, adds to the output, and takes of
/// the ticks that are left.
pub fn runs_and_the_outside()
    ensures determined { (l : Layout) (p : Program) (input : List ℕ) (depth clock : ℕ) (o q : Outcome) →
        run_of_core l p input depth clock ≡ Some o → run_of_core l p input depth clock ≡ Some q → o ≡ q }
    ensures layout { (l m : Layout) (p : Program) (input : List ℕ) (depth clock : ℕ) →
        run_of_core l p input depth clock ≡ run_of_core m p input depth clock }
    ensures reaches { (l : Layout) (p : Program) (depth : ℕ) (w u : Outside) (e : End) →
        program_from l p depth w ≡ Run.Ends e u → Reaches w u }
{}

/// Main: in a well-formed program its call gives a value, where it gives back at all.
pub fn main_gives_a_value()
    ensures { (l : Layout) (p : Program) (depth : ℕ) (w : Outside) → IsWellFormed p →
        OnGives (λ (t : Store) (v : Option Value). (x : Value) × (v ≡ Some x)) (calls l p.functions depth (first_call l p) w) }
{}

/// Calls and the store: a call leaves the regions that were there with their sizes, flags and addresses. With a layout
/// that keeps the objects of a well-formed program apart, main may be called, and a call that may be made leaves an
/// addressed store in which no further region is live, and gives a value of that store.
pub fn calls_and_the_store()
    ensures regions { (l : Layout) (gs : List CoreFunction) (depth : ℕ) (c : Invocation) (w : Outside) →
        OnGives (λ t v. SameRegions c.store t) (calls l gs depth c w) }
    ensures main { (l : Layout) (p : Program) (depth : ℕ) (layout : IsLayoutOf l p depth) → IsWellFormed p →
        IsCallable p layout.bottom layout.largest depth (first_call l p) }
    ensures addresses { (l : Layout) (p : Program) (deepest : ℕ) (layout : IsLayoutOf l p deepest) → IsWellFormed p →
        (depth : ℕ) (c : Invocation) (w : Outside) → IsCallable p layout.bottom layout.largest depth c →
        OnGives (KeepsAddresses c.store) (calls l p.functions depth c w) }
{}
