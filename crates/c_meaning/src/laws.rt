//! Laws of the definitions. The functions do nothing: each is here for what its contract says.
ghost use Rattle.std.specs.Prelude.{◌≡◌, ◌≢◌, ℕ, ◌+◌, ◌≤◌, List, map, Option, Some, None, slice_get};
ghost use Rattle.word_ops.specs.Store.{Value, Store};
ghost use Rattle.word_ops.specs.Run.{Outside, Run, End};
ghost use Rattle.word_ops.specs.Outcome.{Outcome, IsFurther, IsWithinClock};
ghost use Rattle.word_ops.specs.Clock.{RunReaches, IsTimed};
ghost use Rattle.word_ops.specs.Depth.{IsDeeper};
ghost use Rattle.c_tree.specs.declared.typed.expression.TExpr.{TExpr};
ghost use Rattle.c_tree.specs.declared.typed.unit.Typed.{Typed};
ghost use Rattle.c_tree.specs.TypedKinds.{Kind, Names, IsOfKind};
ghost use Rattle.c_tree.specs.TypedUnits.{signature_of, IsUnit};
ghost use Rattle.c_meaning.specs.Environment.{Environment};
ghost use Rattle.c_meaning.specs.Expressions.{Invocation, value};
ghost use Rattle.c_meaning.specs.Units.{calls, run_of_unit, outcome_of_unit};
ghost use Rattle.c_meaning.specs.Kinds.{IsValueOf, IsResultIn, GivesSuch};

/// A run takes input from the front, appends to the output and takes ticks, and changes nothing else
/// outside; it ends for want of ticks only where none is left. So does each call in it.
pub fn runs_take_what_is_there()
    ensures runs { (u : Typed) (depth : ℕ) (w : Outside) → RunReaches w (run_of_unit u depth w) }
    ensures calls { (u : Typed) (depth : ℕ) (c : Invocation) (w : Outside) → RunReaches w (calls u depth c w) }
    ensures within { (u : Typed) (input : List ℕ) (depth clock : ℕ) (o : Outcome) →
        outcome_of_unit u input depth clock ≡ Some o → IsWithinClock input clock o }
{}

/// A longer clock gives the same run, further: an outcome that came otherwise than for want of ticks is
/// that of each longer clock, what is undefined is so with each longer clock, and any outcome of a longer
/// clock has all that the shorter one's has.
pub fn runs_with_a_longer_clock()
    ensures same { (u : Typed) (input : List ℕ) (depth clock more : ℕ) (o : Outcome) →
        outcome_of_unit u input depth clock ≡ Some o → o.end ≢ End.More →
        outcome_of_unit u input depth (clock + more) ≡ Some o }
    ensures undefined { (u : Typed) (input : List ℕ) (depth clock more : ℕ) →
        outcome_of_unit u input depth clock ≡ None →
        outcome_of_unit u input depth (clock + more) ≡ None }
    ensures further { (u : Typed) (input : List ℕ) (depth clock more : ℕ) (o p : Outcome) →
        outcome_of_unit u input depth clock ≡ Some o →
        outcome_of_unit u input depth (clock + more) ≡ Some p → IsFurther o p }
    ensures timed { (u : Typed) (depth : ℕ) → IsTimed (run_of_unit u depth) }
{}

/// More depth gives the same run where it was not too deep: an outcome that came otherwise than at a call
/// that was too deep is that of each greater depth, what is undefined is so at each greater depth, and any
/// outcome at a greater depth has all that the one at the smaller depth has.
pub fn runs_with_more_depth()
    ensures same { (u : Typed) (input : List ℕ) (less more clock : ℕ) (o : Outcome) → less ≤ more →
        outcome_of_unit u input less clock ≡ Some o → o.end ≢ End.Deep →
        outcome_of_unit u input more clock ≡ Some o }
    ensures undefined { (u : Typed) (input : List ℕ) (less more clock : ℕ) → less ≤ more →
        outcome_of_unit u input less clock ≡ None → outcome_of_unit u input more clock ≡ None }
    ensures further { (u : Typed) (input : List ℕ) (less more clock : ℕ) (o p : Outcome) → less ≤ more →
        outcome_of_unit u input less clock ≡ Some o → outcome_of_unit u input more clock ≡ Some p →
        IsFurther o p }
{}

/// The same of each call, the store that it leaves and the value that it gives among what stays.
pub fn calls_with_more_depth()
    ensures { (u : Typed) (less more : ℕ) (c : Invocation) → less ≤ more →
        IsDeeper (calls u less c) (calls u more c) }
{}

/// In a unit that hangs together what an expression gives is a value of its kind, and what a call gives is
/// one that its function's type has. So a number is a word, and what is converted to a narrow type, read
/// from a narrow object or assigned to one is in that type's range.
pub fn values_are_of_their_kinds()
    ensures values { (u : Typed) (depth : ℕ) (c : Names) (a : TExpr) (g : Kind) (env : Environment) (st : Store)
        (w : Outside) → IsUnit u → c.functions ≡ map signature_of u.functions → IsOfKind c a g →
        GivesSuch (IsValueOf g) (value (calls u depth) a env st w) }
    ensures calls { (u : Typed) (depth : ℕ) (c : Invocation) (w : Outside) → IsUnit u →
        GivesSuch (IsResultIn (slice_get (map signature_of u.functions) c.function)) (calls u depth c w) }
{}
