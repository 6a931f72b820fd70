//! Laws of the definitions that contracts cite. The functions do nothing: each is here for what its contract says, and
//! the lemmas that other crates' proofs cite stand in `specs/Laws`.
ghost use Rattle.std.specs.Prelude.{◌≡◌, ◌≢◌, ℕ, ◌+◌, ◌*◌, ◌^◌, ◌<◌, ◌==◌, not, Bool, ◌+ℤ◌, ◌-ℤ◌, ◌*ℤ◌, int_div, int_rem, List, Option, Some, true};
ghost use Rattle.std.specs.Int.{int_shr};
ghost use Rattle.word_ops.specs.declared.operation.Op.{Op};
ghost use Rattle.word_ops.specs.declared.operation.Width.{Width};
ghost use Rattle.word_ops.specs.Word.{signed_value};
ghost use Rattle.word_ops.specs.Operation.{machine_word, word_of_operation};
ghost use Rattle.word_ops.specs.Table.{tell, operations, narrow_so, narrowings};
ghost use Rattle.word_ops.specs.Store.{Value, Store, Cell};
ghost use Rattle.word_ops.specs.Access.{bytes_of, cells_at, converted_to, load, write, AreDisjoint};
ghost use Rattle.word_ops.specs.Values.{value_of_operation, truth};
ghost use Rattle.word_ops.specs.Addresses.{word_of_value, IsValueIn, IsAddressed};
ghost use Rattle.word_ops.specs.Changes.{SameRegions, SameShapes, Fades, MayLoad};
ghost use Rattle.word_ops.specs.Run.{Outside, Run, End};
ghost use Rattle.word_ops.specs.Outcome.{Outcome, outcome_of, start, IsFurther, IsWithinClock};
ghost use Rattle.word_ops.specs.Clock.{IsTimed};

use crate::operation::Op;

/// Operations on words: each gives a word, and a signed one gives the exact integer wherever it is defined (C11 6.5p5,
/// 6.5.5p6, 6.5.7p4, p5).
pub fn operations_on_words()
    ensures words { (op : Op) (a b : ℕ) → a < 2 ^ 32 → b < 2 ^ 32 → machine_word op a b < 2 ^ 32 }
    ensures sums { (a b n : ℕ) → a < 2 ^ 32 → b < 2 ^ 32 → word_of_operation Op.Adds a b ≡ Some n →
        signed_value n ≡ signed_value a +ℤ signed_value b }
    ensures differences { (a b n : ℕ) → a < 2 ^ 32 → b < 2 ^ 32 → word_of_operation Op.Subs a b ≡ Some n →
        signed_value n ≡ signed_value a -ℤ signed_value b }
    ensures products { (a b n : ℕ) → a < 2 ^ 32 → b < 2 ^ 32 → word_of_operation Op.Muls a b ≡ Some n →
        signed_value n ≡ signed_value a *ℤ signed_value b }
    ensures quotients { (a b n : ℕ) → a < 2 ^ 32 → b < 2 ^ 32 → word_of_operation Op.Divs a b ≡ Some n →
        (b ≢ 0) × (signed_value n ≡ int_div (signed_value a) (signed_value b)) }
    ensures remainders { (a b n : ℕ) → a < 2 ^ 32 → b < 2 ^ 32 → word_of_operation Op.Rems a b ≡ Some n →
        (b ≢ 0) × (signed_value n ≡ int_rem (signed_value a) (signed_value b)) }
    ensures left_shifts { (a b n : ℕ) → word_of_operation Op.Shls a b ≡ Some n →
        (b < 32) × (a < 2 ^ 31) × (n ≡ a * 2 ^ b) × (n < 2 ^ 31) }
    ensures right_shifts { (a b n : ℕ) → a < 2 ^ 32 → word_of_operation Op.Shrs a b ≡ Some n →
        (b < 32) × (signed_value n ≡ int_shr (signed_value a) b) }
{}

/// The table of words that instructions gave, computed from the definitions: 247 operations with the edge cases of each, and
/// what narrowing to 1, 12, 31 and 32 bits gives.
pub fn words_of_the_table()
    ensures operations { tell operations ≡ true }
    ensures narrowings { narrow_so narrowings ≡ true }
{}

/// Operations on values: wherever one is defined its word is the operation on the words, in stores whose objects have
/// addresses of their own. Further regions and other cells change nothing of it.
pub fn operations_on_values()
    ensures words { (s : Store) (op : Op) (x y v : Value) → IsAddressed s → IsValueIn s x → IsValueIn s y →
        value_of_operation s op x y ≡ Some v →
        word_of_operation op (word_of_value s x) (word_of_value s y) ≡ Some (word_of_value s v) }
    ensures inside { (s : Store) (op : Op) (x y v : Value) → IsValueIn s x → IsValueIn s y →
        value_of_operation s op x y ≡ Some v → IsValueIn s v }
    ensures truths { (s : Store) (v : Value) (b : Bool) → IsAddressed s → IsValueIn s v → truth s v ≡ Some b →
        b ≡ not (word_of_value s v == 0) }
    ensures kept { (s t : Store) (op : Op) (x y v : Value) → SameRegions s t →
        value_of_operation s op x y ≡ Some v → value_of_operation t op x y ≡ Some v }
{}

/// Loads and stores: what was stored is loaded at its width, what lies elsewhere is as it was, regions keep their sizes,
/// flags and addresses, and a load that is defined after cells were made Unset gave the same before.
pub fn loads_and_stores()
    ensures loaded { (s t : Store) (k : Width) (p v : Value) → write s k p v ≡ Some t →
        load t k p ≡ Some (converted_to k v) }
    ensures elsewhere { (s t : Store) (k j : Width) (p v q : Value) → write s k p v ≡ Some t →
        AreDisjoint p (bytes_of k) q (bytes_of j) → cells_at t j q ≡ cells_at s j q }
    ensures regions { (s t : Store) (k : Width) (p v : Value) → write s k p v ≡ Some t → SameShapes s t }
    ensures may_load { (s : Store) (k : Width) (p : Value) (cells : List Cell) (v : Value) →
        cells_at s k p ≡ Some cells → load s k p ≡ Some v → MayLoad s k cells v }
    ensures faded { (s t : Store) (k : Width) (p v : Value) → Fades s t → load t k p ≡ Some v →
        load s k p ≡ Some v }
    ensures inside { (s : Store) (k : Width) (p v : Value) → IsAddressed s → load s k p ≡ Some v → IsValueIn s v }
    ensures addresses { (s t : Store) (k : Width) (p v : Value) → write s k p v ≡ Some t → IsValueIn s v →
        IsAddressed s → IsAddressed t }
{}

/// Runs: an outcome stays within the clock and the input; one that came otherwise than for want of ticks is that of each
/// longer clock, and any outcome of a longer clock has all that the shorter one's has.
pub fn runs_with_a_longer_clock()
    ensures within { (h : Outside → Run Store (Option Value)) (input : List ℕ) (clock : ℕ) (o : Outcome) →
        IsTimed h → outcome_of input clock (h (start input clock)) ≡ Some o →
        IsWithinClock input clock o }
    ensures same { (h : Outside → Run Store (Option Value)) (input : List ℕ) (clock k : ℕ) (o : Outcome) →
        IsTimed h → outcome_of input clock (h (start input clock)) ≡ Some o → o.end ≢ End.More →
        outcome_of input (clock + k) (h (start input (clock + k))) ≡ Some o }
    ensures further { (h : Outside → Run Store (Option Value)) (input : List ℕ) (clock k : ℕ) (o p : Outcome) →
        IsTimed h → outcome_of input clock (h (start input clock)) ≡ Some o →
        outcome_of input (clock + k) (h (start input (clock + k))) ≡ Some p → IsFurther o p }
{}
