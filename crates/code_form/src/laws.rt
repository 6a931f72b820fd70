//! Laws of the definitions that contracts cite. The functions do nothing: each is here for what its contract says, and the lemmas
//! that other crates' proofs cite stand in `specs/Laws`.
ghost use Rattle.std.specs.Prelude.{◌≡◌, ◌≢◌, ℕ, ◌+◌, ◌%◌, ◌^◌, ◌<◌, IsTrue, List, [], ◌++◌, map, length, Some};
ghost use Rattle.word_ops.specs.declared.operation.Op.{Op};
ghost use Rattle.rv_table.specs.declared.instruction.Instr.{Instr};
ghost use Rattle.rv_table.specs.Fields.{Within};
ghost use Rattle.code_form.specs.Registers.{is_scratch, register_of, instruction_of, word_of};
ghost use Rattle.code_form.specs.Patterns.{Second, pattern};
ghost use Rattle.code_form.specs.Recognition.{recognised, shape, second_of};
ghost use Rattle.code_form.specs.Instructions.{upper_part, lower_part};
ghost use Rattle.code_form.specs.Examples.{HasForm, Terms, Slots, Swaps, LosesSwap, Forgets};

use crate::code::Operand;

/// What is selected is what is recognised: the instructions of an operation, over any registers with a scratch register between
/// them, are recognised as that operation, with their count, their result and their operands, whatever stands behind them.
pub fn patterns_are_recognised()
    ensures { (op : Op) (d a t : Operand) (b : Second) (rest : List Instr) → pattern op d a t b ≢ [] →
        IsTrue (is_scratch (register_of t)) →
        recognised op (map instruction_of (pattern op d a t b) ++ rest)
        ≡ Some (shape (length (pattern op d a t b)) (register_of d) (register_of a) (second_of op b)) }
{}

/// A word in two parts, as LUI and ADDI, or AUIPC and JALR, put it together: their sum is the word, and the lower part is an
/// immediate of 12 bits with a sign.
pub fn constants_in_two_parts()
    ensures sum { (n : ℕ) → n < 2 ^ 32 → (word_of (upper_part n) + word_of (lower_part n)) % 2 ^ 32 ≡ n }
    ensures within { (n : ℕ) → Within (2 ^ 11) (lower_part n) }
{}

/// That what is asked of code can be met: over terms, over slots, and over registers that two phis exchange. Where that exchange
/// is lost, the block does not get what it was told; and where a term gets a new value, no place keeps the one before by its name.
pub fn examples()
    ensures emitted { HasForm }
    ensures terms { Terms }
    ensures slots { Slots }
    ensures swaps { Swaps }
    ensures loses_swap { LosesSwap }
    ensures forgets { Forgets }
{}
