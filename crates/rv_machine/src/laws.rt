//! Laws of the definitions that contracts cite. The functions do nothing: each is here for what its contract says, and
//! the lemmas that other crates' proofs cite stand in `specs/Laws`.
ghost use Rattle.std.specs.Prelude.{◌≡◌, ◌≢◌, ℕ, ◌+◌, ◌-◌, ◌*◌, ◌%◌, ◌^◌, ◌≤◌, ◌<◌, ◌⊎◌, List, ◌∷◌, ◌++◌, length, slice_index, Option, Some, None};
ghost use Rattle.std.specs.Int.{w32, cast_unsigned};
ghost use Rattle.word_ops.specs.declared.operation.Op.{Op};
ghost use Rattle.word_ops.specs.declared.operation.Width.{Width};
ghost use Rattle.word_ops.specs.Store.{Cell, Store, Value};
ghost use Rattle.word_ops.specs.Access.{bytes_of, decode, encode, narrowed_to};
ghost use Rattle.word_ops.specs.Addresses.{HasCells, word_of_value};
ghost use Rattle.word_ops.specs.Operation.{machine_word};
ghost use Rattle.image_form.specs.declared.image.Image.{Image as ImageValue};
ghost use Rattle.image_form.specs.Limits.{IsImage, IsWithinLimits};
ghost use Rattle.rv_table.specs.declared.row.Row.{Row};
ghost use Rattle.rv_table.specs.declared.instruction.Instr.{Instr};
ghost use Rattle.rv_table.specs.Instruction.{Valid, encode_of};
ghost use Rattle.rv_machine.specs.declared.answer.End.{End};
ghost use Rattle.rv_machine.specs.State.{State, Loaded, register_in, register_of, with_register};
ghost use Rattle.rv_machine.specs.Bytes.{byte_in, half_in, word_in, signed_byte_in, signed_half_in, with_byte, with_half, with_word, number_in, with_number};
ghost use Rattle.rv_machine.specs.Effect.{Goes, Puts, Traps, effect, writes};
ghost use Rattle.rv_machine.specs.Step.{fetched, instruction_at, performs, step_of};
ghost use Rattle.rv_machine.specs.Start.{start};
ghost use Rattle.rv_machine.specs.Reading.{word_at};
ghost use Rattle.rv_machine.specs.Pause.{Moves};
ghost use Rattle.rv_machine.specs.Run.{World, Run, Steps};
ghost use Rattle.rv_machine.specs.After.{Moment, acts, after, next};
ghost use Rattle.rv_machine.specs.Operations.{operation_of_immediate, operation_of_registers};
ghost use Rattle.rv_machine.specs.Sound.{AreBytes, AreWords, IsSound, LiesAs};
ghost use Rattle.rv_machine.specs.Examples.Programs.{ProgramsEnd, StepsGo, StepsSpent};
ghost use Rattle.rv_machine.specs.Examples.Rows.{Branches, Computes};
ghost use Rattle.rv_machine.specs.Examples.Words.{WordsRead};

use crate::answer::Stepped;

/// Laws of a machine after a number of steps on input that is told.
///
/// No step leaves it as it was, and m + n steps are m and then n; one step is that of its state where it
/// goes on, and none where it has ended; steps that go on by themselves lead to their last state.
pub fn after_laws()
    ensures zero { (text : List ℕ) → (w : Moment) → after text 0 w ≡ w }
    ensures add { (text : List ℕ) → (m n : ℕ) → (w : Moment) → after text (m + n) w ≡ after text n (after text m w) }
    ensures one { (text : List ℕ) → (w : Moment) → after text 1 w ≡ next text w }
    ensures going { (text : List ℕ) → (w : Moment) → w.answer ≡ Stepped.Going → next text w ≡ acts w (step_of text w.state) }
    ensures moves { (text : List ℕ) → (n : ℕ) → (w : Moment) → (m : State) → w.answer ≡ Stepped.Going →
        Moves text n w.state m → after text n w ≡ record w { state = m } }
    ensures ended { (text : List ℕ) → (n : ℕ) → (w : Moment) → w.answer ≢ Stepped.Going → after text n w ≡ w }
{}

/// States that a machine can be in. Where an image is loaded it has 32 registers of words, an address that is a multiple
/// of 4 and a memory of bytes, and steps and runs keep that, with data, gap and stack where they lay; the text is no part
/// of the state. A byte that is put out is one.
pub fn sound_laws()
    ensures start { (image : ImageValue) → IsImage image → IsWithinLimits image → IsSound (start image) }
    ensures step { (text : List ℕ) → (m m' : State) → AreWords text → IsSound m → step_of text m ≡ Goes m' →
        IsSound m' × LiesAs m m' }
    ensures puts { (text : List ℕ) → (m : State) → (byte : ℕ) → AreWords text → IsSound m → step_of text m ≡ Puts byte →
        byte < 2 ^ 8 }
    ensures after { (text : List ℕ) → (n : ℕ) → (w : Moment) → AreWords text → IsSound w.state →
        IsSound (after text n w).state × LiesAs w.state (after text n w).state }
    ensures steps { (text : List ℕ) → (w v : World) → (answer : Stepped) → AreWords text → IsSound w.state →
        Steps text w answer v → IsSound v.state × LiesAs w.state v.state }
    ensures run { (text : List ℕ) → (n : ℕ) → (w v : World) → (end : End) → AreWords text → IsSound w.state →
        Run text n w end v → IsSound v.state × LiesAs w.state v.state }
{}

/// Steps by the words of the text. A step is what the instruction at pc does: the word of a valid instruction there has
/// its effect, no other word is an instruction, and the word behind n words of text stands at 0x10000 + 4 n. A word read
/// in memory is that of its four bytes, and one read at the address of a word of the text is that word.
pub fn step_laws()
    ensures performs { (text : List ℕ) → (m : State) → step_of text m ≡ performs m (instruction_at text m.pc) }
    ensures word { (text : List ℕ) → (m : State) → (i : Instr) → Valid i → fetched text m.pc ≡ Some (encode_of i) →
        step_of text m ≡ effect i.row i.rd (cast_unsigned w32 i.imm) (register_of m i.rs1) (register_of m i.rs2) m }
    ensures valid { (text : List ℕ) → (pc : ℕ) → (i : Instr) → AreWords text → instruction_at text pc ≡ Some i →
        Valid i × (fetched text pc ≡ Some (encode_of i)) }
    ensures none { (text : List ℕ) → (m : State) → instruction_at text m.pc ≡ None → step_of text m ≡ Traps m.pc }
    ensures behind { (before : List ℕ) → (w : ℕ) → (rest : List ℕ) →
        fetched (before ++ w ∷ rest) (0x10000 + 4 * length before) ≡ Some w }
    ensures memory { (m : Loaded) → (at : ℕ) → 0x10000 + 4 * length m.text ≤ m.state.base → m.state.base ≤ at →
        at + 4 ≤ m.state.base + length m.state.memory → word_at m at ≡ Some (word_in m.state.memory (at - m.state.base)) }
    ensures text { (m : Loaded) → (n : ℕ) → AreWords m.text → n < length m.text →
        word_at m (0x10000 + 4 * n) ≡ Some (slice_index m.text n) }
{}

/// Numbers in bytes of memory: loads and stores are of numbers of one, two and four bytes. What was written is read, a
/// number that lies wholly before it or behind it is as it was, and a load gives the narrowing of the number.
pub fn bytes_laws()
    ensures read { (count word : ℕ) → (bytes : List ℕ) → (k : ℕ) → k + count ≤ length bytes →
        number_in count (with_number count word bytes k) k ≡ word % 2 ^ (8 * count) }
    ensures elsewhere { (count many word : ℕ) → (bytes : List ℕ) → (k j : ℕ) → (j + many ≤ k) ⊎ (k + count ≤ j) →
        number_in many (with_number count word bytes k) j ≡ number_in many bytes j }
    ensures size { (count word : ℕ) → (bytes : List ℕ) → (k : ℕ) → length (with_number count word bytes k) ≡ length bytes }
    ensures bytes { (count word : ℕ) → (bytes : List ℕ) → (k : ℕ) → AreBytes bytes →
        AreBytes (with_number count word bytes k) }
    ensures byte { (word : ℕ) → (bytes : List ℕ) → (k : ℕ) →
        (byte_in bytes k ≡ number_in 1 bytes k) × (with_byte word bytes k ≡ with_number 1 word bytes k) }
    ensures half { (word : ℕ) → (bytes : List ℕ) → (k : ℕ) →
        (half_in bytes k ≡ number_in 2 bytes k) × (with_half word bytes k ≡ with_number 2 word bytes k) }
    ensures word { (word : ℕ) → (bytes : List ℕ) → (k : ℕ) →
        (word_in bytes k ≡ number_in 4 bytes k) × (with_word word bytes k ≡ with_number 4 word bytes k) }
    ensures narrowed { (bytes : List ℕ) → (k : ℕ) → AreBytes bytes →
        (byte_in bytes k ≡ narrowed_to Width.U8 (number_in 1 bytes k))
        × (signed_byte_in bytes k ≡ narrowed_to Width.S8 (number_in 1 bytes k))
        × (half_in bytes k ≡ narrowed_to Width.U16 (number_in 2 bytes k))
        × (signed_half_in bytes k ≡ narrowed_to Width.S16 (number_in 2 bytes k))
        × (word_in bytes k ≡ narrowed_to Width.Word (number_in 4 bytes k)) }
{}

/// Registers: what was written is read, but for x0, which reads 0, and each other register is as it was.
pub fn register_laws()
    ensures read { (registers : List ℕ) → (n word : ℕ) → n ≢ 0 → n < length registers →
        register_in (with_register registers n word) n ≡ word }
    ensures other { (registers : List ℕ) → (n k word : ℕ) → k ≢ n →
        register_in (with_register registers n word) k ≡ register_in registers k }
    ensures zero { (registers : List ℕ) → (word : ℕ) →
        (register_in registers 0 ≡ 0) × (with_register registers 0 word ≡ registers) }
{}

/// Cells as bytes of memory: where the word of a value was put, a machine has the bytes of its cells, and where it has
/// them, a load gives the word of the value.
pub fn cell_laws()
    ensures stored { (s : Store) → (w : Width) → (v : Value) → (cells : List Cell) → (bytes : List ℕ) → (k : ℕ) →
        encode w v ≡ Some cells → k + bytes_of w ≤ length bytes →
        HasCells s cells (number_in (bytes_of w) (with_number (bytes_of w) (word_of_value s v) bytes k) k) }
    ensures loaded { (s : Store) → (w : Width) → (v : Value) → (cells : List Cell) → (bytes : List ℕ) → (k : ℕ) →
        length cells ≡ bytes_of w → word_of_value s v < 2 ^ 32 → HasCells s cells (number_in (bytes_of w) bytes k) →
        decode w cells ≡ Some v → narrowed_to w (number_in (bytes_of w) bytes k) ≡ word_of_value s v }
{}

/// Rows that compute: one that is an operation on words writes the word of that operation, of its two registers or of a
/// register and the immediate.
pub fn arithmetic_laws()
    ensures registers { (row : Row) → (op : Op) → (rd k a b : ℕ) → (m : State) → operation_of_registers row ≡ Some op →
        a < 2 ^ 32 → effect row rd k a b m ≡ writes m rd (machine_word op a b) }
    ensures immediate { (row : Row) → (op : Op) → (rd k a b : ℕ) → (m : State) → operation_of_immediate row ≡ Some op →
        a < 2 ^ 32 → effect row rd k a b m ≡ writes m rd (machine_word op a k) }
{}

/// Examples that the definitions compute: words of the assembler on words of registers with what another machine gives,
/// small images with their ends and outputs, a run step by step, and words read.
pub fn examples()
    ensures computations { Computes }
    ensures branches { Branches }
    ensures programs { ProgramsEnd }
    ensures spent { StepsSpent }
    ensures steps { StepsGo }
    ensures words { WordsRead }
{}
