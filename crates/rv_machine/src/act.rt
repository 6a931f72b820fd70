//! One instruction on registers and memory: the match over the 48 rows in which the runner spends its
//! time. Each arm is the definition of its row.
ghost use Rattle.std.specs.Prelude.{◌≡◌, ◌+◌, ◌%◌, ◌^◌, ◌<◌, ◌≤◌, ◌==◌, if◌then◌else◌, length, IsNone, is_some, Some, None};
ghost use Rattle.rv_machine.specs.State.{following, state, with_register};
ghost use Rattle.rv_machine.specs.Decoded.{effect_of, ran};
ghost use Rattle.rv_machine.specs.Pc.{index_of};
ghost use Rattle.rv_machine.specs.Arithmetic as words;

use crate::arithmetic::{
    difference, high_product, high_product_mixed, high_product_unsigned, less, less_unsigned,
    product, quotient, quotient_unsigned, remainder, remainder_unsigned, shifted_left,
    shifted_right, shifted_right_signed, sum,
};
use crate::bytes::{
    byte_in, half_in, place, put_byte, put_half, put_word, signed_byte_in, signed_half_in, word_in,
};
use crate::decoded::Decoded;
use crate::pc::Pc;
use crate::registers::Registers;
use rv_table::Row;

/// Writes a register, and on to the next instruction.
#[inline(always)]
fn write(i: &Decoded, pc: Pc, word: u32, registers: &mut Registers) -> Option<Pc>
    requires slot_low { 1 ≤ i.now.slot }
    requires slot_high { i.now.slot ≤ 32 }
    requires text { index_of pc < 2 ^ 28 }
    ensures registers { registers.new ≡ with_register registers.old (i.now.slot % 32) word }
    ensures next { result ≡ Some (following pc) }
{
    registers.set(i.slot, word);
    Some(pc.next())
}

/// Goes to a target, if it has one, and leaves the link.
#[inline(always)]
fn jump(i: &Decoded, pc: Pc, target: Option<Pc>, registers: &mut Registers) -> Option<Pc>
    requires slot_low { 1 ≤ i.now.slot }
    requires slot_high { i.now.slot ≤ 32 }
    requires text { index_of pc < 2 ^ 28 }
    ensures registers { registers.new ≡ (if is_some target then with_register registers.old (i.now.slot % 32) (following pc) else registers.old) }
    ensures next { result ≡ target }
{
    if target.is_some() {
        registers.set(i.slot, pc.next().address());
    }
    target
}

/// Goes to the target of a branch that is taken, if it has one, else to the next instruction.
#[inline(always)]
fn branch(i: &Decoded, pc: Pc, taken: bool) -> Option<Pc>
    requires text { index_of pc < 2 ^ 28 }
    ensures { result ≡ (if taken then (if words.sum pc i.now.immediate % 4 == 0 then Some (words.sum pc i.now.immediate) else None) else Some (following pc)) }
{
    if taken {
        pc.at_offset(i.immediate)
    } else {
        Some(pc.next())
    }
}

/// A row that computes a word of two registers.
macro_rules! of_registers {
    ($function:ident, $i:ident, $pc:ident, $registers:ident) => {
        write(
            $i,
            $pc,
            $function($registers.get($i.rs1), $registers.get($i.rs2)),
            $registers,
        )
    };
}

/// A row that computes a word of a register and the immediate.
macro_rules! of_immediate {
    ($function:ident, $i:ident, $pc:ident, $registers:ident) => {
        write(
            $i,
            $pc,
            $function($registers.get($i.rs1), $i.immediate),
            $registers,
        )
    };
}

/// A row that loads a number of a size.
macro_rules! load {
    ($size:literal, $reading:ident, $i:ident, $pc:ident, $registers:ident, $memory:ident, $base:ident) => {{
        let at = sum($registers.get($i.rs1), $i.immediate);
        let k = place($base, $memory.len(), $size, at)?;
        write($i, $pc, $reading($memory, k), $registers)
    }};
}

/// A row that stores a number of a size.
macro_rules! store {
    ($size:literal, $writing:ident, $i:ident, $pc:ident, $registers:ident, $memory:ident, $base:ident) => {{
        let at = sum($registers.get($i.rs1), $i.immediate);
        let k = place($base, $memory.len(), $size, at)?;
        $writing($registers.get($i.rs2), $memory, k);
        Some($pc.next())
    }};
}

/// What an instruction does to registers and memory, and where it goes on; `None` where it traps or calls
/// the environment, with nothing changed.
#[inline(always)]
pub fn act(
    i: &Decoded,
    pc: Pc,
    registers: &mut Registers,
    memory: &mut [u8],
    base: u32,
) -> Option<Pc>
    requires room { base + length memory.old ≤ 2 ^ 32 }
    requires slot_low { 1 ≤ i.now.slot }
    requires slot_high { i.now.slot ≤ 32 }
    requires rs1 { i.now.rs1 < 32 }
    requires rs2 { i.now.rs2 < 32 }
    requires text { index_of pc < 2 ^ 28 }
    ensures does { ran result registers.new memory.new i.now.row (state registers.old pc base memory.old) ≡ effect_of i.now (state registers.old pc base memory.old) }
    ensures registers { IsNone result → registers.new ≡ registers.old }
    ensures memory { IsNone result → memory.new ≡ memory.old }
{
    match i.row {
        Row::Lui => write(i, pc, i.immediate, registers),
        Row::Auipc => write(i, pc, sum(pc.address(), i.immediate), registers),
        Row::Jal => jump(i, pc, pc.at_offset(i.immediate), registers),
        Row::Jalr => {
            let target = Pc::at(sum(registers.get(i.rs1), i.immediate) / 2 * 2);
            jump(i, pc, target, registers)
        }
        Row::Beq => branch(i, pc, registers.get(i.rs1) == registers.get(i.rs2)),
        Row::Bne => branch(i, pc, registers.get(i.rs1) != registers.get(i.rs2)),
        Row::Blt => {
            let taken = registers.get(i.rs1).cast_signed() < registers.get(i.rs2).cast_signed();
            branch(i, pc, taken)
        }
        Row::Bge => {
            let taken = registers.get(i.rs1).cast_signed() >= registers.get(i.rs2).cast_signed();
            branch(i, pc, taken)
        }
        Row::Bltu => branch(i, pc, registers.get(i.rs1) < registers.get(i.rs2)),
        Row::Bgeu => branch(i, pc, registers.get(i.rs1) >= registers.get(i.rs2)),
        Row::Lb => load!(1, signed_byte_in, i, pc, registers, memory, base),
        Row::Lh => load!(2, signed_half_in, i, pc, registers, memory, base),
        Row::Lw => load!(4, word_in, i, pc, registers, memory, base),
        Row::Lbu => load!(1, byte_in, i, pc, registers, memory, base),
        Row::Lhu => load!(2, half_in, i, pc, registers, memory, base),
        Row::Sb => store!(1, put_byte, i, pc, registers, memory, base),
        Row::Sh => store!(2, put_half, i, pc, registers, memory, base),
        Row::Sw => store!(4, put_word, i, pc, registers, memory, base),
        Row::Addi => of_immediate!(sum, i, pc, registers),
        Row::Slti => of_immediate!(less, i, pc, registers),
        Row::Sltiu => of_immediate!(less_unsigned, i, pc, registers),
        Row::Xori => write(i, pc, registers.get(i.rs1) ^ i.immediate, registers),
        Row::Ori => write(i, pc, registers.get(i.rs1) | i.immediate, registers),
        Row::Andi => write(i, pc, registers.get(i.rs1) & i.immediate, registers),
        Row::Slli => of_immediate!(shifted_left, i, pc, registers),
        Row::Srli => of_immediate!(shifted_right, i, pc, registers),
        Row::Srai => of_immediate!(shifted_right_signed, i, pc, registers),
        Row::Add => of_registers!(sum, i, pc, registers),
        Row::Sub => of_registers!(difference, i, pc, registers),
        Row::Sll => of_registers!(shifted_left, i, pc, registers),
        Row::Slt => of_registers!(less, i, pc, registers),
        Row::Sltu => of_registers!(less_unsigned, i, pc, registers),
        Row::Xor => write(
            i,
            pc,
            registers.get(i.rs1) ^ registers.get(i.rs2),
            registers,
        ),
        Row::Srl => of_registers!(shifted_right, i, pc, registers),
        Row::Sra => of_registers!(shifted_right_signed, i, pc, registers),
        Row::Or => write(
            i,
            pc,
            registers.get(i.rs1) | registers.get(i.rs2),
            registers,
        ),
        Row::And => write(
            i,
            pc,
            registers.get(i.rs1) & registers.get(i.rs2),
            registers,
        ),
        Row::Mul => of_registers!(product, i, pc, registers),
        Row::Mulh => of_registers!(high_product, i, pc, registers),
        Row::Mulhsu => of_registers!(high_product_mixed, i, pc, registers),
        Row::Mulhu => of_registers!(high_product_unsigned, i, pc, registers),
        Row::Div => of_registers!(quotient, i, pc, registers),
        Row::Divu => of_registers!(quotient_unsigned, i, pc, registers),
        Row::Rem => of_registers!(remainder, i, pc, registers),
        Row::Remu => of_registers!(remainder_unsigned, i, pc, registers),
        Row::Fence => Some(pc.next()),
        Row::Ecall | Row::Ebreak => None,
    }
}
