//! The operations on words as functions: the word of each and where C leaves it undefined,
//! and what a machine gives in any case.

ghost use Rattle.std.specs.Prelude.{◌≡◌, ◌≤◌, ◌%◌};
ghost use Rattle.std.specs.Int.{int_shr};
ghost use Rattle.word_ops.specs.Word.{signed_value, word_of_integer, number_of_truth, narrowed};
ghost use Rattle.word_ops.specs.Operation.{machine_word, is_undefined, word_of_operation, signed_quotient, signed_remainder, unsigned_quotient, unsigned_remainder};

use crate::operation::Op;

/// The word of an operation on two words, or `None` exactly where C leaves it undefined (C11 6.3, 6.5).
///
/// Undefined are: a signed result out of the range of an `int` (6.5p5), a division by 0 and that of -2^31 by -1
/// (6.5.5p5, p6), a shift by 32 or more, and a signed shift to the left of a negative operand (6.5.7p3, p4).
pub fn apply(op: Op, a: u32, b: u32) -> Option<u32>
    ensures { result ≡ word_of_operation op a b }
{
    if leaves_undefined(op, a, b) {
        None
    } else {
        Some(machine(op, a, b))
    }
}

/// The word that a machine of the RISC-V base set with its extension M gives for an operation on two words.
///
/// Where the operation is defined, this is its word. Elsewhere sums, differences and products are those modulo 2^32, a
/// division by 0 gives a word of ones and the dividend as remainder, and a shift takes its distance modulo 32.
pub fn machine(op: Op, a: u32, b: u32) -> u32
    ensures { result ≡ machine_word op a b }
{
    match op {
        Op::Add | Op::Adds => a.wrapping_add(b),
        Op::Sub | Op::Subs => a.wrapping_sub(b),
        Op::Mul | Op::Muls => a.wrapping_mul(b),
        Op::Divs => divide_signed(a, b),
        Op::Rems => remainder_signed(a, b),
        Op::Divu => divide_unsigned(a, b),
        Op::Remu => remainder_unsigned(a, b),
        Op::And => a & b,
        Op::Or => a | b,
        Op::Xor => a ^ b,
        Op::Shl | Op::Shls => a.wrapping_shl(b),
        Op::Shru => a.wrapping_shr(b),
        Op::Shrs => shift_right_signed(a, b),
        Op::Eq => truth_word(a == b),
        Op::Ne => truth_word(a != b),
        Op::Lts => truth_word(a.cast_signed() < b.cast_signed()),
        Op::Les => truth_word(a.cast_signed() <= b.cast_signed()),
        Op::Ltu => truth_word(a < b),
        Op::Leu => truth_word(a <= b),
        Op::Zext8 => narrow::<8, false>(a),
        Op::Sext8 => narrow::<8, true>(a),
        Op::Zext16 => narrow::<16, false>(a),
        Op::Sext16 => narrow::<16, true>(a),
    }
}

/// The low `W` bits of a word, extended with zeros, or with copies of the highest of them where `S` holds (C11 6.3.1.3).
pub fn narrow<const W: u32, const S: bool>(a: u32) -> u32
    requires { (1 ≤ W) × (W ≤ 32) }
    ensures { result ≡ narrowed W S a }
{
    if W == 32 {
        return a;
    }
    let size = 1 << W;
    let low = a % size;
    if S && size / 2 <= low {
        low.wrapping_sub(size)
    } else {
        low
    }
}

/// Whether C leaves the operation on these words undefined.
fn leaves_undefined(op: Op, a: u32, b: u32) -> bool
    ensures { result ≡ is_undefined op a b }
{
    match op {
        Op::Adds => a.cast_signed().checked_add(b.cast_signed()).is_none(),
        Op::Subs => a.cast_signed().checked_sub(b.cast_signed()).is_none(),
        Op::Muls => a.cast_signed().checked_mul(b.cast_signed()).is_none(),
        Op::Divs | Op::Rems => b == 0 || (a == 0x8000_0000 && b == 0xffff_ffff),
        Op::Divu | Op::Remu => b == 0,
        Op::Shl | Op::Shru | Op::Shrs => 31 < b,
        Op::Shls => shift_overflows(a, b),
        _ => false,
    }
}

/// Whether a signed shift to the left has no result: too far, of a negative operand, or out of range.
fn shift_overflows(a: u32, b: u32) -> bool
    ensures { result ≡ is_undefined Op.Shls a b }
{
    31 < b || 0x8000_0000 <= a || 0x8000_0000 <= (a as u64) << b
}

fn divide_signed(a: u32, b: u32) -> u32
    ensures { result ≡ signed_quotient a b }
{
    if b == 0 {
        u32::MAX
    } else {
        a.cast_signed()
            .wrapping_div(b.cast_signed())
            .cast_unsigned()
    }
}

fn remainder_signed(a: u32, b: u32) -> u32
    ensures { result ≡ signed_remainder a b }
{
    if b == 0 {
        a
    } else {
        a.cast_signed()
            .wrapping_rem(b.cast_signed())
            .cast_unsigned()
    }
}

fn divide_unsigned(a: u32, b: u32) -> u32
    ensures { result ≡ unsigned_quotient a b }
{
    if b == 0 { u32::MAX } else { a / b }
}

fn remainder_unsigned(a: u32, b: u32) -> u32
    ensures { result ≡ unsigned_remainder a b }
{
    if b == 0 { a } else { a % b }
}

fn shift_right_signed(a: u32, b: u32) -> u32
    ensures { result ≡ word_of_integer (int_shr (signed_value a) (b % 32)) }
{
    a.cast_signed().wrapping_shr(b).cast_unsigned()
}

fn truth_word(holds: bool) -> u32
    ensures { result ≡ number_of_truth holds }
{
    if holds { 1 } else { 0 }
}
