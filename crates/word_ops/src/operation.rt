//! The names of the operations on words and of the widths of accesses, which core code, terms and machine
//! code have in common.

/// The operations on words.
///
/// Those that end in `s` read their operands as signed, those in `u` as unsigned; the extensions have
/// one operand and ignore the second.
#[derive(Clone, Copy, Debug, PartialEq, Eq, Hash)]
pub enum Op {
    /// the sum modulo 2^32
    Add,
    /// the difference modulo 2^32
    Sub,
    /// the product modulo 2^32
    Mul,
    /// the signed sum, undefined where it overflows
    Adds,
    /// the signed difference, undefined where it overflows
    Subs,
    /// the signed product, undefined where it overflows
    Muls,
    /// the signed quotient towards zero
    Divs,
    /// the signed remainder, with the sign of the dividend
    Rems,
    /// the unsigned quotient
    Divu,
    /// the unsigned remainder
    Remu,
    /// bitwise and
    And,
    /// bitwise or
    Or,
    /// bitwise exclusive or
    Xor,
    /// the shift to the left modulo 2^32
    Shl,
    /// the signed shift to the left, undefined where it overflows
    Shls,
    /// the shift to the right that brings zeros in
    Shru,
    /// the shift to the right that brings the sign in
    Shrs,
    /// 1 where the operands are equal, else 0
    Eq,
    /// 0 where the operands are equal, else 1
    Ne,
    /// 1 where the first is less as signed, else 0
    Lts,
    /// 1 where the first is less or equal as signed, else 0
    Les,
    /// 1 where the first is less as unsigned, else 0
    Ltu,
    /// 1 where the first is less or equal as unsigned, else 0
    Leu,
    /// the low 8 bits
    Zext8,
    /// the low 8 bits, extended with their sign
    Sext8,
    /// the low 16 bits
    Zext16,
    /// the low 16 bits, extended with their sign
    Sext16,
}

/// The width of an access to memory, and how a number that is read is extended to a word.
#[derive(Clone, Copy, Debug, PartialEq, Eq, Hash)]
pub enum Width {
    /// one byte, extended with zeros
    U8,
    /// one byte, extended with its sign
    S8,
    /// two bytes, extended with zeros
    U16,
    /// two bytes, extended with their sign
    S16,
    /// four bytes, the only width that holds a pointer
    Word,
}

impl Width {
    ghost use Rattle.std.specs.Prelude.{◌≡◌};
    ghost use Rattle.word_ops.specs.Access.{bytes_of};

    /// How many bytes an access of this width takes, which is also the alignment that it asks for: 1, 2 or 4
    /// (C11 6.2.8, 6.5.3.4).
    pub fn bytes(self) -> u32
        ensures { result ≡ bytes_of self }
    {
        match self {
            Width::U8 | Width::S8 => 1,
            Width::U16 | Width::S16 => 2,
            Width::Word => 4,
        }
    }
}
