//! The table of the instructions: the format of each and the bits that it fixes.
ghost use Rattle.std.specs.Prelude.{◌≡◌};
ghost use Rattle.rv_table.specs.Table.{instruction_table, mask, matches};

use crate::row::Row;

/// Where the fields of an instruction's word stand.
///
/// RISC-V unprivileged manual, chapter "RV32I Base Integer Instruction Set", sections "Base Instruction
/// Formats" and "Immediate Encoding Variants".
#[derive(Clone, Copy, Debug, PartialEq, Eq)]
pub enum Format {
    /// funct7, rs2, rs1, funct3, rd, opcode
    R,
    /// imm\[11:0\], rs1, funct3, rd, opcode
    I,
    /// imm\[11:5\], rs2, rs1, funct3, imm\[4:0\], opcode
    S,
    /// imm\[12|10:5\], rs2, rs1, funct3, imm\[4:1|11\], opcode
    B,
    /// imm\[31:12\], rd, opcode
    U,
    /// imm\[20|10:1|11|19:12\], rd, opcode
    J,
    /// as R, with a shift amount from 0 to 31 in the place of rs2
    Shift,
    /// no fields: the whole word is fixed
    Whole,
}

/// What the table says of a row: the format of its words, and their fixed bits.
#[derive(Clone, Copy, Debug, PartialEq, Eq)]
pub struct Entry {
    pub format: Format,
    pub pattern: u32,
}

macro_rules! entries {
    ($row:expr, $($name:ident $format:ident $pattern:expr),*) => {
        match $row {
            $(Row::$name => Entry {
                format: Format::$format,
                pattern: $pattern,
            },)*
        }
    };
}

/// The entry of a row.
pub fn entry_of(row: Row) -> Entry
    ensures { result ≡ instruction_table row }
{
    entries!(
        row,
        Lui U 0x37,
        Auipc U 0x17,
        Jal J 0x6f,
        Jalr I 0x67,
        Beq B 0x63,
        Bne B 0x1063,
        Blt B 0x4063,
        Bge B 0x5063,
        Bltu B 0x6063,
        Bgeu B 0x7063,
        Lb I 0x3,
        Lh I 0x1003,
        Lw I 0x2003,
        Lbu I 0x4003,
        Lhu I 0x5003,
        Sb S 0x23,
        Sh S 0x1023,
        Sw S 0x2023,
        Addi I 0x13,
        Slti I 0x2013,
        Sltiu I 0x3013,
        Xori I 0x4013,
        Ori I 0x6013,
        Andi I 0x7013,
        Slli Shift 0x1013,
        Srli Shift 0x5013,
        Srai Shift 0x4000_5013,
        Add R 0x33,
        Sub R 0x4000_0033,
        Sll R 0x1033,
        Slt R 0x2033,
        Sltu R 0x3033,
        Xor R 0x4033,
        Srl R 0x5033,
        Sra R 0x4000_5033,
        Or R 0x6033,
        And R 0x7033,
        Mul R 0x0200_0033,
        Mulh R 0x0200_1033,
        Mulhsu R 0x0200_2033,
        Mulhu R 0x0200_3033,
        Div R 0x0200_4033,
        Divu R 0x0200_5033,
        Rem R 0x0200_6033,
        Remu R 0x0200_7033,
        Fence I 0xf,
        Ecall Whole 0x73,
        Ebreak Whole 0x0010_0073
    )
}

/// The bits that a row fixes.
pub fn mask_at(row: Row) -> u32
    ensures { result ≡ mask row }
{
    match entry_of(row).format {
        Format::R | Format::Shift => 0xfe00_707f,
        Format::I | Format::S | Format::B => 0x707f,
        Format::U | Format::J => 0x7f,
        Format::Whole => 0xffff_ffff,
    }
}

/// Whether a word has the fixed bits of a row.
pub fn is_match(row: Row, word: u32) -> bool
    ensures { result ≡ matches word row }
{
    word & mask_at(row) == entry_of(row).pattern
}
