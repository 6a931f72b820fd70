//! From words to instructions: the one row that a word can match is chosen by its opcode, funct3 and
//! funct7, and its operands are read.
ghost use Rattle.std.specs.Prelude.{◌≡◌, ◌+◌, ◌*◌, ◌^◌, ◌↔◌, ◌<◌, IfSome, IsNone};
ghost use Rattle.rv_table.specs.Fields.{bits_at};
ghost use Rattle.rv_table.specs.Table.{Matches};
ghost use Rattle.rv_table.specs.Candidate.{branch, by_opcode, candidate_of, immediate, load, multiply, plain, store};
ghost use Rattle.rv_table.specs.Instruction.{Valid, decode_of, encode_of, read, row_of};

use crate::fields::{field, signed};
use crate::instruction::Instr;
use crate::row::Row;
use crate::table::{Format, entry_of, is_match};

/// The instruction that a word is, or `None` where it matches no row.
pub fn decode(word: u32) -> Option<Instr>
    ensures value { result ≡ decode_of word }
    ensures found { IfSome result (λ i. Valid i × (encode_of i ≡ word)) }
    ensures none { IsNone result ↔ ((r : Row) → ¬ Matches word r) }
    ensures again { (i : Instr) → Valid i → encode_of i ≡ word → result ≡ Some i }
{
    read_word(word)
}

fn read_word(word: u32) -> Option<Instr>
    ensures { result ≡ decode_of word }
{
    row_at(word).map(|row| read_row(word, row))
}

/// The row that a word matches.
fn row_at(word: u32) -> Option<Row>
    ensures { result ≡ row_of word }
{
    match candidate(word) {
        Some(row) if is_match(row, word) => Some(row),
        _ => None,
    }
}

/// The one row that a word can match, by its opcode, funct3 and funct7.
fn candidate(word: u32) -> Option<Row>
    ensures { result ≡ candidate_of word }
{
    let funct3 = field::<12, 3>(word);
    let funct7 = field::<25, 7>(word);
    match field::<0, 7>(word) {
        0b011_0111 => Some(Row::Lui),
        0b001_0111 => Some(Row::Auipc),
        0b110_1111 => Some(Row::Jal),
        0b110_0111 => Some(Row::Jalr),
        0b110_0011 => branch_row(funct3),
        0b000_0011 => load_row(funct3),
        0b010_0011 => store_row(funct3),
        0b001_0011 => immediate_row(funct3, funct7),
        0b011_0011 if funct7 == 1 => multiply_row(funct3),
        0b011_0011 => plain_row(funct3, funct7),
        0b000_1111 => Some(Row::Fence),
        0b111_0011 if field::<20, 5>(word) == 0 => Some(Row::Ecall),
        0b111_0011 => Some(Row::Ebreak),
        _ => None,
    }
}

fn branch_row(funct3: u32) -> Option<Row>
    ensures { result ≡ branch funct3 }
{
    match funct3 {
        0 => Some(Row::Beq),
        1 => Some(Row::Bne),
        4 => Some(Row::Blt),
        5 => Some(Row::Bge),
        6 => Some(Row::Bltu),
        7 => Some(Row::Bgeu),
        _ => None,
    }
}

fn load_row(funct3: u32) -> Option<Row>
    ensures { result ≡ load funct3 }
{
    match funct3 {
        0 => Some(Row::Lb),
        1 => Some(Row::Lh),
        2 => Some(Row::Lw),
        4 => Some(Row::Lbu),
        5 => Some(Row::Lhu),
        _ => None,
    }
}

fn store_row(funct3: u32) -> Option<Row>
    ensures { result ≡ store funct3 }
{
    match funct3 {
        0 => Some(Row::Sb),
        1 => Some(Row::Sh),
        2 => Some(Row::Sw),
        _ => None,
    }
}

fn immediate_row(funct3: u32, funct7: u32) -> Option<Row>
    ensures { result ≡ immediate funct3 funct7 }
{
    match funct3 {
        0 => Some(Row::Addi),
        1 => Some(Row::Slli),
        2 => Some(Row::Slti),
        3 => Some(Row::Sltiu),
        4 => Some(Row::Xori),
        5 if funct7 == 0 => Some(Row::Srli),
        5 => Some(Row::Srai),
        6 => Some(Row::Ori),
        _ => Some(Row::Andi),
    }
}

fn plain_row(funct3: u32, funct7: u32) -> Option<Row>
    ensures { result ≡ plain funct3 funct7 }
{
    match funct3 {
        0 if funct7 == 0 => Some(Row::Add),
        0 => Some(Row::Sub),
        1 => Some(Row::Sll),
        2 => Some(Row::Slt),
        3 => Some(Row::Sltu),
        4 => Some(Row::Xor),
        5 if funct7 == 0 => Some(Row::Srl),
        5 => Some(Row::Sra),
        6 => Some(Row::Or),
        _ => Some(Row::And),
    }
}

fn multiply_row(funct3: u32) -> Option<Row>
    ensures { result ≡ multiply funct3 }
{
    match funct3 {
        0 => Some(Row::Mul),
        1 => Some(Row::Mulh),
        2 => Some(Row::Mulhsu),
        3 => Some(Row::Mulhu),
        4 => Some(Row::Div),
        5 => Some(Row::Divu),
        6 => Some(Row::Rem),
        _ => Some(Row::Remu),
    }
}

/// The instruction of a row whose fields a word has.
fn read_row(word: u32, row: Row) -> Instr
    ensures { result ≡ read word row }
{
    let rd = field::<7, 5>(word);
    let rs1 = field::<15, 5>(word);
    let rs2 = field::<20, 5>(word);
    let instr = |rd, rs1, rs2, imm| Instr {
        row,
        rd,
        rs1,
        rs2,
        imm,
    };
    match entry_of(row).format {
        Format::R => instr(rd, rs1, rs2, 0),
        Format::I => instr(rd, rs1, 0, signed::<2048>(field::<20, 12>(word))),
        Format::S => instr(0, rs1, rs2, signed::<2048>(field::<25, 7>(word) * 32 + rd)),
        Format::B => instr(0, rs1, rs2, signed::<4096>(branch_offset(word))),
        Format::U => instr(rd, 0, 0, (field::<12, 20>(word) * 4096).cast_signed()),
        Format::J => instr(rd, 0, 0, signed::<0x10_0000>(jump_offset(word))),
        Format::Shift => instr(rd, rs1, 0, rs2 as i32),
        Format::Whole => instr(0, 0, 0, 0),
    }
}

/// The 13 bits of a branch's immediate.
fn branch_offset(word: u32) -> u32
    ensures value { result ≡ bits_at 31 1 word * 2 ^ 12 + bits_at 7 1 word * 2 ^ 11 + bits_at 25 6 word * 2 ^ 5 + bits_at 8 4 word * 2 }
    ensures range { result < 2 ^ 13 }
{
    field::<31, 1>(word) * 0x1000
        + field::<7, 1>(word) * 0x800
        + field::<25, 6>(word) * 32
        + field::<8, 4>(word) * 2
}

/// The 21 bits of a jump's immediate.
fn jump_offset(word: u32) -> u32
    ensures value { result ≡ bits_at 31 1 word * 2 ^ 20 + bits_at 12 8 word * 2 ^ 12 + bits_at 20 1 word * 2 ^ 11 + bits_at 21 10 word * 2 }
    ensures range { result < 2 ^ 21 }
{
    field::<31, 1>(word) * 0x10_0000
        + field::<12, 8>(word) * 0x1000
        + field::<20, 1>(word) * 0x800
        + field::<21, 10>(word) * 2
}
