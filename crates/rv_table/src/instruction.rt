//! Instructions as data, and which of them have a word.
ghost use Rattle.std.specs.Prelude.{◌↔◌, IsTrue};
ghost use Rattle.rv_table.specs.Fields.{Fits, Within};
ghost use Rattle.rv_table.specs.Instruction.{Valid};

use crate::row::Row;
use crate::table::{Format, entry_of};

/// An instruction: its row and its operands. A field that the format of the row lacks is 0.
///
/// The immediate of U is the word with its low 12 bits clear, that of a shift by an immediate is the
/// amount. FENCE has the fields of I, and any of them are right.
#[derive(Clone, Copy, Debug, PartialEq, Eq)]
pub struct Instr {
    pub row: Row,
    pub rd: u32,
    pub rs1: u32,
    pub rs2: u32,
    pub imm: i32,
}

/// Whether an instruction has a word: registers below 32, an immediate in the range and step of the
/// format, and 0 in the fields that the format lacks.
pub fn valid(i: &Instr) -> bool
    ensures { IsTrue result ↔ Valid i.now }
{
    i.rd < 32 && i.rs1 < 32 && i.rs2 < 32 && fits(entry_of(i.row).format, i)
}

fn fits(format: Format, i: &Instr) -> bool
    ensures { IsTrue result ↔ Fits format i.now }
{
    let bits = i.imm.cast_unsigned();
    match format {
        Format::R => i.imm == 0,
        Format::I => i.rs2 == 0 && within(2048, i.imm),
        Format::S => i.rd == 0 && within(2048, i.imm),
        Format::B => i.rd == 0 && within(4096, i.imm) && bits % 2 == 0,
        Format::U => i.rs1 == 0 && i.rs2 == 0 && within(0x8000_0000, i.imm) && bits % 4096 == 0,
        Format::J => i.rs1 == 0 && i.rs2 == 0 && within(0x10_0000, i.imm) && bits % 2 == 0,
        Format::Shift => i.rs2 == 0 && i.imm == (bits % 32) as i32,
        Format::Whole => i.rd == 0 && i.rs1 == 0 && i.rs2 == 0 && i.imm == 0,
    }
}

/// Whether an immediate is from -half up to half.
fn within(half: u32, imm: i32) -> bool
    ensures { IsTrue result ↔ Within half imm }
{
    if imm < 0 {
        (!imm as u32) < half
    } else {
        (imm as u32) < half
    }
}
