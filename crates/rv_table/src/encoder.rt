//! From instructions to words: the fixed bits of the row and the bits of the operands.
ghost use Rattle.std.specs.Prelude.{◌≡◌, ◌<◌};
ghost use Rattle.rv_table.specs.Fields.{operands};
ghost use Rattle.rv_table.specs.Instruction.{Valid, encode_of};

use crate::instruction::Instr;
use crate::table::{Format, entry_of};

/// The word of a valid instruction.
pub fn encode(i: &Instr) -> u32
    requires { Valid i.now }
    ensures { result ≡ encode_of i.now }
{
    let entry = entry_of(i.row);
    entry.pattern + operands_of(entry.format, i)
}

/// The bits of the operands in a word of a format.
fn operands_of(format: Format, i: &Instr) -> u32
    requires rd { i.now.rd < 32 }
    requires rs1 { i.now.rs1 < 32 }
    requires rs2 { i.now.rs2 < 32 }
    ensures { result ≡ operands format i.now }
{
    let bits = i.imm.cast_unsigned();
    let registers = i.rs2 * 0x10_0000 + i.rs1 * 0x8000;
    match format {
        Format::R => registers + i.rd * 128,
        Format::I => bits % 4096 * 0x10_0000 + i.rs1 * 0x8000 + i.rd * 128,
        Format::S => bits % 4096 / 32 * 0x200_0000 + registers + bits % 32 * 128,
        Format::B => {
            let u = bits % 8192;
            u / 4096 * 0x8000_0000
                + u / 32 % 64 * 0x200_0000
                + registers
                + u / 2 % 16 * 256
                + u / 2048 % 2 * 128
        }
        Format::U => bits / 4096 * 4096 + i.rd * 128,
        Format::J => {
            let u = bits % 0x20_0000;
            u / 0x10_0000 * 0x8000_0000
                + u / 2 % 1024 * 0x20_0000
                + u / 2048 % 2 * 0x10_0000
                + u / 4096 % 256 * 4096
                + i.rd * 128
        }
        Format::Shift => bits % 32 * 0x10_0000 + i.rs1 * 0x8000 + i.rd * 128,
        Format::Whole => 0,
    }
}
