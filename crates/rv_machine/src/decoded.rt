//! The text as the machine keeps it: decoded once, as it is loaded.
ghost use Rattle.std.specs.Prelude.{◌≡◌, IfOk, IsTrue};
ghost use Rattle.std.specs.List.{list_all};
ghost use Rattle.rv_machine.specs.Decoded.{decoded_of, is_in_range, program};

use rv_table::{Row, decode};
use std::alloc::Global;
use word_ops::Memory;

/// An instruction as the machine keeps it.
///
/// The slot is the number of the destination, or 32 for x0; the immediate is a word. A word that is no
/// instruction stands as EBREAK, which traps alike.
#[derive(Clone, Copy, Debug)]
pub struct Decoded {
    pub row: Row,
    pub slot: u8,
    pub rs1: u8,
    pub rs2: u8,
    pub immediate: u32,
}

fn decoded_at(word: u32) -> Decoded
    ensures value { result ≡ decoded_of word }
    ensures range { IsTrue (is_in_range result) }
{
    match decode(word) {
        Some(i) => Decoded {
            row: i.row,
            slot: if i.rd == 0 { 32 } else { i.rd as u8 },
            rs1: i.rs1 as u8,
            rs2: i.rs2 as u8,
            immediate: i.imm.cast_unsigned(),
        },
        None => Decoded {
            row: Row::Ebreak,
            slot: 32,
            rs1: 0,
            rs2: 0,
            immediate: 0,
        },
    }
}

/// The instructions of a text.
#[tactic(auto, unfolding(crate::specs::Decoded::program))]
pub fn decode_text(alloc: Global, text: &[u32]) -> Result<Vec<Decoded>, Memory>
    ensures value { IfOk result (λ code. code.items ≡ program text.now) }
    ensures range { IfOk result (λ code. IsTrue (list_all is_in_range code.items)) }
{
    let mut code = Vec::with_capacity(alloc, text.len())?;
    for word in text {
        code.push(decoded_at(*word))?;
    }
    Ok(code)
}
