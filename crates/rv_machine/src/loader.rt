//! From images to machines: where text, data and stack lie, and what memory and registers hold at first.
ghost use Rattle.std.specs.Prelude.{◌≡◌, ◌+◌, ◌-◌, ◌^◌, ◌≤◌, ◌++◌, length, replicate, IfOk};
ghost use Rattle.image_form.specs.Limits.{IsWithinLimits};
ghost use Rattle.rv_machine.specs.Start.{loaded, up_to_eight};

use crate::decoded::decode_text;
use crate::machine::Machine;
use crate::pc::Pc;
use crate::registers::Registers;
use image_form::Image;
use std::alloc::Global;
use word_ops::Memory;

/// The machine of an image before its first step: the text at 0x10000, the data at the next multiple of
/// 8, the stack at the multiple of 8 after that, the gap and the stack zero, all registers zero, and pc
/// at the entry.
///
/// It takes all memory of the run.
///
/// # Errors
///
/// `Memory` where memory for the text, the data or the stack is wanting.
pub fn load(alloc: Global, image: &Image) -> Result<Machine, Memory>
    requires { IsWithinLimits image.now }
    ensures { IfOk result (λ machine. machine ≡ loaded image.now) }
{
    let words = image.text.as_slice();
    let text = Vec::from_slice(alloc, words)?;
    let code = decode_text(alloc, words)?;
    let memory = memory_of(alloc, image.statics.as_slice(), image.stack)?;
    let base = next_eight(0x10000 + 4 * words.len() as u32);
    Ok(Machine {
        text,
        code,
        registers: Registers::new(),
        pc: Pc::at(image.entry).unwrap(),
        base,
        memory,
    })
}

/// The data, and zeros for the gap after it and the stack.
fn memory_of(alloc: Global, statics: &[u8], stack: u32) -> Result<Vec<u8>, Memory>
    requires statics { length statics.now ≤ 2 ^ 24 }
    requires stack { stack ≤ 2 ^ 30 }
    ensures { IfOk result (λ memory. memory.items ≡ statics.now ++ replicate (up_to_eight (length statics.now) + stack - length statics.now) 0) }
{
    let size = next_eight(statics.len() as u32) + stack;
    let mut memory = Vec::with_capacity(alloc, size as usize)?;
    memory.extend_from_slice(statics)?;
    memory.resize(size as usize, 0)?;
    Ok(memory)
}

/// The next multiple of 8.
fn next_eight(n: u32) -> u32
    requires { n ≤ 2 ^ 31 }
    ensures { result ≡ up_to_eight n }
{
    (n + 7) / 8 * 8
}
