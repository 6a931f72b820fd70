//! The image of a source of the first form: three words for each constant.
ghost use Rattle.std.specs.Prelude.{◌≡◌, ◌<◌, ◌≤◌, ◌*◌, ◌%◌, ◌^◌, ◌++◌, IfOk, OnOk, length};
ghost use Rattle.image_form.specs.Limits.{IsWithinLimits};
ghost use Rattle.rv_table.specs.Instruction.{encode_of};
ghost use Rattle.first_form.specs.Code.{call_words, environment_call, image_of, put_words, set_register, text_of};

use crate::form::Form;
use image_form::Image;
use rv_table::{Instr, Row, encode};
use std::alloc::Global;
use term_form::Listing;
use word_ops::{Items, Memory};

/// The address of the first word of the text.
const TEXT_START: u32 = 0x10000;

/// The register of an environment call's argument, and that of its number.
const ARGUMENT: u32 = 10;

const NUMBER: u32 = 17;

/// The environment calls that put a byte out and that end the program.
const PUT: u32 = 2;

const EXIT: u32 = 3;

/// The image that runs what a source of the first form says.
///
/// Its text has three words for each constant.
///
/// # Errors
///
/// `Memory` where memory for the words is wanting.
pub fn image(alloc: Global, form: &Form) -> Result<Image, Memory>
    requires { 5 * length form.now.puts ≤ 2 ^ 24 }
    ensures value { IfOk result (λ image. image ≡ image_of form.now.puts form.now.status) }
    ensures limits { IfOk result (λ image. IsWithinLimits image) }
{
    Ok(Image {
        text: Items::from_vec(text(alloc, form)?),
        statics: Items::new(alloc),
        stack: 0,
        entry: TEXT_START,
        listing: Listing {
            records: Items::new(alloc),
        },
    })
}

/// The words of the program.
fn text(alloc: Global, form: &Form) -> Result<Vec<u32>, Memory>
    ensures { IfOk result (λ text. text.items ≡ text_of form.now.puts form.now.status) }
{
    let mut text = Vec::new(alloc);
    for constant in form.puts.as_slice() {
        push_call(&mut text, PUT, *constant % 256)?;
    }
    push_call(&mut text, EXIT, form.status % 256)?;
    Ok(text)
}

/// Adds an environment call with a byte as its argument.
fn push_call(text: &mut Vec<u32>, number: u32, byte: u32) -> Result<(), Memory>
    requires number { number < 16 }
    requires byte { byte < 256 }
    ensures { OnOk result (text.new.items ≡ text.old.items ++ call_words number byte) }
{
    text.push(set(ARGUMENT, byte))?;
    text.push(set(NUMBER, number))?;
    text.push(call())?;
    Ok(())
}

/// The word that sets a register to a number.
fn set(rd: u32, value: u32) -> u32
    requires register { rd < 32 }
    requires value { value < 2 ^ 11 }
    ensures { result ≡ encode_of (set_register rd value) }
{
    encode(&Instr {
        row: Row::Addi,
        rd,
        rs1: 0,
        rs2: 0,
        imm: value as i32,
    })
}

/// The word of an environment call.
fn call() -> u32
    ensures { result ≡ encode_of environment_call }
{
    encode(&Instr {
        row: Row::Ecall,
        rd: 0,
        rs1: 0,
        rs2: 0,
        imm: 0,
    })
}
