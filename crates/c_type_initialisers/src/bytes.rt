//! Bytes of static objects (C11 6.7.9p4, p10).
//! No walk: the bytes of numbers and of strings, and the places that they fill.

ghost use Rattle.std.specs.Prelude.{◌≡◌, ◌∷◌, [], IfOk};
ghost use Rattle.c_typing.specs.Starts as spec;

use c_tree::typed::{Scalar, StaticPart};
use std::alloc::Global;
use word_ops::{Items, Memory, Text, Width};

/// A number as the bytes of an object; there is nothing to write where it is zero.
pub(crate) fn number_parts(
    alloc: Global,
    offset: u32,
    scalar: Scalar,
    number: u32,
) -> Result<Items<StaticPart>, Memory>
    ensures { IfOk result (λ parts. parts ≡ spec.number_parts offset scalar number) }
{
    if number == 0 {
        Ok(Items::new(alloc))
    } else {
        let bytes = little_endian(alloc, scalar_bytes(scalar), number)?;
        one_part(alloc, StaticPart::Bytes(offset, bytes))
    }
}

/// The bytes of a string that initialises an array; there is nothing to write where there are none.
pub(crate) fn text_parts(
    alloc: Global,
    offset: u32,
    bytes: Text,
) -> Result<Items<StaticPart>, Memory>
    ensures { IfOk result (λ parts. parts ≡ spec.text_parts offset bytes) }
{
    if bytes.as_slice().is_empty() {
        drop(bytes);
        Ok(Items::new(alloc))
    } else {
        one_part(alloc, StaticPart::Bytes(offset, bytes))
    }
}

/// One part alone.
pub(crate) fn one_part(alloc: Global, part: StaticPart) -> Result<Items<StaticPart>, Memory>
    ensures { IfOk result (λ parts. parts ≡ part ∷ []) }
{
    let mut parts = Items::new(alloc);
    if parts.push(part).is_err() {
        drop(parts);
        return Err(Memory);
    }
    Ok(parts)
}

/// The lowest bytes of a number, the lowest first.
fn little_endian(alloc: Global, count: u8, number: u32) -> Result<Text, Memory>
    ensures { IfOk result (λ bytes. bytes ≡ spec.little_endian count number) }
{
    let mut rest = number;
    let mut bytes = Vec::new(alloc);
    for _place in 0..count {
        bytes.push((rest % 256) as u8)?;
        rest /= 256;
    }
    Ok(Text::from_vec(bytes))
}

fn scalar_bytes(scalar: Scalar) -> u8
    ensures { result ≡ spec.scalar_bytes scalar }
{
    match scalar {
        Scalar::Integer(Width::U8 | Width::S8) => 1,
        Scalar::Integer(Width::U16 | Width::S16) => 2,
        Scalar::Integer(Width::Word) => 4,
        Scalar::Pointer => 4,
    }
}
