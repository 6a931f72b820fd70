//! Writing an image, whose bytes reading gives back.
ghost use Rattle.std.specs.Prelude.{◌≡◌, ◌<◌, ◌^◌, ◌++◌, length, All, IfOk, OnOk};
ghost use Rattle.std.specs.List.{flat_map};
ghost use Rattle.image_form.specs.Limits.{IsRecord, IsWithinLimits};
ghost use Rattle.image_form.specs.Laws.{IsFileOf};
ghost use Rattle.image_form.specs.Bytes.{magic, number_bytes, record_bytes, bytes_of};

use crate::check::RECORD_BYTES;
use crate::image::Image;
use crate::words::record_words;
use std::alloc::Global;
use term_form::Record;
use word_ops::Memory;

fn put_number(out: &mut Vec<u8>, number: u32) -> Result<(), Memory>
    ensures bytes { OnOk result (out.new.items ≡ out.old.items ++ number_bytes number) }
    ensures fits { number < 2 ^ 32 }
{
    out.extend_from_slice(&number.to_le_bytes())?;
    Ok(())
}

fn put_numbers(out: &mut Vec<u8>, numbers: &[u32]) -> Result<(), Memory>
    ensures bytes { OnOk result (out.new.items ≡ out.old.items ++ flat_map number_bytes numbers.now) }
    ensures fits { All (λ w. w < 2 ^ 32) numbers.now }
{
    for number in numbers {
        put_number(out, *number)?;
    }
    Ok(())
}

fn put_bytes(out: &mut Vec<u8>, bytes: &[u8]) -> Result<(), Memory>
    ensures bytes { OnOk result (out.new.items ≡ out.old.items ++ bytes.now) }
    ensures fits { All (λ x. x < 2 ^ 8) bytes.now }
{
    out.extend_from_slice(bytes)?;
    Ok(())
}

fn put_records(out: &mut Vec<u8>, records: &[Record]) -> Result<(), Memory>
    ensures bytes { OnOk result (out.new.items ≡ out.old.items ++ flat_map record_bytes records.now) }
    ensures fits { OnOk result (All IsRecord records.now) }
{
    for listed in records {
        put_numbers(out, &record_words(listed))?;
    }
    Ok(())
}

/// The bytes of an image (`RVI1`): the magic, the sizes, the entry, the text, the data, the records.
///
/// Memory: the bytes, and no answer but want of it.
pub fn write(alloc: Global, image: &Image) -> Result<Vec<u8>, Memory>
    requires { IsWithinLimits image.now }
    ensures bytes { IfOk result (λ v. v.items ≡ bytes_of image.now) }
    // What is written is the file of the image, so reading gives the image again.
    ensures file { IfOk result (λ v. IsFileOf v.items image.now) }
{
    let records = image.listing.records.as_slice();
    let length = 24 + 4 * image.text.len() + image.statics.len() + RECORD_BYTES * records.len();
    let mut out = Vec::with_capacity(alloc, length)?;
    out.extend_from_slice(b"RVI1")?;
    put_number(&mut out, image.text.len() as u32)?;
    put_number(&mut out, image.statics.len() as u32)?;
    put_number(&mut out, image.stack)?;
    put_number(&mut out, image.entry)?;
    put_number(&mut out, records.len() as u32)?;
    put_numbers(&mut out, image.text.as_slice())?;
    put_bytes(&mut out, image.statics.as_slice())?;
    put_records(&mut out, records)?;
    Ok(out)
}
