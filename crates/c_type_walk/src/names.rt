//! Names and their places in lists.
//! No walk and no row.

ghost use Rattle.std.specs.Prelude.{◌≡◌, IfOk};
ghost use Rattle.c_typing.specs.Scopes as spec;

use indexed_list::IndexedList;
use std::alloc::Global;
use word_ops::{Memory, Text};

/// A text of the same bytes.
///
/// # Errors
///
/// `Memory` where memory for it is wanting.
pub fn copied_text(alloc: Global, text: &Text) -> Result<Text, Memory>
    ensures { IfOk result (λ copy. copy ≡ text.now) }
{
    Ok(Text::from_vec(Vec::from_slice(alloc, text.as_slice())?))
}

/// The place of the first name in a list that is this one, from 0.
///
/// # Errors
///
/// `Memory` where the place is not below 2^32.
pub fn number_in(names: &IndexedList<Text>, name: &Text) -> Result<Option<u32>, Memory>
    ensures { IfOk result (λ n. n ≡ spec.number_in 0 names.now name.now) }
{
    match names.place_of(name) {
        None => Ok(None),
        Some(place) => match u32::try_from(place) {
            Ok(number) => Ok(Some(number)),
            Err(_) => Err(Memory),
        },
    }
}
