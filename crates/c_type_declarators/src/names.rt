//! Identifiers and their places.
//! No rows: what stands for the name where there is none.

ghost use Rattle.std.specs.Prelude.{◌≡◌, IfOk};
ghost use Rattle.std.specs.Option.{option_copied};
ghost use Rattle.c_typing.specs.Declarators as spec;

use c_tree::{Identifier, Pos};
use c_type_walk::copied_text;
use std::alloc::Global;
use word_ops::Memory;

/// An identifier of the same text at the same place.
///
/// # Errors
///
/// `Memory` where memory for it is wanting.
pub fn copied_identifier(alloc: Global, identifier: &Identifier) -> Result<Identifier, Memory>
    ensures { IfOk result (λ copy. copy ≡ identifier.now) }
{
    Ok(Identifier {
        text: copied_text(alloc, &identifier.text)?,
        place: identifier.place,
    })
}

/// The place of a name, or of a tag, or what stands for it where there is none.
pub fn name_place(name: Option<&Identifier>, place: Pos) -> Pos
    ensures name { result ≡ spec.name_place (option_copied name.entry) place }
    ensures tag { result ≡ spec.tag_place (option_copied name.entry) place }
{
    match name {
        Some(identifier) => identifier.place,
        None => place,
    }
}
