//! The sizes of static objects.
//! No walk of trees: how many bytes have to be kept of one.

ghost use Rattle.std.specs.Prelude.{◌≡◌};
ghost use Rattle.c_type_walk.specs.Walks.{fixed};
ghost use Rattle.c_typing.specs.Starts as spec;

use c_layout::size;
use c_type_rules::in_word;
use c_type_walk::{Around, Found};
use word_ops::Text;

/// The size of a static object by its number in the unit, as far as it is known here.
pub(crate) fn static_size(found: &Found, around: &Around<'_>, number: u32) -> u32
    ensures { result ≡ spec.static_size (fixed around.now) found.now.state number }
{
    let number = number as usize;
    let objects = around.objects.len();
    if number < objects {
        match around.objects.get(number) {
            Some(name) => linked_size(found, around, name),
            None => 0,
        }
    } else {
        match found.state.statics.get(number - objects) {
            Some(one) => one.object.size,
            None => 0,
        }
    }
}

fn linked_size(found: &Found, around: &Around<'_>, name: &Text) -> u32
    ensures { result ≡ spec.linked_size (fixed around.now) found.now.state name.now }
{
    match found.linkage(name) {
        Some(linkage) => in_word(size(&linkage.ctype, &found.state.structs).unwrap_or(0)),
        None => 0,
    }
}
