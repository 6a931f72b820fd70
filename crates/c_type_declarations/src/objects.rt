//! Objects: what is known of one by its type (C11 6.2.4, 6.2.8, 6.5.3.4), and the size that an initialiser tells.
//! No walk: each answers one question of a type or an initialiser.

ghost use Rattle.std.specs.Prelude.{◌≡◌, IfOk};
ghost use Rattle.c_typing.specs.Declarations as spec;
ghost use Rattle.c_typing.specs.OfStatements as statements;
ghost use Rattle.c_typing.specs.Types as types;
ghost use Rattle.c_type_walk.specs.Walks.{Walks};

use c_layout::{Tags, align, size};
use c_tree::typed::{CType, Derived, Object, StaticObject, StaticPart};
use c_tree::{FaultKind, Pos};
use c_type_rules::{TypeShape, copied, derived_from, in_word, is_constant, scalar_of, shape};
use c_type_walk::{Around, Found};
use c_typing::{Local, State};
use std::alloc::Global;
use word_ops::{Items, Memory};

/// The largest size of a type in bytes.
const MOST_BYTES: u64 = 1 << 24;

/// An object of a type, and whether `&` is applied to it. Takes no memory.
pub fn object_of(structs: &Tags, addressed: bool, ctype: CType) -> Object
    ensures { result ≡ spec.object_of structs.now addressed ctype }
{
    Object {
        scalar: scalar_of(&ctype),
        size: in_word(size(&ctype, structs).unwrap_or(0)),
        alignment: in_word(align(&ctype, structs).unwrap_or(1)),
        constant: is_constant(&ctype),
        addressed,
        ctype,
    }
}

/// A static object of a type, and what stands in it as the program begins. Takes no memory.
pub fn static_object(structs: &Tags, ctype: CType, parts: Items<StaticPart>) -> StaticObject
    ensures { result ≡ spec.static_object structs.now ctype parts }
{
    StaticObject {
        object: object_of(structs, true, ctype),
        parts,
    }
}

/// Whether `&` is applied to the object of this number.
pub fn is_addressed(state: &State, number: u32) -> bool
    ensures { result ≡ statements.is_addressed state.now number }
{
    for one in state.addressed.as_slice() {
        if *one == number {
            return true;
        }
    }
    false
}

/// Whether a type is an array without a number of elements (C11 6.7.6.2p4).
pub(crate) fn is_open_array(ctype: &CType) -> bool
    ensures { result ≡ spec.is_open_shape (types.shape ctype.now) }
{
    matches!(shape(ctype), TypeShape::ArrayOf(None, _))
}

/// An array without a number of elements has as many as its initialiser tells (C11 6.7.9p22).
///
/// # Errors
///
/// `Memory` where memory is wanting.
pub(crate) fn counted(alloc: Global, ctype: CType, count: u64) -> Result<CType, Memory>
    ensures { IfOk result (λ r. r ≡ spec.counted ctype count) }
{
    let TypeShape::ArrayOf(None, element) = shape(&ctype) else {
        return Ok(ctype);
    };
    let element = element.copied(alloc);
    drop(ctype);
    derived_from(element?, Derived::Array(Some(count)))
}

/// The whole has at most 2^24 bytes, where the initialiser has told its size.
pub(crate) fn sized_row(
    alloc: Global,
    found: &mut Found,
    around: &Around<'_>,
    at: Pos,
    ctype: &CType,
) -> Result<Option<CType>, Memory>
    ensures { Walks (spec.sized_row at ctype.now) around.now found.old result found.new }
{
    if size(ctype, &found.state.structs).unwrap_or(0) > MOST_BYTES {
        return found.tell(around, FaultKind::TooLarge, at);
    }
    Ok(Some(copied(alloc, ctype)?))
}
