//! Types and their relations, with what C11 says of each.

use c_tree::typed::{Base, CType, Derived};
use c_type_rules::{
    TypeShape, alike, compatible, composite, constant_if, copied, derived_from, element, in_word,
    is_array, is_bool, is_character, is_constant, is_function, is_integer, is_pointer, is_scalar,
    is_struct, is_void, lend, plain, pointer_to, same_type, shape, target, target_of, unqualified,
    with_constant,
};
use std::alloc::Global;
use std::test::Fail;
use word_ops::{Items, Memory};

/// A base type, and whether it is an integer type, `void`, a structure type, `_Bool` and a character type.
static KINDS: [(Base, [bool; 5]); 6] = [
    (Base::Int, [true, false, false, false, false]),
    (Base::Enum(0), [true, false, false, false, false]),
    (Base::Void, [false, true, false, false, false]),
    (Base::Struct(3), [false, false, true, false, false]),
    (Base::Bool, [true, false, false, true, false]),
    (Base::SignedChar, [true, false, false, false, true]),
];

fn kinds(t: &CType) -> [bool; 5] {
    [
        is_integer(t),
        is_void(t),
        is_struct(t),
        is_bool(t),
        is_character(t),
    ]
}

#[test]
fn base_types_have_kinds(rt: HostRuntime) {
    for (row, (base, wanted)) in KINDS.iter().enumerate() {
        let t = plain(rt.alloc(), *base);
        assert!(rt; kinds(&t) == *wanted, "row {row}");
    }
}

/// An array of three `int`, or of a number that is not told.
fn array(alloc: Global, count: Option<u64>) -> Result<CType, Memory> {
    derived_from(plain(alloc, Base::Int), Derived::Array(count))
}

#[test]
fn derived_types_have_kinds(rt: HostRuntime) -> Result<(), Fail> {
    let t = pointer_to(false, plain(rt.alloc(), Base::Int))?;
    assert!(rt; is_pointer(&t) && is_scalar(&t) && !is_integer(&t));
    let t = derived_from(t, Derived::Array(None))?;
    assert!(rt; is_array(&t) && !is_scalar(&t));
    let t = derived_from(t, Derived::Function(Items::new(rt.alloc())))?;
    assert!(rt; is_function(&t) && !is_scalar(&t));
    Ok(())
}

/// An array has the qualifier of its elements (C11 6.7.3p9).
#[test]
fn arrays_are_qualified_as_their_elements(rt: HostRuntime) -> Result<(), Fail> {
    let t = with_constant(true, array(rt.alloc(), Some(3))?);
    assert!(rt; t.constant && is_constant(&t) && lend(&t).is_constant());
    let t = unqualified(t);
    assert!(rt; !t.constant && !is_constant(&t));
    assert!(rt; is_constant(&constant_if(true, t)));
    Ok(())
}

/// One of the arrays tells no number of elements (C11 6.7.6.2p6, 6.2.7p3).
#[test]
fn arrays_are_compared(rt: HostRuntime) -> Result<(), Fail> {
    let t = array(rt.alloc(), Some(3))?;
    let u = array(rt.alloc(), None)?;
    assert!(rt; compatible(&t, &u) && alike(&u, &t) && !same_type(&t, &u));
    let whole = composite(rt.alloc(), &u, &t);
    drop(u);
    assert!(rt; same_type(&whole?, &t));
    Ok(())
}

#[test]
fn enumerated_types_are_compatible_with_int(rt: HostRuntime) {
    let t = plain(rt.alloc(), Base::Enum(2));
    assert!(rt; compatible(&t, &plain(rt.alloc(), Base::Int)));
    assert!(rt; !same_type(&t, &plain(rt.alloc(), Base::Int)));
    assert!(rt; !compatible(&t, &plain(rt.alloc(), Base::Enum(3))));
    let t = constant_if(true, t);
    assert!(rt; !compatible(&t, &plain(rt.alloc(), Base::Int)));
    assert!(rt; alike(&t, &plain(rt.alloc(), Base::Int)));
}

#[test]
fn pointers_have_targets(rt: HostRuntime) -> Result<(), Fail> {
    let t = pointer_to(true, plain(rt.alloc(), Base::Short))?;
    assert!(rt; matches!(shape(&t), TypeShape::PointerTo(true, _)));
    assert!(rt; target_of(&t).is_some() && element(copied(rt.alloc(), &t)?).is_none());
    assert!(rt; target(t).map(|short| short.base) == Some(Base::Short));
    Ok(())
}

#[test]
fn arrays_have_elements(rt: HostRuntime) -> Result<(), Fail> {
    let t = array(rt.alloc(), Some(3))?;
    assert!(rt; target_of(&t).is_none());
    assert!(rt; element(t).is_some());
    Ok(())
}

#[test]
fn numbers_of_bytes_are_kept_in_a_word(rt: HostRuntime) {
    assert_eq!(rt; in_word(0xffff_ffff), 0xffff_ffff);
    assert_eq!(rt; in_word(0x1_0000_0000), 0xffff_ffff);
}
