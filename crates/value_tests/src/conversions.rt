//! Conversions of arithmetic types, with what C11 says of each (C11 6.3.1).

use c_tree::IntKind;
use c_tree::typed::{Base, Conversion, Scalar, Sign};
use c_type_rules::{
    base_of_constant, common, conversion_to, integer_rank, is_signed, plain, pointer_to, promoted,
    scalar_of, sign_of, width_of_base,
};
use std::test::Fail;
use word_ops::Width;

/// A type, its rank, whether it is signed, its promoted type and its width.
type Row = (Base, u8, bool, Base, Width);

static INTEGERS: [Row; 11] = [
    (Base::Bool, 0, false, Base::Int, Width::U8),
    (Base::Char, 1, false, Base::Int, Width::U8),
    (Base::SignedChar, 1, true, Base::Int, Width::S8),
    (Base::UnsignedChar, 1, false, Base::Int, Width::U8),
    (Base::Short, 2, true, Base::Int, Width::S16),
    (Base::UnsignedShort, 2, false, Base::Int, Width::U16),
    (Base::Int, 3, true, Base::Int, Width::Word),
    (Base::Enum(4), 3, true, Base::Int, Width::Word),
    (Base::Unsigned, 3, false, Base::Unsigned, Width::Word),
    (Base::Long, 4, true, Base::Long, Width::Word),
    (
        Base::UnsignedLong,
        4,
        false,
        Base::UnsignedLong,
        Width::Word,
    ),
];

#[test]
fn integer_types_are_promoted(rt: HostRuntime) {
    for (row, (base, rank, signed, after, width)) in INTEGERS.iter().enumerate() {
        assert_eq!(rt; integer_rank(*base), *rank, "row {row}");
        assert_eq!(rt; is_signed(*base), *signed, "row {row}");
        assert!(rt; promoted(*base) == *after, "row {row}");
        assert_eq!(rt; width_of_base(*base), *width, "row {row}");
    }
    assert!(rt; sign_of(Base::Char) == Sign::Unsigned);
    assert!(rt; base_of_constant(IntKind::UnsignedLong) == Base::UnsignedLong);
}

/// The usual arithmetic conversions (C11 6.3.1.8p1), where `int` and `long` have four bytes.
static COMMON: [(Base, Base, Base); 7] = [
    (Base::Char, Base::Bool, Base::Int),
    (Base::Int, Base::Unsigned, Base::Unsigned),
    (Base::Enum(1), Base::Long, Base::Long),
    (Base::Short, Base::UnsignedLong, Base::UnsignedLong),
    (Base::Unsigned, Base::Long, Base::UnsignedLong),
    (Base::Unsigned, Base::UnsignedLong, Base::UnsignedLong),
    (Base::Long, Base::UnsignedLong, Base::UnsignedLong),
];

#[test]
fn operands_are_brought_to_their_common_type(rt: HostRuntime) {
    for (row, (left, right, whole)) in COMMON.iter().enumerate() {
        assert!(rt; common(*left, *right) == *whole, "row {row}");
        assert!(rt; common(*right, *left) == *whole, "row {row}");
    }
}

#[test]
fn pointers_are_kept_as_words(rt: HostRuntime) -> Result<(), Fail> {
    let pointer = pointer_to(false, plain(rt.alloc(), Base::Bool))?;
    assert!(rt; matches!(scalar_of(&pointer), Some(Scalar::Pointer)));
    assert!(rt; matches!(conversion_to(&pointer), Conversion::Pointer));
    Ok(())
}
