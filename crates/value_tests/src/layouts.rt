//! Types that no source has, as gcc 12 measured them with `-m32 -funsigned-char` where it has them.

use crate::fixture::{Made, Member, structure, text, typed};
use c_layout::{Tags, align, member, member_offset, size};
use c_tree::typed::Base;
use std::alloc::Global;
use std::test::Fail;

/// A type, its size and its alignment; the structure 0 has no members, and there is no structure 1.
type Row = (Base, &'static [Made], Option<u64>, Option<u64>);

static ROWS: [Row; 7] = [
    (Base::Struct(1), &[], None, None),
    (
        Base::Int,
        &[Made::Function, Made::Pointer],
        Some(4),
        Some(4),
    ),
    (
        Base::Char,
        &[Made::Array(u64::MAX)],
        Some(u64::MAX),
        Some(1),
    ),
    (
        Base::Char,
        &[Made::Array(0x2_0000_0000), Made::Array(0x2_0000_0000)],
        Some(u64::MAX),
        Some(1),
    ),
    (
        Base::Short,
        &[Made::Array(0x4000_0000_0000_0000)],
        Some(0x8000_0000_0000_0000),
        Some(2),
    ),
    (
        Base::Short,
        &[Made::Array(0x8000_0000_0000_0000)],
        Some(u64::MAX),
        Some(2),
    ),
    (
        Base::Int,
        &[Made::Array(0x8000_0000_0000_0000), Made::Array(0)],
        Some(0),
        Some(4),
    ),
];

#[test]
fn types_that_no_source_has(rt: HostRuntime) -> Result<(), Fail> {
    let alloc = rt.alloc();
    let mut tags = Tags::new(alloc);
    let _open = tags.declare()?;
    for (base, made, bytes, alignment) in &ROWS {
        let t = typed(alloc, *base, made)?;
        assert_eq!(rt; size(&t, &tags), *bytes);
        assert_eq!(rt; align(&t, &tags), *alignment);
    }
    Ok(())
}

/// It has 2^64 - 5 bytes before `b`, which lies at 2^64 - 4, so `c` and `d` would lie at 2^64 and above.
static GREAT: [Member; 4] = [
    (b"a", Base::Char, &[Made::Array(0xffff_ffff_ffff_fffb)]),
    (b"b", Base::Int, &[]),
    (b"c", Base::Char, &[]),
    (b"d", Base::Int, &[Made::Array(0x8000_0000_0000_0000)]),
];

fn offset_of(alloc: Global, tag: u32, name: &[u8], tags: &Tags) -> Result<Option<u64>, Fail> {
    let name = text(alloc, name)?;
    let offset = member_offset(tag, &name, tags);
    let found = member(tag, &name, tags).map(|found| found.offset);
    Ok(if offset == found { offset } else { None })
}

#[test]
fn members_and_structures_that_are_not_there(rt: HostRuntime) -> Result<(), Fail> {
    let alloc = rt.alloc();
    let mut tags = Tags::new(alloc);
    let tag = structure(&rt, alloc, &mut tags, &GREAT)?;
    let open = tags.declare()?;
    assert_eq!(rt; (tag, open), (0, 1));
    assert!(rt; tags.layout(tag).is_some() && tags.layout(open).is_none());
    let whole = typed(alloc, Base::Struct(tag), &[])?;
    assert_eq!(rt; size(&whole, &tags), Some(u64::MAX));
    assert_eq!(rt; align(&whole, &tags), Some(4));
    let cases: [(u32, &[u8], Option<u64>); 7] = [
        (0, b"a", Some(0)),
        (0, b"b", Some(0xffff_ffff_ffff_fffc)),
        (0, b"c", Some(u64::MAX)),
        (0, b"d", Some(u64::MAX)),
        (0, b"", None),
        (1, b"a", None),
        (2, b"a", None),
    ];
    for (tag, name, offset) in cases {
        assert_eq!(rt; offset_of(alloc, tag, name, &tags)?, offset);
    }
    Ok(())
}
