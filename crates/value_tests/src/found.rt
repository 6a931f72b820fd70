//! What typing has found, when scopes are closed and faults are told.
//! No rows and no walk.

use c_tree::{FaultKind, Pos};
use c_type_walk::{Found, number_in};
use c_typing::{Meaning, Tag};
use indexed_list::IndexedList;
use std::alloc::Global;
use std::test::Fail;
use word_ops::{Memory, Text};

fn name(alloc: Global, letter: u8) -> Result<Text, Memory> {
    Ok(Text::from_vec(vec![in alloc; letter]?))
}

fn declare(alloc: Global, found: &mut Found, letter: u8, tag: Tag) -> Result<(), Memory> {
    let key = name(alloc, letter)?;
    found.declare(alloc, &key, Meaning::Unknown)?;
    found.declare_tag(alloc, &key, tag)
}

/// Whether a letter is visible as an ordinary identifier, and what it stands for as a tag.
fn seen(alloc: Global, found: &Found, letter: u8) -> Result<(bool, Option<Tag>), Memory> {
    let key = name(alloc, letter)?;
    Ok((found.meaning(&key).is_some(), found.tag(&key)))
}

type Seen = (bool, Option<Tag>);

/// `a` outside, and then `a` and `b` in a scope: `a` and `b` in it, and behind it.
fn seen_in_scopes(alloc: Global, found: &mut Found) -> Result<[Seen; 4], Memory> {
    declare(alloc, found, b'a', Tag::EnumTag(0, true))?;
    let (names, tags) = (found.state.names.mark(), found.state.tags.mark());
    declare(alloc, found, b'a', Tag::StructTag(0, false))?;
    declare(alloc, found, b'b', Tag::EnumTag(1, false))?;
    let a = seen(alloc, found, b'a')?;
    let b = seen(alloc, found, b'b')?;
    found.close(names, tags);
    let behind = seen(alloc, found, b'a')?;
    let gone = seen(alloc, found, b'b')?;
    Ok([a, b, behind, gone])
}

#[test]
fn scopes_end_with_what_they_declare(rt: HostRuntime) -> Result<(), Fail> {
    let mut found = Found::new(rt.alloc());
    let answer = seen_in_scopes(rt.alloc(), &mut found);
    drop(found);
    let [a, b, behind, gone] = answer?;
    assert!(rt; a == (true, Some(Tag::StructTag(0, false))));
    assert!(rt; b == (true, Some(Tag::EnumTag(1, false))));
    assert!(rt; behind == (true, Some(Tag::EnumTag(0, true))));
    assert!(rt; gone == (false, None));
    Ok(())
}

fn told(found: &mut Found) -> Result<(usize, usize), Memory> {
    let place = Pos { line: 1, column: 2 };
    found.tell_if(false, FaultKind::Stray, place)?;
    found.tell_if(true, FaultKind::Mismatch, place)?;
    found.unready_if(true, FaultKind::StructValue, place)?;
    Ok((found.faults.len(), found.state.unready.len()))
}

#[test]
fn faults_are_told_where_their_test_holds(rt: HostRuntime) -> Result<(), Fail> {
    let mut found = Found::new(rt.alloc());
    let counts = told(&mut found);
    drop(found);
    assert_eq!(rt; counts?, (1, 1));
    Ok(())
}

/// The number of a letter among `f`, `g` and `g`.
fn number_among(
    alloc: Global,
    names: &IndexedList<Text>,
    letter: u8,
) -> Result<Option<u32>, Memory> {
    let key = name(alloc, letter)?;
    number_in(names, &key)
}

fn names(alloc: Global) -> Result<IndexedList<Text>, Memory> {
    let mut all = IndexedList::new(alloc);
    for letter in b"fgg" {
        all.push(alloc, name(alloc, *letter)?)?;
    }
    Ok(all)
}

#[test]
fn names_are_numbered_from_0(rt: HostRuntime) -> Result<(), Fail> {
    let names = names(rt.alloc())?;
    let second = number_among(rt.alloc(), &names, b'g');
    let none = number_among(rt.alloc(), &names, b'h');
    drop(names);
    assert_eq!(rt; second?, Some(1));
    assert_eq!(rt; none?, None);
    Ok(())
}
