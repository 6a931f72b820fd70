//! A table by example: what inner scopes hide, and what is there again once they are left.
//! No rows and no walk.

use scope_map::ScopeMap;
use std::alloc::Global;
use std::test::Fail;
use word_ops::{Memory, Text};

type Table = ScopeMap<Text, u8>;

fn name(alloc: Global, letter: u8) -> Result<Text, Memory> {
    Ok(Text::from_vec(vec![in alloc; letter]?))
}

fn insert(alloc: Global, table: &mut Table, letter: u8, value: u8) -> Result<(), Memory> {
    table.insert(name(alloc, letter)?, value)
}

fn leave(table: &mut Table, mark: usize) {
    if mark <= table.mark() {
        table.leave(mark);
    }
}

fn value(alloc: Global, table: &Table, letter: u8) -> Result<Option<u8>, Memory> {
    let key = name(alloc, letter)?;
    Ok(table.get(&key).copied())
}

fn value_between(
    alloc: Global,
    table: &Table,
    marks: (usize, usize),
    letter: u8,
) -> Result<Option<u8>, Memory> {
    let key = name(alloc, letter)?;
    Ok(table.get_between(marks.0, marks.1, &key).copied())
}

fn value_since(
    alloc: Global,
    table: &Table,
    mark: usize,
    letter: u8,
) -> Result<Option<u8>, Memory> {
    let key = name(alloc, letter)?;
    Ok(table.get_since(mark, &key).copied())
}

/// `a` is 1 outside, and in a scope it is 2 and `b` is 4; in the scope inside that `b` is 3. Gives the marks of the two.
fn declare_all(alloc: Global, table: &mut Table) -> Result<(usize, usize), Memory> {
    insert(alloc, table, b'a', 1)?;
    let outer = table.mark();
    insert(alloc, table, b'a', 2)?;
    insert(alloc, table, b'b', 4)?;
    let inner = table.mark();
    insert(alloc, table, b'b', 3)?;
    Ok((outer, inner))
}

/// `a`, `a` of the inner scope alone, `a` before the outer one, and `b`.
fn values_inside(
    alloc: Global,
    table: &Table,
    (outer, inner): (usize, usize),
) -> Result<[Option<u8>; 4], Memory> {
    let a = value(alloc, table, b'a')?;
    let own = value_since(alloc, table, inner, b'a')?;
    let before = value_between(alloc, table, (0, outer), b'a')?;
    let b = value(alloc, table, b'b')?;
    Ok([a, own, before, b])
}

/// `a` and `b` behind the inner scope, and then behind the outer one.
fn values_behind(
    alloc: Global,
    table: &mut Table,
    (outer, inner): (usize, usize),
) -> Result<[Option<u8>; 4], Memory> {
    leave(table, inner);
    let inner_a = value(alloc, table, b'a')?;
    let inner_b = value(alloc, table, b'b')?;
    leave(table, outer);
    let outer_a = value(alloc, table, b'a')?;
    let outer_b = value(alloc, table, b'b')?;
    Ok([inner_a, inner_b, outer_a, outer_b])
}

fn all_values(
    alloc: Global,
    table: &mut Table,
) -> Result<([Option<u8>; 4], [Option<u8>; 4]), Memory> {
    let marks = declare_all(alloc, table)?;
    let inside = values_inside(alloc, table, marks)?;
    let behind = values_behind(alloc, table, marks)?;
    Ok((inside, behind))
}

#[test]
fn inner_scopes_hide_and_are_forgotten(rt: HostRuntime) -> Result<(), Fail> {
    let mut table = ScopeMap::new(rt.alloc());
    let values = all_values(rt.alloc(), &mut table);
    drop(table);
    let (inside, behind) = values?;
    assert!(rt; inside == [Some(2), None, Some(1), Some(3)]);
    assert!(rt; behind == [Some(2), Some(4), Some(1), None]);
    Ok(())
}
