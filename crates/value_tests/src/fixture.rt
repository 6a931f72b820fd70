//! Types and structures as tables write them, with what completing a structure asks tested.

ghost use Rattle.std.specs.Prelude.{◌≡◌, ◌≢◌, true, AllPairs, All};
ghost use Rattle.c_layout.specs.Sizes.{is_complete};

use c_layout::{Tags, complete, size};
use c_tree::typed::{Base, CType, Derived};
use std::alloc::Global;
use std::process::Abort;
use std::test::Fail;
use word_ops::{Items, Text};

/// A derivation: a pointer, an array with or without a count, or a function without parameters.
#[derive(Clone, Copy)]
pub enum Made {
    Pointer,
    Array(u64),
    Open,
    Function,
}

/// A member: its name, its base type, and what is derived from that.
pub type Member = (&'static [u8], Base, &'static [Made]);

fn derivation(alloc: Global, made: Made) -> Derived {
    match made {
        Made::Pointer => Derived::Pointer(false),
        Made::Array(count) => Derived::Array(Some(count)),
        Made::Open => Derived::Array(None),
        Made::Function => Derived::Function(Items::new(alloc)),
    }
}

pub fn typed(alloc: Global, base: Base, made: &[Made]) -> Result<CType, Fail> {
    let mut derived = Vec::new(alloc);
    for one in made {
        derived.push(derivation(alloc, *one))?;
    }
    Ok(CType {
        base,
        constant: false,
        derived: Items::from_vec(derived),
    })
}

pub fn text(alloc: Global, bytes: &[u8]) -> Result<Text, Fail> {
    Ok(Text::from_vec(Vec::from_slice(alloc, bytes)?))
}

fn member(alloc: Global, member: &Member) -> Result<(Text, CType), Fail> {
    let (name, base, made) = member;
    let ctype = typed(alloc, *base, made)?;
    Ok((text(alloc, name)?, ctype))
}

fn members(alloc: Global, list: &[Member]) -> Result<Vec<(Text, CType)>, Fail> {
    let mut members = Vec::new(alloc);
    for one in list {
        members.push(member(alloc, one)?)?;
    }
    Ok(members)
}

/// A new structure type of these members.
pub fn structure<R: Abort>(
    rt: &R,
    alloc: Global,
    tags: &mut Tags,
    list: &[Member],
) -> Result<u32, Fail> {
    let members = members(alloc, list)?;
    let tag = tags.declare()?;
    assert!(rt; !members.is_empty() && names_differ(&members) && are_complete(&members, tags));
    complete(alloc, tags, tag, members)?;
    Ok(tag)
}

fn names_differ(members: &[(Text, CType)]) -> bool
    ensures { result ≡ true → AllPairs (λ m n. m.0 ≢ n.0) members.now }
{
    match members {
        [] => true,
        [first, rest @ ..] => lacks(rest, &first.0) && names_differ(rest),
    }
}

fn lacks(members: &[(Text, CType)], name: &Text) -> bool
    ensures { result ≡ true → All (λ n. name.now ≢ n.0) members.now }
{
    members.iter().all(|member| member.0 != *name)
}

fn are_complete(members: &[(Text, CType)], tags: &Tags) -> bool
    ensures { result ≡ true → All (λ m. is_complete tags.now m.1 ≡ true) members.now }
{
    members.iter().all(|member| size(&member.1, tags).is_some())
}
