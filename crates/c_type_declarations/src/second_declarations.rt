//! When a name may be declared a second time (C11 6.7p3, p4, 6.9p3, p5).
//! Rows: told what the name stands for already.

ghost use Rattle.std.specs.Prelude.{◌≡◌, IfOk};
ghost use Rattle.std.specs.Option.{option_copied};
ghost use Rattle.c_typing.specs.Declarations as spec;

use c_tree::typed::CType;
use c_type_rules::{compatible, composite, same_type};
use c_typing::{Linkage, Meaning};
use std::alloc::Global;
use word_ops::Memory;

/// A typedef name may be declared again as a typedef of the same type (C11 6.7p3).
pub(crate) fn allows_typedef(ctype: &CType, meaning: Option<&Meaning>) -> bool
    ensures { result ≡ spec.allows_typedef ctype.now (option_copied meaning.entry) }
{
    match meaning {
        None => true,
        Some(Meaning::TypedefOf(old)) => same_type(ctype, old),
        Some(_) => false,
    }
}

/// What has linkage may be declared again with the same type (C11 6.7p4).
pub(crate) fn allows_linked(ctype: &CType, meaning: Option<&Meaning>) -> bool
    ensures { result ≡ spec.allows_linked ctype.now (option_copied meaning.entry) }
{
    match meaning {
        None => true,
        Some(Meaning::Linked(old)) => compatible(ctype, old),
        Some(_) => false,
    }
}

/// The same where there is a fault in the type of a declaration, so that it is not asked.
pub(crate) fn allows_untyped(is_typedef: bool, is_linked: bool, meaning: Option<&Meaning>) -> bool
    ensures { result ≡ spec.allows_untyped is_typedef is_linked (option_copied meaning.entry) }
{
    if is_typedef {
        matches!(
            meaning,
            None | Some(Meaning::TypedefOf(_) | Meaning::Unknown)
        )
    } else if is_linked {
        allows_untyped_linked(meaning)
    } else {
        meaning.is_none()
    }
}

/// Whether a name with linkage may be declared again, where there is a fault in its type.
pub fn allows_untyped_linked(meaning: Option<&Meaning>) -> bool
    ensures { result ≡ spec.allows_untyped_linked (option_copied meaning.entry) }
{
    matches!(meaning, None | Some(Meaning::Linked(_) | Meaning::Unknown))
}

/// Whether a type goes together with what all declarations with linkage have told (C11 6.2.7p2).
pub(crate) fn agrees(ctype: &CType, linkage: Option<&Linkage>) -> bool
    ensures { result ≡ spec.agrees ctype.now (option_copied linkage.entry) }
{
    match linkage {
        None => true,
        Some(linkage) => compatible(ctype, &linkage.ctype),
    }
}

/// Whether there is a definition already (C11 6.9p3, p5).
pub fn is_defined(linkage: Option<&Linkage>) -> bool
    ensures { result ≡ spec.is_defined (option_copied linkage.entry) }
{
    match linkage {
        None => false,
        Some(linkage) => linkage.defined,
    }
}

/// The type that all declarations of a name tell (C11 6.2.7p4).
pub(crate) fn composed(
    alloc: Global,
    ctype: CType,
    linkage: Option<&Linkage>,
) -> Result<CType, Memory>
    ensures { IfOk result (λ composed. composed ≡ spec.composed ctype (option_copied linkage.entry)) }
{
    match linkage {
        None => Ok(ctype),
        Some(linkage) => {
            let whole = composite(alloc, &ctype, &linkage.ctype);
            drop(ctype);
            whole
        }
    }
}
