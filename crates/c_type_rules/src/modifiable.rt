//! Which objects may not be modified (C11 6.3.2.1p1).
//! Rows: of each structure type it is told whether a member is `const`.

ghost use Rattle.std.specs.Prelude.{◌≡◌};
ghost use Rattle.c_typing.specs.Expressions as spec;

use crate::qualifiers::is_constant;
use c_tree::typed::{Base, CType, Derived};
use word_ops::Items;

/// Whether an object of this type may not be modified: it is `const`, or a structure, or an array of structures, of which a
/// member is `const`, or has a member or an element that is (C11 6.3.2.1p1). Of each structure type, by its number, `fixed`
/// tells that of its members.
pub fn is_read_only(fixed: &Items<bool>, ctype: &CType) -> bool
    ensures { result ≡ spec.is_read_only fixed.now ctype.now }
{
    is_constant(ctype)
        || (only_arrays(ctype.derived.as_slice()) && is_fixed_base(fixed, ctype.base))
}

fn is_fixed_base(fixed: &Items<bool>, base: Base) -> bool
    ensures { result ≡ spec.is_fixed_base fixed.now base }
{
    match base {
        Base::Struct(number) => fixed.get(number as usize).copied().unwrap_or(false),
        _ => false,
    }
}

/// Whether each of these derivations is an array, so that the type is a structure or made of structures.
fn only_arrays(derived: &[Derived]) -> bool
    ensures { result ≡ spec.only_arrays derived.now }
{
    for derivation in derived {
        match derivation {
            Derived::Array(_) => {}
            Derived::Pointer(_) | Derived::Function(_) => return false,
        }
    }
    true
}
