//! How types are made from others, and the types that they are made from: what a pointer
//! leads to, and the element of an array.

ghost use Rattle.std.specs.Prelude.{◌≡◌, IfOk};
ghost use Rattle.c_typing.specs.Types as spec;
ghost use Rattle.c_typing.specs.Operands as operands;
ghost use Rattle.c_type_rules.specs.Shapes.{element_of};

use c_tree::typed::{Base, CType, Derived};
use std::alloc::Global;
use word_ops::{Items, Memory};

/// A base type that is not `const`. Takes no memory.
pub fn plain(alloc: Global, base: Base) -> CType
    ensures { result ≡ spec.plain base }
{
    CType {
        base,
        constant: false,
        derived: Items::new(alloc),
    }
}

/// A type derived from another one (C11 6.2.5p20).
///
/// # Errors
///
/// `Memory` where memory is wanting.
pub fn derived_from(t: CType, derivation: Derived) -> Result<CType, Memory>
    ensures { IfOk result (λ r. r ≡ spec.derived_from t derivation) }
{
    let CType {
        base,
        constant,
        mut derived,
    } = t;
    derived.push(derivation)?;
    Ok(CType {
        base,
        constant,
        derived,
    })
}

/// A pointer to a type (C11 6.7.6.1), whose own `const` is told.
///
/// # Errors
///
/// `Memory` where memory is wanting.
pub fn pointer_to(constant: bool, target: CType) -> Result<CType, Memory>
    ensures { IfOk result (λ r. r ≡ spec.pointer_to constant target) }
{
    derived_from(target, Derived::Pointer(constant))
}

/// What a pointer points to (C11 6.7.6.1), or `None` exactly where the type is no pointer. Takes no memory.
pub fn target(t: CType) -> Option<CType>
    ensures { result ≡ operands.target_of t }
{
    let CType {
        base,
        constant,
        mut derived,
    } = t;
    match derived.pop() {
        Some(Derived::Pointer(_)) => Some(CType {
            base,
            constant,
            derived,
        }),
        _ => None,
    }
}

/// The type of an array's elements (C11 6.7.6.2), or `None` exactly where the type is no array. Takes no memory.
pub fn element(t: CType) -> Option<CType>
    ensures { result ≡ element_of t }
{
    let CType {
        base,
        constant,
        mut derived,
    } = t;
    match derived.pop() {
        Some(Derived::Array(_)) => Some(CType {
            base,
            constant,
            derived,
        }),
        _ => None,
    }
}

/// A number of bytes as 32 bits hold it, the largest such number for all that they do not hold.
pub fn in_word(bytes: u64) -> u32
    ensures { result ≡ spec.in_word bytes }
{
    u32::try_from(bytes).unwrap_or(u32::MAX)
}
