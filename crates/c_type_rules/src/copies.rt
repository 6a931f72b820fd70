//! Copies of types and of their derivations, since each operand and each tree
//! owns its type.

ghost use Rattle.std.specs.Prelude.{◌≡◌, IfOk};
ghost use Rattle.c_type_rules.specs.Shapes.{lent};

use crate::shapes::LentType;
use c_tree::typed::{CType, Derived};
use std::alloc::Global;
use word_ops::{Items, Memory};

/// A copy of a type. The time is linear in its size.
///
/// # Errors
///
/// `Memory` where memory is wanting.
#[cycle(copies)]
pub fn copied(alloc: Global, t: &CType) -> Result<CType, Memory>
    ensures { IfOk result (λ copy. copy ≡ t.now) }
{
    Ok(CType {
        base: t.base,
        constant: t.constant,
        derived: copied_derivations(alloc, t.derived.as_slice())?,
    })
}

#[cycle(copies)]
fn copied_derivations(alloc: Global, list: &[Derived]) -> Result<Items<Derived>, Memory>
    ensures { IfOk result (λ copy. copy ≡ list.now) }
{
    let mut copies = Vec::new(alloc);
    for one in list {
        copies.push(copied_derivation(alloc, one)?)?;
    }
    Ok(Items::from_vec(copies))
}

/// A copy of a derivation.
///
/// # Errors
///
/// `Memory` where memory is wanting.
#[cycle(copies)]
pub(crate) fn copied_derivation(alloc: Global, derivation: &Derived) -> Result<Derived, Memory>
    ensures { IfOk result (λ copy. copy ≡ derivation.now) }
{
    match derivation {
        Derived::Pointer(constant) => Ok(Derived::Pointer(*constant)),
        Derived::Array(count) => Ok(Derived::Array(*count)),
        Derived::Function(parameters) => {
            Ok(Derived::Function(copied_types(alloc, parameters.as_slice())?))
        }
    }
}

#[cycle(copies)]
fn copied_types(alloc: Global, list: &[CType]) -> Result<Items<CType>, Memory>
    ensures { IfOk result (λ copy. copy ≡ list.now) }
{
    let mut copies = Vec::new(alloc);
    for one in list {
        copies.push(copied(alloc, one)?)?;
    }
    Ok(Items::from_vec(copies))
}

impl LentType<'_> {
    /// A copy of the type. The time is linear in its size.
    ///
    /// # Errors
    ///
    /// `Memory` where memory is wanting.
    pub fn copied(self, alloc: Global) -> Result<CType, Memory>
        ensures { IfOk result (λ copy. copy ≡ lent self.entry) }
    {
        Ok(CType {
            base: self.base,
            constant: self.constant,
            derived: copied_derivations(alloc, self.derived)?,
        })
    }
}
