//! The composite type of two compatible types
//! (C11 6.2.7p3).

ghost use Rattle.std.specs.Prelude.{◌≡◌, IfOk};
ghost use Rattle.std.specs.Option.{option_copied};
ghost use Rattle.c_typing.specs.Types as spec;
ghost use Rattle.c_type_rules.specs.Shapes.{lent};
ghost use Rattle.c_type_rules.specs.Composites.{derivation_with, type_with};

use crate::copies::{copied, copied_derivation};
use crate::shapes::LentType;
use c_tree::typed::{CType, Derived};
use std::alloc::Global;
use word_ops::{Items, Memory};

/// The composite type of two compatible types: an array has the number of elements that either tells, and a function the
/// composite types of its parameters (C11 6.2.7p3). The time is linear in the size of the first.
///
/// # Errors
///
/// `Memory` where memory is wanting.
#[cycle(composites)]
pub fn composite(alloc: Global, t: &CType, u: &CType) -> Result<CType, Memory>
    ensures { IfOk result (λ r. r ≡ spec.composite t.now u.now) }
{
    Ok(CType {
        base: t.base,
        constant: t.constant,
        derived: composite_derivations(alloc, t.derived.as_slice(), u.derived.as_slice())?,
    })
}

/// Derivations, each with that of another type.
#[cycle(composites)]
fn composite_derivations(
    alloc: Global,
    list: &[Derived],
    others: &[Derived],
) -> Result<Items<Derived>, Memory>
    ensures { IfOk result (λ r. r ≡ spec.with_each spec.composite_derived list.now others.now) }
{
    let mut all = Vec::new(alloc);
    for (at, one) in list.iter().enumerate() {
        all.push(derivation_with(alloc, one, others.get(at))?)?;
    }
    Ok(Items::from_vec(all))
}

/// A derivation with that of another type, where it has one.
#[cycle(composites)]
fn derivation_with(alloc: Global, one: &Derived, other: Option<&Derived>) -> Result<Derived, Memory>
    ensures { IfOk result (λ r. r ≡ derivation_with one.now (option_copied other.entry)) }
{
    match other {
        Some(other) => composite_derivation(alloc, one, other),
        None => copied_derivation(alloc, one),
    }
}

#[cycle(composites)]
fn composite_derivation(alloc: Global, one: &Derived, other: &Derived) -> Result<Derived, Memory>
    ensures { IfOk result (λ r. r ≡ spec.composite_derived one.now other.now) }
{
    match (one, other) {
        (Derived::Array(None), Derived::Array(count)) => Ok(Derived::Array(*count)),
        (Derived::Function(ps), Derived::Function(qs)) => {
            let parameters = composite_types(alloc, ps.as_slice(), qs.as_slice())?;
            Ok(Derived::Function(parameters))
        }
        _ => copied_derivation(alloc, one),
    }
}

/// The types of parameters, each with that of another list.
#[cycle(composites)]
fn composite_types(alloc: Global, list: &[CType], others: &[CType]) -> Result<Items<CType>, Memory>
    ensures { IfOk result (λ r. r ≡ spec.with_each spec.composite list.now others.now) }
{
    let mut all = Vec::new(alloc);
    for (at, one) in list.iter().enumerate() {
        all.push(type_with(alloc, one, others.get(at))?)?;
    }
    Ok(Items::from_vec(all))
}

/// The type of a parameter with that of another list, where it has one.
#[cycle(composites)]
fn type_with(alloc: Global, one: &CType, other: Option<&CType>) -> Result<CType, Memory>
    ensures { IfOk result (λ r. r ≡ type_with one.now (option_copied other.entry)) }
{
    match other {
        Some(other) => composite(alloc, one, other),
        None => copied(alloc, one),
    }
}

impl LentType<'_> {
    /// The composite type of two compatible types (C11 6.2.7p3).
    ///
    /// # Errors
    ///
    /// `Memory` where memory is wanting.
    pub(crate) fn composite(self, alloc: Global, other: LentType) -> Result<CType, Memory>
        ensures { IfOk result (λ r. r ≡ spec.composite (lent self.entry) (lent other.entry)) }
    {
        Ok(CType {
            base: self.base,
            constant: self.constant,
            derived: composite_derivations(alloc, self.derived, other.derived)?,
        })
    }
}
