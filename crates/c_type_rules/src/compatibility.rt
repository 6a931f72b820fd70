//! Which types are compatible or the same
//! (C11 6.2.7, 6.7.3p10, 6.7.6).

ghost use Rattle.std.specs.Prelude.{◌≡◌};
ghost use Rattle.c_typing.specs.Types as spec;
ghost use Rattle.c_typing.specs.Conversions as conversions;
ghost use Rattle.c_type_rules.specs.Shapes.{lent};
ghost use Rattle.c_type_rules.specs.Compatibility.{compared, all_agree};

use crate::shapes::{LentType, TypeShape, lend};
use c_tree::typed::{Base, CType, Derived};

/// How two types are compared.
#[derive(Clone, Copy)]
enum Comparison {
    /// whether they are compatible (C11 6.2.7)
    Compatible,
    /// whether they are the same
    Identical,
}

impl Comparison {
    fn bases(self, one: Base, other: Base) -> bool
        ensures { result ≡ (compared self).bases one other }
    {
        match self {
            Comparison::Compatible => are_compatible_bases(one, other),
            Comparison::Identical => one == other,
        }
    }

    /// Arrays of which one has no number of elements may be compatible (C11 6.7.6.2p6).
    fn counts(self, m: Option<u64>, n: Option<u64>) -> bool
        ensures { result ≡ (compared self).counts m n }
    {
        match (self, m, n) {
            (_, Some(m), Some(n)) => m == n,
            (Comparison::Compatible, _, _) => true,
            (Comparison::Identical, None, None) => true,
            (Comparison::Identical, _, _) => false,
        }
    }
}

/// Whether two types are compatible (C11 6.2.7). An enumerated type is compatible with `int` (C11 6.7.2.2p4).
pub fn compatible(t: &CType, u: &CType) -> bool
    ensures { result ≡ spec.compatible t.now u.now }
{
    agree(Comparison::Compatible, t, u)
}

/// Whether two types are the same (C11 6.7p3).
pub fn same_type(t: &CType, u: &CType) -> bool
    ensures { result ≡ spec.same_type t.now u.now }
{
    agree(Comparison::Identical, t, u)
}

/// Whether two types are compatible but for the qualifiers of the types themselves.
pub fn alike(t: &CType, u: &CType) -> bool
    ensures { result ≡ spec.alike t.now u.now }
{
    lend(t).is_alike(lend(u))
}

#[cycle(same)]
fn agree(by: Comparison, t: &CType, u: &CType) -> bool
    ensures { result ≡ spec.agree (compared by) t.now u.now }
{
    (by.bases(t.base, u.base) && t.constant == u.constant)
        && same_derivations(by, t.derived.as_slice(), u.derived.as_slice())
}

#[cycle(same)]
fn same_derivations(by: Comparison, list: &[Derived], others: &[Derived]) -> bool
    ensures { result ≡ spec.all_same (compared by) list.now others.now }
{
    if list.len() != others.len() {
        return false;
    }
    for (one, other) in list.iter().zip(others) {
        if !same_derivation(by, one, other) {
            return false;
        }
    }
    true
}

#[cycle(same)]
fn same_derivation(by: Comparison, one: &Derived, other: &Derived) -> bool
    ensures { result ≡ spec.same_derived (compared by) one.now other.now }
{
    match (one, other) {
        (Derived::Pointer(c), Derived::Pointer(k)) => c == k,
        (Derived::Array(m), Derived::Array(n)) => by.counts(*m, *n),
        (Derived::Function(ps), Derived::Function(qs)) => {
            same_types(by, ps.as_slice(), qs.as_slice())
        }
        _ => false,
    }
}

/// The types of parameters against those of others (C11 6.7.6.3p15).
#[cycle(same)]
fn same_types(by: Comparison, list: &[CType], others: &[CType]) -> bool
    ensures { result ≡ all_agree (compared by) list.now others.now }
{
    if list.len() != others.len() {
        return false;
    }
    for (one, other) in list.iter().zip(others) {
        if !agree(by, one, other) {
            return false;
        }
    }
    true
}

/// An enumerated type is compatible with `int`, and not with another enumerated type (C11 6.7.2.2p4).
fn are_compatible_bases(one: Base, other: Base) -> bool
    ensures { result ≡ spec.is_compatible_base one other }
{
    one == other
        || matches!(
            (one, other),
            (Base::Enum(_), Base::Int) | (Base::Int, Base::Enum(_))
        )
}

impl LentType<'_> {
    /// Whether two types are compatible (C11 6.2.7).
    fn is_compatible(self, other: LentType) -> bool
        ensures { result ≡ spec.compatible (lent self.entry) (lent other.entry) }
    {
        (are_compatible_bases(self.base, other.base) && self.constant == other.constant)
            && same_derivations(Comparison::Compatible, self.derived, other.derived)
    }

    /// Whether two types are compatible but for the qualifiers of the types themselves; an array has none (C11 6.7.3p9).
    pub fn is_alike(self, other: LentType) -> bool
        ensures { result ≡ spec.alike (lent self.entry) (lent other.entry) }
    {
        match (self.shape(), other.shape()) {
            (TypeShape::Basic(one), TypeShape::Basic(other)) => are_compatible_bases(one, other),
            (TypeShape::PointerTo(_, one), TypeShape::PointerTo(_, other)) => {
                one.is_compatible(other)
            }
            (TypeShape::ArrayOf(m, one), TypeShape::ArrayOf(n, other)) => {
                Comparison::Compatible.counts(m, n) && one.is_compatible(other)
            }
            (TypeShape::FunctionOf(ps, one), TypeShape::FunctionOf(qs, other)) => {
                same_types(Comparison::Compatible, ps, qs) && one.is_compatible(other)
            }
            _ => false,
        }
    }
}
