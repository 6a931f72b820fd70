//! Which of some faults is told: the one at the earliest place, and of those at one place the one whose kind comes first.
//! No walk: faults are compared by place and then by kind.

ghost use Rattle.std.specs.Prelude.{◌≡◌, None};
ghost use Rattle.c_typing.specs.Faults as spec;
ghost use Rattle.c_typing.specs.Units as units;

use c_tree::{FaultKind, Pos};
use c_type_walk::Found;
use c_typing::Fault;

/// The order of the kinds.
fn rank(kind: FaultKind) -> u8
    ensures { result ≡ spec.rank kind }
{
    match kind {
        FaultKind::BadSpecifier => 0,
        FaultKind::Undeclared => 1,
        FaultKind::Redeclared => 2,
        FaultKind::Incomplete => 3,
        FaultKind::BadSize => 4,
        FaultKind::TooLarge => 5,
        FaultKind::NotConstant => 6,
        FaultKind::NotLvalue => 7,
        FaultKind::ConstWrite => 8,
        FaultKind::FunctionUse => 9,
        FaultKind::BadCall => 10,
        FaultKind::Mismatch => 11,
        FaultKind::StructValue => 12,
        FaultKind::Stray => 13,
        FaultKind::NoBody => 14,
        FaultKind::NoMain => 15,
    }
}

fn stands_before(place: Pos, other: Pos) -> bool
    ensures { result ≡ spec.stands_before place other }
{
    place.line < other.line || (place.line == other.line && place.column < other.column)
}

fn is_at(place: Pos, other: Pos) -> bool
    ensures { result ≡ spec.is_at place other }
{
    place.line == other.line && place.column == other.column
}

fn comes_before(fault: Fault, other: Fault) -> bool
    ensures { result ≡ spec.comes_before fault other }
{
    stands_before(fault.place, other.place)
        || (is_at(fault.place, other.place) && rank(fault.kind) < rank(other.kind))
}

fn earlier(before: Option<Fault>, fault: Fault) -> Fault
    ensures { result ≡ spec.earlier before fault }
{
    match before {
        Some(before) if comes_before(before, fault) => before,
        _ => fault,
    }
}

fn first_of(list: &[Fault]) -> Option<Fault>
    ensures { result ≡ spec.first_of None list.now }
{
    let mut first = None;
    for fault in list {
        first = Some(earlier(first, *fault));
    }
    first
}

/// The fault that is told of a unit: what has no typed tree yet counts where nothing else is wrong.
pub(crate) fn first_told(found: &Found) -> Option<Fault>
    ensures { result ≡ spec.first_of None (units.or_unready found.now.faults found.now.state.unready) }
{
    if found.faults.is_empty() {
        first_of(found.state.unready.as_slice())
    } else {
        first_of(found.faults.as_slice())
    }
}
