//! Address constants (C11 6.6p9).
//! Rows: told a typed tree, they fold it to an address.

ghost use Rattle.std.specs.Prelude.{◌≡◌, []};
ghost use Rattle.std.specs.Option.{option_and_then};
ghost use Rattle.c_layout.specs.Constants.{constant_of, constant_after};
ghost use Rattle.c_type_walk.specs.Walks.{fixed};
ghost use Rattle.c_typing.specs.Starts as spec;

use crate::sizes::static_size;
use c_layout::{constant, constant_after};
use c_tree::typed::{Arithmetic, Conversion, Primary, Sign, Step, Stride, TExpr, Unary};
use c_type_walk::{Around, Found};
use c_typing::{Address, Operand};

/// The place in a static object that an expression is the address of, by constant indices, members, offsets and conversions
/// of pointers; or `None` exactly where it is none (C11 6.6p9).
#[cycle(addresses)]
pub(crate) fn address_of(tree: &TExpr, found: &Found, around: &Around<'_>) -> Option<Address>
    ensures { result ≡ spec.address_of (spec.static_size (fixed around.now) found.now.state) tree.now }
{
    match tree {
        TExpr::Primary(_, primary) => primary_address(primary),
        TExpr::Applied(_, first, steps) => {
            let start = address_of(first.get(), found, around);
            stepped_address(steps.as_slice(), first.get(), found, around, start)
        }
        TExpr::All(_, _) => None,
        TExpr::Any(_, _) => None,
        TExpr::Choose(_, _, _) => None,
        TExpr::Comma(_, _, _) => None,
        TExpr::Assign(_, _, _) => None,
        TExpr::Call(_, _, _) => None,
        TExpr::DroppedCall(_, _, _) => None,
        TExpr::GetChar(_) => None,
        TExpr::PutChar(_, _) => None,
        TExpr::Exit(_, _) => None,
    }
}

/// The place in a static object that an operand is the address of, or `None` exactly where it is none.
pub(crate) fn operand_address(
    operand: &Operand,
    found: &Found,
    around: &Around<'_>,
) -> Option<Address>
    ensures { result ≡ spec.operand_address (spec.static_size (fixed around.now) found.now.state) operand.now }
{
    let start = address_of(&operand.base, found, around);
    stepped_address(
        operand.steps.as_slice(),
        &operand.base,
        found,
        around,
        start,
    )
}

/// What steps behind an expression make of its address.
#[cycle(addresses)]
fn stepped_address(
    steps: &[Step],
    first: &TExpr,
    found: &Found,
    around: &Around<'_>,
    start: Option<Address>,
) -> Option<Address>
    ensures { result ≡ spec.after_steps (spec.static_size (fixed around.now) found.now.state) first.now [] steps.now start }
{
    let mut address = start;
    for (at, step) in steps.iter().enumerate() {
        address = step_address(step, &steps[..at], first, found, around, address);
    }
    address
}

#[cycle(addresses)]
fn step_address(
    step: &Step,
    done: &[Step],
    first: &TExpr,
    found: &Found,
    around: &Around<'_>,
    address: Option<Address>,
) -> Option<Address>
    ensures { result ≡ spec.after_step (spec.static_size (fixed around.now) found.now.state) first.now done.now step.now address }
{
    match step {
        Step::Unary(unary) => unary_address(found, around, unary, address),
        Step::Binary(Arithmetic::PointerPlus(stride), right) => {
            moved(found, around, true, *stride, address, constant(right))
        }
        Step::Binary(Arithmetic::PointerMinus(stride), right) => {
            moved(found, around, false, *stride, address, constant(right))
        }
        Step::Binary(Arithmetic::PlusPointer(stride), right) => {
            let address = address_of(right, found, around);
            moved(
                found,
                around,
                true,
                *stride,
                address,
                constant_after(first, done),
            )
        }
        Step::Binary(_, _) => None,
    }
}

fn primary_address(primary: &Primary) -> Option<Address>
    ensures { result ≡ spec.primary_address primary.now }
{
    match primary {
        Primary::Static(object) => Some(Address {
            object: *object,
            offset: 0,
        }),
        _ => None,
    }
}

/// A member of a structure (C11 6.5.2.3), or the same place under a pointer of another type (C11 6.3.2.3p7).
fn unary_address(
    found: &Found,
    around: &Around<'_>,
    unary: &Unary,
    address: Option<Address>,
) -> Option<Address>
    ensures { result ≡ option_and_then (spec.unary_address (spec.static_size (fixed around.now) found.now.state) unary.now) address }
{
    let Some(address) = address else {
        return None;
    };
    match unary {
        Unary::Member(offset) => ahead(found, around, address, u64::from(*offset)),
        Unary::Convert(Conversion::Pointer) => Some(address),
        _ => None,
    }
}

/// A pointer and a constant (C11 6.5.6p8).
fn moved(
    found: &Found,
    around: &Around<'_>,
    forward: bool,
    stride: Stride,
    address: Option<Address>,
    number: Option<u32>,
) -> Option<Address>
    ensures { result ≡ spec.moved (spec.static_size (fixed around.now) found.now.state) forward stride address number }
{
    match (address, number) {
        (Some(address), Some(number)) => {
            by_elements(found, around, forward, stride, number, address)
        }
        _ => None,
    }
}

/// So many elements ahead, or back where the number is negative in its type.
fn by_elements(
    found: &Found,
    around: &Around<'_>,
    forward: bool,
    stride: Stride,
    number: u32,
    address: Address,
) -> Option<Address>
    ensures { result ≡ spec.by_elements (spec.static_size (fixed around.now) found.now.state) forward stride number address }
{
    let negative = is_negative(stride, number);
    let far = far_by(negative, stride, number);
    if forward != negative {
        ahead(found, around, address, far)
    } else {
        back(address, far)
    }
}

fn is_negative(stride: Stride, number: u32) -> bool
    ensures { result ≡ spec.is_negative stride number }
{
    matches!(stride.sign, Sign::Signed) && number >= 1 << 31
}

fn far_by(negative: bool, stride: Stride, number: u32) -> u64
    ensures { result ≡ spec.far_by negative stride number }
{
    let number = u64::from(number);
    let elements = if negative { (1 << 32) - number } else { number };
    elements * u64::from(stride.element)
}

/// A place so many bytes ahead, where it lies within the object or at its end.
fn ahead(found: &Found, around: &Around<'_>, address: Address, bytes: u64) -> Option<Address>
    ensures { result ≡ spec.ahead (spec.static_size (fixed around.now) found.now.state) address bytes }
{
    let offset = u64::from(address.offset).saturating_add(bytes);
    if offset <= u64::from(static_size(found, around, address.object)) {
        Some(Address {
            object: address.object,
            offset: offset as u32,
        })
    } else {
        None
    }
}

/// A place so many bytes back, where it lies within the object.
fn back(address: Address, bytes: u64) -> Option<Address>
    ensures { result ≡ spec.back address bytes }
{
    if bytes <= u64::from(address.offset) {
        Some(Address {
            object: address.object,
            offset: address.offset - bytes as u32,
        })
    } else {
        None
    }
}
