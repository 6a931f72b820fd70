//! Integer constant expressions.

ghost use Rattle.std.specs.Prelude.{◌≡◌, map};
ghost use Rattle.c_layout.specs.Constants as spec;

use c_tree::typed::{Arithmetic, Arm, Conversion, Primary, Relation, Sign, Step, TExpr, Unary};
use word_ops::{Op, Width, apply, narrow};

/// The value of an integer constant expression (C11 6.6p6), or `None` exactly where the expression is none.
///
/// It is one where it has numbers, conversions to integer types and integer operators alone: no object, no
/// pointer, no assignment, comma or call stands in it, evaluated or not (C11 6.6p3). And no operation in a
/// part that is evaluated is undefined (p4): `1 ? 2 : 1 / 0` is one, and `1 / 0` is none. The time is linear
/// in the size of the tree.
pub fn constant(e: &TExpr) -> Option<u32>
    ensures { result ≡ spec.constant_of e.now }
{
    if has_constant_form(e) {
        number_of(e)
    } else {
        None
    }
}

/// The same of an expression and what is then done with its value, without a tree of both.
pub fn constant_after(e: &TExpr, steps: &[Step]) -> Option<u32>
    ensures { result ≡ spec.constant_after e.now steps.now }
{
    if has_constant_form(e) && steps_have_form(steps) {
        stepped(number_of(e)?, steps)
    } else {
        None
    }
}

#[cycle(form)]
fn has_constant_form(e: &TExpr) -> bool
    ensures { result ≡ spec.has_constant_form e.now }
{
    match e {
        TExpr::Primary(_, primary) => is_constant_primary(primary),
        TExpr::Applied(_, first, steps) => {
            has_constant_form(first.get()) && steps_have_form(steps.as_slice())
        }
        TExpr::All(_, all) => all_have_form(all.as_slice()),
        TExpr::Any(_, all) => all_have_form(all.as_slice()),
        TExpr::Choose(_, arms, last) => {
            arms_have_form(arms.as_slice()) && has_constant_form(last.get())
        }
        TExpr::Comma(_, _, _) => false,
        TExpr::Assign(_, _, _) => false,
        TExpr::Call(_, _, _) => false,
        TExpr::DroppedCall(_, _, _) => false,
        TExpr::GetChar(_) => false,
        TExpr::PutChar(_, _) => false,
        TExpr::Exit(_, _) => false,
    }
}

#[cycle(form)]
fn all_have_form(all: &[TExpr]) -> bool
    ensures { result ≡ spec.all_hold (map spec.has_constant_form all.now) }
{
    for one in all {
        if !has_constant_form(one) {
            return false;
        }
    }
    true
}

#[cycle(form)]
fn steps_have_form(steps: &[Step]) -> bool
    ensures { result ≡ spec.all_hold (map spec.step_has_form steps.now) }
{
    for one in steps {
        if !step_has_form(one) {
            return false;
        }
    }
    true
}

#[cycle(form)]
fn step_has_form(step: &Step) -> bool
    ensures { result ≡ spec.step_has_form step.now }
{
    match step {
        Step::Unary(unary) => is_constant_unary(unary),
        Step::Binary(operator, right) => {
            is_constant_arithmetic(operator) && has_constant_form(right)
        }
    }
}

#[cycle(form)]
fn arms_have_form(arms: &[Arm]) -> bool
    ensures { result ≡ spec.all_hold (map spec.arm_has_form arms.now) }
{
    for one in arms {
        if !arm_has_form(one) {
            return false;
        }
    }
    true
}

#[cycle(form)]
fn arm_has_form(arm: &Arm) -> bool
    ensures { result ≡ spec.arm_has_form arm.now }
{
    has_constant_form(&arm.condition) && has_constant_form(&arm.chosen)
}

fn is_constant_primary(primary: &Primary) -> bool
    ensures { result ≡ spec.is_constant_primary primary.now }
{
    matches!(primary, Primary::Number(_))
}

fn is_constant_unary(unary: &Unary) -> bool
    ensures { result ≡ spec.is_constant_unary unary.now }
{
    match unary {
        Unary::Convert(Conversion::Pointer) => false,
        Unary::Convert(_) | Unary::Negate(_) | Unary::Complement | Unary::Not => true,
        Unary::Load(_) | Unary::Member(_) | Unary::Increment(_) | Unary::Drop => false,
    }
}

fn is_constant_arithmetic(operator: &Arithmetic) -> bool
    ensures { result ≡ spec.is_constant_arithmetic operator.now }
{
    matches!(operator, Arithmetic::Word(_) | Arithmetic::Compare(_, _))
}

#[cycle(number)]
fn number_of(e: &TExpr) -> Option<u32>
    ensures { result ≡ spec.number_of e.now }
{
    match e {
        TExpr::Primary(_, primary) => primary_number(primary),
        TExpr::Applied(_, first, steps) => stepped(number_of(first.get())?, steps.as_slice()),
        TExpr::All(_, all) => every(all.as_slice()),
        TExpr::Any(_, all) => some(all.as_slice()),
        TExpr::Choose(_, arms, last) => chosen(arms.as_slice(), number_of(last.get())),
        TExpr::Comma(_, _, _) => None,
        TExpr::Assign(_, _, _) => None,
        TExpr::Call(_, _, _) => None,
        TExpr::DroppedCall(_, _, _) => None,
        TExpr::GetChar(_) => None,
        TExpr::PutChar(_, _) => None,
        TExpr::Exit(_, _) => None,
    }
}

/// What is done with a number, step by step.
#[cycle(number)]
fn stepped(first: u32, steps: &[Step]) -> Option<u32>
    ensures { result ≡ spec.stepped (map spec.step_number_of steps.now) first }
{
    let mut number = first;
    for one in steps {
        number = step_number(one, number)?;
    }
    Some(number)
}

#[cycle(number)]
fn step_number(step: &Step, number: u32) -> Option<u32>
    ensures { result ≡ spec.step_number_of step.now number }
{
    match step {
        Step::Unary(unary) => unary_number(unary, number),
        Step::Binary(operator, right) => arithmetic_number(operator, number, number_of(right)?),
    }
}

/// The operands of `&&`, up to the first that is 0.
#[cycle(number)]
fn every(all: &[TExpr]) -> Option<u32>
    ensures { result ≡ spec.every (map spec.number_of all.now) }
{
    for one in all {
        if number_of(one)? == 0 {
            return Some(0);
        }
    }
    Some(1)
}

/// The operands of `||`, up to the first that is not 0.
#[cycle(number)]
fn some(all: &[TExpr]) -> Option<u32>
    ensures { result ≡ spec.some (map spec.number_of all.now) }
{
    for one in all {
        if number_of(one)? != 0 {
            return Some(1);
        }
    }
    Some(0)
}

/// What stands at the first condition that is not 0, else the last.
#[cycle(number)]
fn chosen(arms: &[Arm], last: Option<u32>) -> Option<u32>
    ensures { result ≡ spec.chosen (map spec.arm_number_of arms.now) last }
{
    for arm in arms {
        if number_of(&arm.condition)? != 0 {
            return number_of(&arm.chosen);
        }
    }
    last
}

fn primary_number(primary: &Primary) -> Option<u32>
    ensures { result ≡ spec.primary_number primary.now }
{
    match primary {
        Primary::Number(number) => Some(*number),
        _ => None,
    }
}

fn unary_number(unary: &Unary, number: u32) -> Option<u32>
    ensures { result ≡ spec.unary_number unary.now number }
{
    match unary {
        Unary::Convert(conversion) => converted_number(conversion, number),
        Unary::Negate(Sign::Signed) => apply(Op::Subs, 0, number),
        Unary::Negate(Sign::Unsigned) => apply(Op::Sub, 0, number),
        Unary::Complement => apply(Op::Xor, number, u32::MAX),
        Unary::Not => Some(u32::from(number == 0)),
        Unary::Load(_) | Unary::Member(_) | Unary::Increment(_) | Unary::Drop => None,
    }
}

fn converted_number(conversion: &Conversion, number: u32) -> Option<u32>
    ensures { result ≡ spec.converted_number conversion.now number }
{
    match conversion {
        Conversion::Integer(Width::U8) => Some(narrow::<8, false>(number)),
        Conversion::Integer(Width::S8) => Some(narrow::<8, true>(number)),
        Conversion::Integer(Width::U16) => Some(narrow::<16, false>(number)),
        Conversion::Integer(Width::S16) => Some(narrow::<16, true>(number)),
        Conversion::Integer(Width::Word) => Some(number),
        Conversion::Bool => Some(u32::from(number != 0)),
        Conversion::Pointer => None,
    }
}

fn arithmetic_number(operator: &Arithmetic, a: u32, b: u32) -> Option<u32>
    ensures { result ≡ spec.arithmetic_number operator.now a b }
{
    match operator {
        Arithmetic::Word(op) => apply(*op, a, b),
        Arithmetic::Compare(relation, Sign::Signed) => related(Op::Lts, Op::Les, relation, a, b),
        Arithmetic::Compare(relation, Sign::Unsigned) => related(Op::Ltu, Op::Leu, relation, a, b),
        _ => None,
    }
}

/// A relation by the operations for "less" and "at most".
fn related(below: Op, at_most: Op, relation: &Relation, a: u32, b: u32) -> Option<u32>
    ensures { result ≡ spec.related_numbers below at_most relation.now a b }
{
    match relation {
        Relation::Less => apply(below, a, b),
        Relation::Greater => apply(below, b, a),
        Relation::AtMost => apply(at_most, a, b),
        Relation::AtLeast => apply(at_most, b, a),
        Relation::Equal => apply(Op::Eq, a, b),
        Relation::NotEqual => apply(Op::Ne, a, b),
    }
}
