//! What typed trees tell of themselves.

use c_tree::typed::{Arithmetic, Base, CType, Conversion, Primary, Scalar, Step, TExpr, Unary};
use std::alloc::{AllocError, Global};
use std::test::Fail;
use word_ops::{Boxed, Items, Op, Width};

fn plain(alloc: Global, base: Base) -> CType {
    CType {
        base,
        constant: false,
        derived: Items::new(alloc),
    }
}

fn number(alloc: Global, value: u32) -> TExpr {
    TExpr::Primary(plain(alloc, Base::Int), Primary::Number(value))
}

/// An expression of a type, with the steps behind another one.
fn applied(
    alloc: Global,
    base: Base,
    first: TExpr,
    steps: Items<Step>,
) -> Result<TExpr, AllocError> {
    Ok(TExpr::Applied(plain(alloc, base), Boxed::new(alloc, first)?, steps))
}

/// `(unsigned char)(1 + 2)`, or without the cast.
fn sum(alloc: Global, cast: bool) -> Result<TExpr, AllocError> {
    let mut steps = Items::new(alloc);
    steps.push(Step::Binary(Arithmetic::Word(Op::Adds), number(alloc, 2)))?;
    if cast {
        steps.push(Step::Unary(Unary::Convert(Conversion::Integer(Width::U8))))?;
        return applied(alloc, Base::UnsignedChar, number(alloc, 1), steps);
    }
    applied(alloc, Base::Int, number(alloc, 1), steps)
}

#[test]
fn expressions_tell_their_types(rt: HostRuntime) -> Result<(), Fail> {
    let alloc = rt.alloc();
    assert!(rt; sum(alloc, false)?.ctype().base == Base::Int);
    assert!(rt; sum(alloc, true)?.ctype().base == Base::UnsignedChar);
    let put = TExpr::PutChar(
        plain(alloc, Base::Int),
        Boxed::new(alloc, sum(alloc, true)?)?,
    );
    assert!(rt; put.ctype().base == Base::Int);
    let end = TExpr::Exit(
        plain(alloc, Base::Void),
        Boxed::new(alloc, number(alloc, 3))?,
    );
    assert!(rt; end.ctype().base == Base::Void);
    Ok(())
}

#[test]
fn scalars_have_widths(rt: HostRuntime) -> Result<(), Fail> {
    assert!(rt; Scalar::Integer(Width::S16).width() == Width::S16);
    assert!(rt; Scalar::Pointer.width() == Width::Word);
    Ok(())
}
