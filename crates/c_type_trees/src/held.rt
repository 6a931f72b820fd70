//! Operands that are kept while other trees are walked.
//! No row and no walk: they are on the heap, so that a tree inside another one takes little of the stack.

ghost use Rattle.std.specs.Prelude.{◌≡◌, IfOk};

use c_typing::Operand;
use std::alloc::Global;
use word_ops::{Boxed, Memory};

/// An operand on the heap, where no fault stands in it.
pub(crate) fn held(
    alloc: Global,
    operand: Option<Operand>,
) -> Result<Option<Boxed<Operand>>, Memory>
    ensures { IfOk result (λ o. o ≡ operand) }
{
    match operand {
        Some(operand) => Ok(Some(Boxed::new(alloc, operand)?)),
        None => Ok(None),
    }
}

/// The same operand by value.
pub(crate) fn released(operand: Option<Boxed<Operand>>) -> Option<Operand>
    ensures { result ≡ operand }
{
    match operand {
        Some(operand) => Some(operand.into_inner()),
        None => None,
    }
}
