//! Which operands may be written (C11 6.3.2.1p1, 6.5.16p2): the left sides of
//! assignments, and the operands of `++` and `--`.

ghost use Rattle.std.specs.Prelude.{IfOk};
ghost use Rattle.c_typing.specs.Expressions as spec;
ghost use Rattle.c_type_walk.specs.Walks.{Walks};
ghost use Rattle.c_type_expressions.specs.Lvalues.{IsLvalue};

use c_tree::{FaultKind, Pos};
use c_type_rules::{is_array, is_lvalue, is_read_only};
use c_type_walk::{Around, Found};
use c_typing::Operand;
use word_ops::Memory;

/// The left side of an assignment, or the operand of `++` or `--`: an lvalue that may be modified, and no array, which is
/// converted to a pointer that is no lvalue (C11 6.5.16p2, 6.5.2.4p1, 6.5.3.1p1, 6.3.2.1p1, p3).
///
/// # Errors
///
/// `Memory` where memory is wanting.
pub(crate) fn target_row(
    found: &mut Found,
    around: &Around<'_>,
    place: Pos,
    operand: Operand,
) -> Result<Option<Operand>, Memory>
    ensures walks { Walks (spec.target_row place operand) around.now found.old result found.new }
    ensures lvalue { IfOk result IsLvalue }
{
    if !is_lvalue(&operand) || is_array(&operand.ctype) {
        return found.tell(around, FaultKind::NotLvalue, place);
    }
    if is_read_only(&found.state.fixed, &operand.ctype) {
        return found.tell(around, FaultKind::ConstWrite, place);
    }
    Ok(Some(operand))
}
