//! The row of `sizeof` (C11 6.5.3.4): the size of a type as a constant, within the limit
//! of 2^24 bytes.

ghost use Rattle.c_typing.specs.Expressions as spec;
ghost use Rattle.c_type_walk.specs.Walks.{Walks};

use c_layout::size;
use c_tree::typed::{Base, CType};
use c_tree::{FaultKind, Pos};
use c_type_rules::{number, plain};
use c_type_walk::{Around, Found};
use c_typing::Operand;
use std::alloc::Global;
use word_ops::Memory;

/// How many bytes a type has at most.
pub(crate) const LARGEST: u64 = 1 << 24;

/// The size of a type, with its fault at this place (C11 6.5.3.4p1, p2).
///
/// # Errors
///
/// `Memory` where memory is wanting.
pub fn size_row(
    alloc: Global,
    found: &mut Found,
    around: &Around<'_>,
    place: Pos,
    ctype: &CType,
) -> Result<Option<Operand>, Memory>
    ensures { Walks (spec.size_row place ctype.now) around.now found.old result found.new }
{
    match size(ctype, &found.state.structs) {
        None => found.tell(around, FaultKind::Incomplete, place),
        Some(bytes) => {
            if bytes > LARGEST {
                found.tell(around, FaultKind::TooLarge, place)
            } else {
                Ok(Some(number(alloc, plain(alloc, Base::Unsigned), bytes as u32)?))
            }
        }
    }
}
