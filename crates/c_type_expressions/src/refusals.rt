//! What a row gives whose operands do not fit: the fault is told at its place,
//! nothing is found, and the operands are let go of.

ghost use Rattle.c_typing.specs.Scopes as scopes;
ghost use Rattle.c_type_walk.specs.Walks.{Walks};

use c_tree::{FaultKind, Pos};
use c_type_walk::{Around, Found};
use word_ops::Memory;

/// Tells a fault of a construct, which is nothing then, and lets go of its parts.
pub(crate) fn refused<P: Drop, A: Drop>(
    found: &mut Found,
    around: &Around<'_>,
    kind: FaultKind,
    place: Pos,
    parts: P,
) -> Result<Option<A>, Memory>
    ensures { Walks (scopes.tell kind place) around.now found.old result found.new }
{
    drop(parts);
    found.tell(around, kind, place)
}
