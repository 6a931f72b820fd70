//! The public calls.
//! Each begins a walk over items: it makes the walker and hands them to it.

ghost use Rattle.std.specs.Prelude.{map};
ghost use Rattle.c_typing.specs.OfStatements as spec;
ghost use Rattle.c_typing.specs.Statements.{block_item_typing};
ghost use Rattle.c_type_walk.specs.Walks.{Walks};

use crate::inside::inside;
use crate::walker::Walker;
use c_tree::BlockItem;
use c_tree::typed::TStmt;
use c_type_walk::{Around, Found};
use std::alloc::Global;
use word_ops::{Items, Memory};

/// How many statements may stand inside one another. The count is what the recursion ends by; it runs out for no tree, since each
/// statement takes a place of its own in an address space of 64 bits.
const DEEPEST: u64 = u64::MAX;

/// What stands in a block, in order.
///
/// # Errors
///
/// `Memory` where memory is wanting.
pub fn items_row(
    alloc: Global,
    found: &mut Found,
    around: &Around<'_>,
    items: &[BlockItem],
) -> Result<Option<Items<TStmt>>, Memory>
    ensures { Walks (spec.items_row (map block_item_typing items.now)) around.now found.old result found.new }
{
    let walker = Walker {
        alloc,
        more: DEEPEST,
        inside,
    };
    walker.items_row(found, around, items)
}
