//! Lists from the other end, so that their items can be taken one after another.
//! No rows: `starts` and `values` begin with it.

ghost use Rattle.std.specs.Prelude.{◌≡◌, IfOk, reverse};

use std::alloc::Global;
use word_ops::{Items, Memory};

/// The items of a list, the last one first.
pub(crate) fn reversed<T: Drop>(alloc: Global, list: Items<T>) -> Result<Items<T>, Memory>
    ensures { IfOk result (λ r. r ≡ reverse list) }
{
    let mut list = list;
    let mut turned = Items::new(alloc);
    while let Some(last) = list.pop() {
        if turned.push(last).is_err() {
            drop((list, turned));
            return Err(Memory);
        }
    }
    drop(list);
    Ok(turned)
}
