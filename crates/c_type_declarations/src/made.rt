//! What walks in a row come to.
//! No walk: what two of them gave, put together.

ghost use Rattle.std.specs.Prelude.{◌≡◌, [], ◌∷◌, IfOk};
ghost use Rattle.c_type_declarations.specs.Rows as rows;

use std::alloc::Global;
use word_ops::{Items, Memory};

/// One item.
///
/// # Errors
///
/// `Memory` where memory is wanting.
pub fn one<T: Drop>(alloc: Global, item: T) -> Result<Items<T>, Memory>
    ensures { IfOk result (λ items. items ≡ item ∷ []) }
{
    let mut items = Items::new(alloc);
    if items.push(item).is_err() {
        drop(items);
        return Err(Memory);
    }
    Ok(items)
}

/// One list and then another, where both are there.
///
/// # Errors
///
/// `Memory` where memory is wanting.
pub fn both<T: Drop>(
    first: Option<Items<T>>,
    then: Option<Items<T>>,
) -> Result<Option<Items<T>>, Memory>
    ensures { IfOk result (λ items. items ≡ rows.both first then) }
{
    let Some(mut first) = first else {
        drop(then);
        return Ok(None);
    };
    let Some(then) = then else {
        drop(first);
        return Ok(None);
    };
    if first.append(then).is_err() {
        drop(first);
        return Err(Memory);
    }
    Ok(Some(first))
}
