//! Storing trees, where want of memory is a reason to stop: each call takes what it stores, and so leaves a caller nothing
//! to let go of.

ghost use Rattle.std.specs.Prelude.{◌≡◌, [], ◌∷◌, ◌++◌, MatchResult, IfOk};
ghost use Rattle.c_expr_parser.specs.declared.fault.Stop.TheVariants as stop;

use crate::fault::Stop;
use std::alloc::Global;
use word_ops::{Boxed, Items, Memory, Text};

// The list with an item more; a full block grows.
#[inline(never)]
fn appended<T: Drop>(list: Items<T>, item: T) -> Result<Items<T>, Stop>
    ensures { MatchResult result (λ all. all ≡ list ++ item ∷ []) (λ e. e ≡ stop.Memory) }
{
    let mut list = list;
    match list.push(item) {
        Ok(()) => Ok(list),
        Err(_) => {
            drop(list);
            Err(Stop::Memory)
        }
    }
}

/// The list of one item, in a block of just its size: most lists of a tree stay so.
#[inline(never)]
pub fn alone<T: Drop>(alloc: Global, item: T) -> Result<Items<T>, Stop>
    ensures { MatchResult result (λ all. all ≡ item ∷ []) (λ e. e ≡ stop.Memory) }
{
    match Vec::with_capacity(alloc, 1) {
        Ok(room) => appended(Items::from_vec(room), item),
        Err(_) => {
            drop(item);
            Err(Stop::Memory)
        }
    }
}

/// The list with an item more; a first one stands alone.
#[inline(never)]
pub fn pushed<T: Drop>(alloc: Global, list: Items<T>, item: T) -> Result<Items<T>, Stop>
    ensures { MatchResult result (λ all. all ≡ list ++ item ∷ []) (λ e. e ≡ stop.Memory) }
{
    if list.is_empty() {
        drop(list);
        return alone(alloc, item);
    }
    appended(list, item)
}

/// A box of its own for a tree.
#[inline(never)]
pub fn boxed<T: Drop>(alloc: Global, tree: T) -> Result<Boxed<T>, Stop>
    ensures { MatchResult result (λ stored. stored ≡ tree) (λ e. e ≡ stop.Memory) }
{
    match Boxed::new(alloc, tree) {
        Ok(stored) => Ok(stored),
        Err(_) => Err(Stop::Memory),
    }
}

/// A text of the same bytes.
#[inline(never)]
pub fn copied(alloc: Global, text: &Text) -> Result<Text, Memory>
    ensures { IfOk result (λ copy. copy ≡ text.now) }
{
    Ok(Text::from_vec(Vec::from_slice(alloc, text.as_slice())?))
}
