//! Storing trees, where want of memory is a fault of the parser: each call takes what it stores, and so leaves a caller
//! nothing to let go of.

ghost use Rattle.std.specs.Prelude.{◌≡◌, [], ◌∷◌, ◌++◌, MatchResult};
ghost use Rattle.c_expr_parser.specs.declared.fault.ParseFault.TheVariants as fault;

use c_expr_parser::ParseFault;
use std::alloc::Global;
use word_ops::{Boxed, Items};

/// The list of one item.
pub fn alone<T: Drop>(alloc: Global, item: T) -> Result<Items<T>, ParseFault>
    ensures { MatchResult result (λ all. all ≡ item ∷ []) (λ e. e ≡ fault.Memory) }
{
    match c_expr_parser::alone(alloc, item) {
        Ok(all) => Ok(all),
        Err(_) => Err(ParseFault::Memory),
    }
}

/// The list with an item more.
pub fn pushed<T: Drop>(alloc: Global, list: Items<T>, item: T) -> Result<Items<T>, ParseFault>
    ensures { MatchResult result (λ all. all ≡ list ++ item ∷ []) (λ e. e ≡ fault.Memory) }
{
    match c_expr_parser::pushed(alloc, list, item) {
        Ok(all) => Ok(all),
        Err(_) => Err(ParseFault::Memory),
    }
}

/// A box of its own for a tree.
pub fn boxed<T: Drop>(alloc: Global, tree: T) -> Result<Boxed<T>, ParseFault>
    ensures { MatchResult result (λ stored. stored ≡ tree) (λ e. e ≡ fault.Memory) }
{
    match Boxed::new(alloc, tree) {
        Ok(stored) => Ok(stored),
        Err(_) => Err(ParseFault::Memory),
    }
}
