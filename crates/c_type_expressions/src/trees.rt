//! Parts of typed trees that several rows make: the trees of converted operands, and lists
//! with one more item.

ghost use Rattle.std.specs.Prelude.{◌≡◌, ◌∷◌, ◌++◌, [], IfOk};
ghost use Rattle.c_typing.specs.Operands as operands;

use c_tree::typed::{CType, TExpr};
use c_type_rules::{converted, copied, tree_of};
use c_typing::Operand;
use std::alloc::Global;
use word_ops::{Items, Memory};

/// The tree of an operand that is converted to this type.
pub(crate) fn converted_tree(alloc: Global, ctype: CType, operand: Operand) -> Result<TExpr, Memory>
    ensures { IfOk result (λ tree. tree ≡ operands.tree_of (operands.converted ctype operand)) }
{
    tree_of(alloc, converted(alloc, ctype, operand)?)
}

/// The same for a type that is kept elsewhere.
pub(crate) fn tree_at(alloc: Global, ctype: &CType, operand: Operand) -> Result<TExpr, Memory>
    ensures { IfOk result (λ tree. tree ≡ operands.tree_of (operands.converted ctype.now operand)) }
{
    let Ok(ctype) = copied(alloc, ctype) else {
        drop(operand);
        return Err(Memory);
    };
    converted_tree(alloc, ctype, operand)
}

/// A list with one more item at its end.
pub(crate) fn with_item<T: Drop>(list: Items<T>, item: T) -> Result<Items<T>, Memory>
    ensures { IfOk result (λ longer. longer ≡ list ++ item ∷ []) }
{
    let mut list = list;
    if list.push(item).is_err() {
        drop(list);
        return Err(Memory);
    }
    Ok(list)
}
