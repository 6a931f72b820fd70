//! The recursion on the trees that stand inside one another.
//! Ends each walk of this crate: the one function that leads back to itself, with a count that goes down.

ghost use Rattle.std.specs.Prelude.{◌≡◌};
ghost use Rattle.c_type_walk.specs.Nests.{Nests};
ghost use Rattle.c_type_trees.specs.Nested.{WalksTree};

use crate::nested::{Tree, Typed};
use crate::walker::Walker;
use c_type_walk::{Around, Found};
use std::alloc::Global;
use word_ops::Memory;

impl<F: Fn(Global, &mut Found, &Around<'_>, u64, Tree<'_>) -> Result<Typed, Memory>> Walker<F> {
    /// What typing makes of a tree.
    fn tree(&self, found: &mut Found, around: &Around<'_>, tree: Tree<'_>) -> Result<Typed, Memory>
        requires { Nests WalksTree self.now.more (F.pre self.now.inside) (F.post self.now.inside) }
        ensures { WalksTree tree.entry around.now found.old result found.new }
    {
        match tree {
            Tree::Expression(tree) => Ok(Typed::Operand(self.expression(found, around, tree)?)),
            Tree::Specifiers(alone, list) => {
                Ok(Typed::Basis(self.basis(found, around, alone, list)?))
            }
            Tree::Declarator(defining, tree) => {
                Ok(Typed::Parts(self.derivations(found, around, tree, defining)?))
            }
        }
    }
}

/// What typing makes of a tree inside another, where so many may stand inside one another with that one.
///
/// # Errors
///
/// `Memory` where memory is wanting, or no more trees may stand inside one another.
pub(crate) fn inside(
    alloc: Global,
    found: &mut Found,
    around: &Around<'_>,
    more: u64,
    tree: Tree<'_>,
) -> Result<Typed, Memory>
    ensures { WalksTree tree.entry around.now found.old result found.new }
{
    if more == 0 {
        return Err(Memory);
    }
    let walker = Walker {
        alloc,
        more: more - 1,
        inside,
    };
    walker.tree(found, around, tree)
}
