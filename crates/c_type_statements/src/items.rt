//! Blocks and what stands in them (C11 6.8.2).
//! Walks over declarations and statements in turn.

ghost use Rattle.std.specs.Prelude.{map};
ghost use Rattle.c_typing.specs.OfStatements as spec;
ghost use Rattle.c_typing.specs.Statements.{block_item_typing};
ghost use Rattle.c_type_walk.specs.Nests.{Nests};
ghost use Rattle.c_type_walk.specs.Walks.{Walks};
ghost use Rattle.c_type_statements.specs.Nested.{WalksStmt};

use crate::blocks::{begin_objects, count_items, end_objects};
use crate::walker::Walker;
use crate::whole::block_of;
use c_tree::typed::TStmt;
use c_tree::{BlockItem, Stmt};
use c_type_declarations::{both, declaration_row, one};
use c_type_walk::{Around, Found};
use std::alloc::Global;
use word_ops::{Items, Memory};

impl<F: Fn(Global, &mut Found, &Around<'_>, u64, &Stmt) -> Result<Option<TStmt>, Memory>> Walker<
    F,
> {
    /// A block (C11 6.8.2).
    pub fn block_row(
        &self,
        found: &mut Found,
        around: &Around<'_>,
        items: &[BlockItem],
    ) -> Result<Option<TStmt>, Memory>
        requires { Nests WalksStmt self.now.more (F.pre self.now.inside) (F.post self.now.inside) }
        ensures { Walks (spec.block_row (map block_item_typing items.now)) around.now found.old result found.new }
    {
        let count = count_items(self.alloc, &found.state, items)?;
        let scope = around.in_scope(found);
        let (outside, within) = begin_objects(self.alloc, found, &scope, count)?;
        let Ok(made) = self.items_row(found, &within, items) else {
            drop(outside);
            return Err(Memory);
        };
        let Ok(objects) = end_objects(self.alloc, found, outside) else {
            drop(made);
            return Err(Memory);
        };
        found.close(scope.names_from, scope.tags_from);
        Ok(block_of(objects, made))
    }

    /// What stands in a block, in order.
    ///
    /// # Errors
    ///
    /// `Memory` where memory is wanting.
    pub fn items_row(
        &self,
        found: &mut Found,
        around: &Around<'_>,
        items: &[BlockItem],
    ) -> Result<Option<Items<TStmt>>, Memory>
        requires { Nests WalksStmt self.now.more (F.pre self.now.inside) (F.post self.now.inside) }
        ensures { Walks (spec.items_row (map block_item_typing items.now)) around.now found.old result found.new }
    {
        let mut made = Some(Items::new(self.alloc));
        for item in items {
            let Ok(next) = self.item_row(found, around, item) else {
                drop(made);
                return Err(Memory);
            };
            made = both(made, next)?;
        }
        Ok(made)
    }

    /// A declaration or a statement; labels stand in the block of a `switch` alone.
    pub fn item_row(
        &self,
        found: &mut Found,
        around: &Around<'_>,
        item: &BlockItem,
    ) -> Result<Option<Items<TStmt>>, Memory>
        requires { Nests WalksStmt self.now.more (F.pre self.now.inside) (F.post self.now.inside) }
        ensures { Walks (spec.item_row (block_item_typing item.now)) around.now found.old result found.new }
    {
        match item {
            BlockItem::Declaration(tree) => declaration_row(self.alloc, found, around, tree),
            BlockItem::Statement(tree) => {
                let Some(made) = self.nested(found, around, tree)? else {
                    return Ok(None);
                };
                Ok(Some(one(self.alloc, made)?))
            }
            BlockItem::Case(_, _, _) => Ok(Some(Items::new(self.alloc))),
            BlockItem::Default(_, _) => Ok(Some(Items::new(self.alloc))),
        }
    }
}
