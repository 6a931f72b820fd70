//! `switch` (C11 6.8.4.2).
//! Walks over the items of its body, part by part; the rows stand in `switch`.

ghost use Rattle.std.specs.Prelude.{true, map};
ghost use Rattle.c_typing.specs.OfStatements as spec;
ghost use Rattle.c_typing.specs.Statements.{block_item_typing};
ghost use Rattle.c_typing.specs.Trees.{expr_typing};
ghost use Rattle.c_type_statements.specs.Statements as parts;
ghost use Rattle.c_type_statements.specs.Statements.{WalksPart, parting_of};
ghost use Rattle.c_type_walk.specs.Nests.{Nests};
ghost use Rattle.c_type_walk.specs.Walks.{Walks};
ghost use Rattle.c_type_statements.specs.Nested.{WalksStmt};

use crate::blocks::{begin_objects, count_items, end_objects};
use crate::switch::{Parting, case_row, default_row};
use crate::values::switched;
use crate::walker::Walker;
use crate::whole::switch_of;
use c_tree::typed::{Objects, Part, TStmt};
use c_tree::{BlockItem, Expr, Pos, Stmt};
use c_type_walk::{Around, Found};
use std::alloc::Global;
use word_ops::{Items, Memory};

impl<F: Fn(Global, &mut Found, &Around<'_>, u64, &Stmt) -> Result<Option<TStmt>, Memory>> Walker<
    F,
> {
    /// `switch` (C11 6.8.4.2).
    pub fn switch_row(
        &self,
        found: &mut Found,
        around: &Around<'_>,
        at: Pos,
        condition: &Expr,
        items: &[BlockItem],
    ) -> Result<Option<TStmt>, Memory>
        requires { Nests WalksStmt self.now.more (F.pre self.now.inside) (F.post self.now.inside) }
        ensures { Walks (spec.switch_row at (expr_typing condition.now) (map block_item_typing items.now)) around.now found.old result found.new }
    {
        let within = around.in_scope(found);
        let operand = switched(self.alloc, found, &within, at, condition)?;
        let Ok(body) = self.switch_body(found, &within, items) else {
            drop(operand);
            return Err(Memory);
        };
        found.close(within.names_from, within.tags_from);
        Ok(switch_of(operand, body))
    }

    /// The block of a `switch`, which has a scope of its own.
    fn switch_body(
        &self,
        found: &mut Found,
        around: &Around<'_>,
        items: &[BlockItem],
    ) -> Result<Option<(Objects, Items<Part>)>, Memory>
        requires { Nests WalksStmt self.now.more (F.pre self.now.inside) (F.post self.now.inside) }
        ensures { Walks (parts.switch_body (map block_item_typing items.now)) around.now found.old result found.new }
    {
        let count = count_items(self.alloc, &found.state, items)?;
        let scope = around.in_scope(found);
        let (outside, within) = begin_objects(self.alloc, found, &scope, count)?;
        let within = Around {
            may_break: true,
            ..within
        };
        let Ok(parts) = self.parts_row(found, &within, items) else {
            drop(outside);
            return Err(Memory);
        };
        let Ok(objects) = end_objects(self.alloc, found, outside) else {
            drop(parts);
            return Err(Memory);
        };
        found.close(scope.names_from, scope.tags_from);
        Ok(Some(objects).zip(parts))
    }

    /// The body of a `switch` from label to label. Where an item has a fault, the walk goes on behind it.
    fn parts_row(
        &self,
        found: &mut Found,
        around: &Around<'_>,
        items: &[BlockItem],
    ) -> Result<Option<Items<Part>>, Memory>
        requires { Nests WalksStmt self.now.more (F.pre self.now.inside) (F.post self.now.inside) }
        ensures { Walks (spec.parts_row spec.no_parts true (map block_item_typing items.now)) around.now found.old result found.new }
    {
        let mut parting = Parting::new(self.alloc);
        let mut good = true;
        for item in items {
            let Ok(fine) = self.part_row(found, around, &mut parting, item) else {
                drop(parting);
                return Err(Memory);
            };
            good = good && fine;
        }
        if !good {
            drop(parting);
            return Ok(None);
        }
        Ok(Some(parting.finish(self.alloc)?))
    }

    /// One item of the body of a `switch`; whether no fault stands in it.
    fn part_row(
        &self,
        found: &mut Found,
        around: &Around<'_>,
        parting: &mut Parting,
        item: &BlockItem,
    ) -> Result<bool, Memory>
        requires { Nests WalksStmt self.now.more (F.pre self.now.inside) (F.post self.now.inside) }
        ensures { WalksPart (spec.part_row (parting_of parting.old) (block_item_typing item.now)) around.now found.old parting.new result found.new }
    {
        match item {
            BlockItem::Case(at, value, _) => case_row(
                self.alloc, found, around, parting, *at, value,
            ),
            BlockItem::Default(at, _) => default_row(self.alloc, found, around, parting, *at),
            BlockItem::Declaration(_) => self.stated_row(found, around, parting, item),
            BlockItem::Statement(_) => self.stated_row(found, around, parting, item),
        }
    }

    /// A declaration or a statement, which stands in the present part; whether no fault stands in it.
    fn stated_row(
        &self,
        found: &mut Found,
        around: &Around<'_>,
        parting: &mut Parting,
        item: &BlockItem,
    ) -> Result<bool, Memory>
        requires { Nests WalksStmt self.now.more (F.pre self.now.inside) (F.post self.now.inside) }
        ensures { WalksPart (parts.stated_row (parting_of parting.old) (block_item_typing item.now)) around.now found.old parting.new result found.new }
    {
        let Some(made) = self.item_row(found, around, item)? else {
            return Ok(false);
        };
        parting.add(made)?;
        Ok(true)
    }
}
