//! Prefixes and the operands behind them (C11 6.5.3, 6.5.4).
//! Walks over prefixes from left to right; the rows stand in c_type_expressions.

ghost use Rattle.std.specs.Prelude.{◌≡◌, map};
ghost use Rattle.std.specs.Option.{option_map};
ghost use Rattle.c_typing.specs.Trees as typing;
ghost use Rattle.c_type_walk.specs.Nests.{Nests};
ghost use Rattle.c_type_walk.specs.Walks.{Walks};
ghost use Rattle.c_type_expressions.specs.Prefixes.{prefixing};
ghost use Rattle.c_type_expressions.specs.Told.{WalksAs};
ghost use Rattle.c_type_trees.specs.Calls as calls;
ghost use Rattle.c_type_trees.specs.Nested.{WalksTree};
ghost use Rattle.c_type_trees.specs.Sequences as sequences;

use crate::nested::{Tree, Typed};
use crate::operands::{casting_if_any, size_if_any};
use crate::sequences::prefixed_if_any;
use crate::walker::Walker;
use c_tree::{Expr, Pos, Prefix, TypeName};
use c_type_expressions::Prefixing;
use c_type_walk::{Around, Found};
use c_typing::Operand;
use std::alloc::Global;
use word_ops::{Boxed, Items, Memory};

impl<F: Fn(Global, &mut Found, &Around<'_>, u64, Tree<'_>) -> Result<Typed, Memory>> Walker<F> {
    /// Prefixes, and the operand behind them.
    #[inline(never)]
    pub fn prefixed(
        &self,
        found: &mut Found,
        around: &Around<'_>,
        run: &[Prefix],
        operand: &Expr,
    ) -> Result<Option<Boxed<Operand>>, Memory>
        requires { Nests WalksTree self.now.more (F.pre self.now.inside) (F.post self.now.inside) }
        ensures { Walks (sequences.prefixed_row (map typing.prefix_typing run.now) (typing.expr_typing operand.now)) around.now found.old result found.new }
    {
        let all = self.prefixes(found, around, run)?;
        let value = or_drop!(self.expr(found, around, operand), all);
        prefixed_if_any(self.alloc, found, around, all, value)
    }

    /// Prefixes, from left to right.
    #[inline(never)]
    fn prefixes(
        &self,
        found: &mut Found,
        around: &Around<'_>,
        run: &[Prefix],
    ) -> Result<Option<Items<Option<Prefixing>>>, Memory>
        requires { Nests WalksTree self.now.more (F.pre self.now.inside) (F.post self.now.inside) }
        ensures { WalksAs (λ all. map (option_map prefixing) all) (sequences.prefixes_walk (map typing.prefix_typing run.now)) around.now found.old result found.new }
    {
        let mut all = Items::new(self.alloc);
        for one in run {
            let given = or_drop!(self.prefix(found, around, one), all);
            or_drop!(all.push(given), all);
        }
        Ok(Some(all))
    }

    /// What a prefix does to the operand behind it.
    fn prefix(
        &self,
        found: &mut Found,
        around: &Around<'_>,
        tree: &Prefix,
    ) -> Result<Option<Prefixing>, Memory>
        requires { Nests WalksTree self.now.more (F.pre self.now.inside) (F.post self.now.inside) }
        ensures { WalksAs prefixing (typing.prefix_typing tree.now).walk around.now found.old result found.new }
    {
        match tree {
            Prefix::Operator(mark) => Ok(Some(Prefixing::Marking(*mark))),
            Prefix::Sizeof(place) => Ok(Some(Prefixing::Sizing(*place))),
            Prefix::Cast(from, tree, _) => {
                let ctype = self.type_name(found, around, *from, tree)?;
                Ok(casting_if_any(*from, ctype))
            }
        }
    }

    /// `sizeof` of a type (C11 6.5.3.4).
    #[inline(never)]
    pub fn sizeof(
        &self,
        found: &mut Found,
        around: &Around<'_>,
        place: Pos,
        tree: &TypeName,
    ) -> Result<Option<Boxed<Operand>>, Memory>
        requires { Nests WalksTree self.now.more (F.pre self.now.inside) (F.post self.now.inside) }
        ensures { Walks (calls.sizeof_row place (typing.type_name_typing tree.now)) around.now found.old result found.new }
    {
        let ctype = self.type_name(found, around, place, tree)?;
        size_if_any(self.alloc, found, around, place, ctype)
    }
}
