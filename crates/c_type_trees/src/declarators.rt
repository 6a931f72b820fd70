//! Declarators (C11 6.7.6).
//! Walks over declarators and what stands behind their middle; the rows stand in c_type_declarators.

ghost use Rattle.std.specs.Prelude.{◌≡◌, map};
ghost use Rattle.c_typing.specs.OfTrees as spec;
ghost use Rattle.c_typing.specs.Trees as typing;
ghost use Rattle.c_type_walk.specs.Nests.{Nests};
ghost use Rattle.c_type_walk.specs.Walks.{Walks};
ghost use Rattle.c_type_trees.specs.Nested.{WalksTree};

use crate::names::{direct_makes, first_token};
use crate::nested::{Tree, Typed};
use crate::sequences::joined;
use crate::types::{defines_beside, defines_inside, parts_if_both, sized_array};
use crate::walker::Walker;
use c_tree::{Declarator, DeclaratorSuffix, Direct};
use c_type_walk::{Around, Found};
use c_typing::Part;
use std::alloc::Global;
use word_ops::{Items, Memory};

impl<F: Fn(Global, &mut Found, &Around<'_>, u64, Tree<'_>) -> Result<Typed, Memory>> Walker<F> {
    /// The derivations of a declarator, each applied to the type before it; the parameters of the part beside the name are kept in
    /// scope where it is that of a definition.
    #[inline(never)]
    pub fn derivations(
        &self,
        found: &mut Found,
        around: &Around<'_>,
        tree: &Declarator,
        defining: bool,
    ) -> Result<Option<Items<Part>>, Memory>
        requires { Nests WalksTree self.now.more (F.pre self.now.inside) (F.post self.now.inside) }
        ensures { Walks ((typing.declarator_typing tree.now).parts defining) around.now found.old result found.new }
    {
        let makes = direct_makes(&tree.direct);
        let inside = defines_inside(makes, defining);
        let inner = self.direct_parts(found, around, &tree.direct, inside)?;
        let beside = defines_beside(makes, defining);
        let outer = or_drop!(
            self.suffixes_parts(found, around, tree.suffixes.as_slice(), beside),
            inner
        );
        parts_if_both(self.alloc, tree.pointers.as_slice(), inner, outer)
    }

    /// The derivations of a declarator's middle.
    fn direct_parts(
        &self,
        found: &mut Found,
        around: &Around<'_>,
        tree: &Direct,
        defining: bool,
    ) -> Result<Option<Items<Part>>, Memory>
        requires { Nests WalksTree self.now.more (F.pre self.now.inside) (F.post self.now.inside) }
        ensures { Walks ((typing.direct_typing tree.now).parts defining) around.now found.old result found.new }
    {
        match tree {
            Direct::Nothing => Ok(Some(Items::new(self.alloc))),
            Direct::Named(_) => Ok(Some(Items::new(self.alloc))),
            Direct::Grouped(_, inner, _) => self.parts(found, around, inner.get(), defining),
        }
    }

    /// What stands behind a declarator's middle, in order; the first stands beside the name, where nothing else does.
    fn suffixes_parts(
        &self,
        found: &mut Found,
        around: &Around<'_>,
        list: &[DeclaratorSuffix],
        defining: bool,
    ) -> Result<Option<Items<Part>>, Memory>
        requires { Nests WalksTree self.now.more (F.pre self.now.inside) (F.post self.now.inside) }
        ensures { Walks (spec.suffixes_parts defining (map typing.declarator_suffix_typing list.now)) around.now found.old result found.new }
    {
        let mut all = Some(Items::new(self.alloc));
        let mut kept = defining;
        for one in list {
            let part = or_drop!(self.suffix_part(found, around, one, kept), all);
            all = joined(all, part)?;
            kept = false;
        }
        Ok(all)
    }

    /// An array or a parameter list behind a declarator's middle (C11 6.7.6.2, 6.7.6.3).
    fn suffix_part(
        &self,
        found: &mut Found,
        around: &Around<'_>,
        tree: &DeclaratorSuffix,
        defining: bool,
    ) -> Result<Option<Part>, Memory>
        requires { Nests WalksTree self.now.more (F.pre self.now.inside) (F.post self.now.inside) }
        ensures { Walks ((typing.declarator_suffix_typing tree.now).part defining) around.now found.old result found.new }
    {
        match tree {
            DeclaratorSuffix::Array(_, _) => Ok(Some(Part::Arraying(None))),
            DeclaratorSuffix::ArrayOf(from, size, _) => {
                let operand = self.expr(found, around, size)?;
                sized_array(self.alloc, found, around, *from, first_token(size), operand)
            }
            DeclaratorSuffix::Empty(_, _) => Ok(Some(Part::Listing(Items::new(self.alloc)))),
            DeclaratorSuffix::Void(_, _, _) => Ok(Some(Part::Listing(Items::new(self.alloc)))),
            DeclaratorSuffix::Parameters(_, list, _) => {
                self.parameter_list(found, around, list.as_slice(), defining)
            }
        }
    }
}
