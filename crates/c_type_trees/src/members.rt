//! Structures and their members (C11 6.7.2.1).
//! Walks over their members and declarators; the rows stand in c_type_declarators.

ghost use Rattle.std.specs.Prelude.{◌≡◌, map};
ghost use Rattle.c_typing.specs.Declarators as declarators;
ghost use Rattle.c_typing.specs.Trees as typing;
ghost use Rattle.c_type_walk.specs.Nests.{Nests};
ghost use Rattle.c_type_walk.specs.Walks.{Walks};
ghost use Rattle.c_type_trees.specs.Lists as lists;
ghost use Rattle.c_type_trees.specs.Nested.{WalksTree};

use crate::names::{NOWHERE, name};
use crate::nested::{Tree, Typed};
use crate::types::{NamedMember, copied_type, members_if_both, members_joined};
use crate::walker::Walker;
use c_tree::typed::CType;
use c_tree::{Identifier, Member, MemberDeclarator, Pos};
use c_type_declarators::{member_named, name_place, struct_begun};
use c_type_walk::{Around, Found};
use c_typing::Basis;
use std::alloc::Global;
use word_ops::{Items, Memory};

impl<F: Fn(Global, &mut Found, &Around<'_>, u64, Tree<'_>) -> Result<Typed, Memory>> Walker<F> {
    /// A structure and its members.
    pub fn structure(
        &self,
        found: &mut Found,
        around: &Around<'_>,
        word: Pos,
        tag: &Option<Identifier>,
        list: &[Member],
    ) -> Result<Option<CType>, Memory>
        requires { Nests WalksTree self.now.more (F.pre self.now.inside) (F.post self.now.inside) }
        ensures { Walks (declarators.struct_row word tag.now (map typing.member_typing list.now)) around.now found.old result found.new }
    {
        let number = struct_begun(self.alloc, found, around, tag.as_ref())?;
        let all = self.members(found, around, list)?;
        let place = name_place(tag.as_ref(), word);
        members_if_both(self.alloc, found, around, place, number, all)
    }

    /// The members of a structure, where no fault stands in a declaration of them.
    fn members(
        &self,
        found: &mut Found,
        around: &Around<'_>,
        list: &[Member],
    ) -> Result<Option<Items<NamedMember>>, Memory>
        requires { Nests WalksTree self.now.more (F.pre self.now.inside) (F.post self.now.inside) }
        ensures { Walks (lists.all_in_row (map typing.member_typing list.now)) around.now found.old result found.new }
    {
        let mut all = Some(Items::new(self.alloc));
        for one in list {
            let more = or_drop!(self.member(found, around, one), all);
            all = members_joined(all, more)?;
        }
        Ok(all)
    }

    /// A declaration of members.
    fn member(
        &self,
        found: &mut Found,
        around: &Around<'_>,
        tree: &Member,
    ) -> Result<Option<Items<NamedMember>>, Memory>
        requires { Nests WalksTree self.now.more (F.pre self.now.inside) (F.post self.now.inside) }
        ensures { Walks (typing.member_typing tree.now) around.now found.old result found.new }
    {
        let basis = self.specifiers(found, around, false, tree.specifiers.as_slice())?;
        let all = self.member_declarators(found, around, &basis, tree.declarators.as_slice());
        drop(basis);
        all
    }

    /// The declarators of a declaration of members.
    fn member_declarators(
        &self,
        found: &mut Found,
        around: &Around<'_>,
        basis: &Option<Basis>,
        list: &[MemberDeclarator],
    ) -> Result<Option<Items<NamedMember>>, Memory>
        requires { Nests WalksTree self.now.more (F.pre self.now.inside) (F.post self.now.inside) }
        ensures { Walks (lists.all_in_row (map (declarators.one_member basis.now) (map typing.member_declarator_typing list.now))) around.now found.old result found.new }
    {
        let mut all = Some(Items::new(self.alloc));
        for one in list {
            let more = or_drop!(self.member_declarator(found, around, basis, one), all);
            all = members_joined(all, more)?;
        }
        Ok(all)
    }

    /// A member's declarator.
    fn member_declarator(
        &self,
        found: &mut Found,
        around: &Around<'_>,
        basis: &Option<Basis>,
        tree: &MemberDeclarator,
    ) -> Result<Option<Items<NamedMember>>, Memory>
        requires { Nests WalksTree self.now.more (F.pre self.now.inside) (F.post self.now.inside) }
        ensures { Walks (declarators.one_member basis.now (typing.member_declarator_typing tree.now)) around.now found.old result found.new }
    {
        let basis = copied_type(self.alloc, basis)?;
        let ctype = self.declared_type(found, around, &tree.declarator, false, NOWHERE, basis)?;
        member_named(self.alloc, found, around, name(&tree.declarator), ctype)
    }
}
