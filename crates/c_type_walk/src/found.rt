//! What typing has found in a unit so far.
//! No walk and no row: what both write down and look up.

ghost use Rattle.std.specs.Prelude.{◌≡◌, ◌++◌, ◌∷◌, [], OnOk, take};
ghost use Rattle.std.specs.Option.{option_copied};
ghost use Rattle.c_typing.specs.Faults as faults;
ghost use Rattle.c_typing.specs.Scopes as spec;
ghost use Rattle.c_typing.specs.Units as units;
ghost use Rattle.c_type_walk.specs.Walks.{Walks, fixed};

use crate::around::Around;
use crate::names::copied_text;
use crate::scopes::{meaning_of, no_scope, tag_of};
use c_layout::Tags;
use c_tree::{FaultKind, Pos};
use c_typing::{Fault, Linkage, Meaning, State, Tag};
use scope_map::ScopeMap;
use std::alloc::Global;
use word_ops::{Items, Memory, Text};

/// What typing has found in a unit so far.
#[derive(Drop)]
pub struct Found {
    /// its faults, in the order in which they were found
    pub faults: Items<Fault>,
    /// what is visible, and what was declared
    pub state: State,
}

impl Found {
    /// Nothing is declared yet. Takes no memory.
    pub fn new(alloc: Global) -> Found
        ensures faults { result.faults ≡ [] }
        ensures state { result.state ≡ units.nothing_found }
    {
        Found {
            faults: Items::new(alloc),
            state: State {
                names: ScopeMap::new(alloc),
                tags: ScopeMap::new(alloc),
                outer: no_scope(alloc),
                listed: no_scope(alloc),
                structs: Tags::new(alloc),
                fixed: Items::new(alloc),
                enums: 0,
                linked: ScopeMap::new(alloc),
                starts: ScopeMap::new(alloc),
                statics: Items::new(alloc),
                declared: 0,
                own: Items::new(alloc),
                addressed: Items::new(alloc),
                unready: Items::new(alloc),
            },
        }
    }

    /// Tells a fault of a construct, which is nothing then.
    pub fn tell<A: Drop>(
        &mut self,
        around: &Around<'_>,
        kind: FaultKind,
        place: Pos,
    ) -> Result<Option<A>, Memory>
        ensures { Walks (spec.tell kind place) around.now self.old result self.new }
    {
        self.faults.push(Fault { kind, place })?;
        Ok(None)
    }

    /// Tells a fault where a test holds, beside what a construct is all the same.
    pub fn tell_if(&mut self, holds: bool, kind: FaultKind, place: Pos) -> Result<(), Memory>
        ensures faults { OnOk result (self.new.faults ≡ self.old.faults ++ spec.fault_if holds kind place) }
        ensures state { self.new.state ≡ self.old.state }
    {
        if holds {
            self.faults.push(Fault { kind, place })?;
        }
        Ok(())
    }

    /// Keeps what has no typed tree yet, where a test holds: it is told of where there is no fault.
    pub fn unready_if(&mut self, holds: bool, kind: FaultKind, place: Pos) -> Result<(), Memory>
        ensures faults { self.new.faults ≡ self.old.faults }
        ensures state { OnOk result (self.new.state ≡ record self.old.state { unready = self.old.state.unready ++ spec.fault_if holds kind place }) }
    {
        if holds {
            self.state.unready.push(Fault { kind, place })?;
        }
        Ok(())
    }

    /// What an ordinary identifier stands for here (C11 6.2.1p2), or nothing.
    pub fn meaning(&self, name: &Text) -> Option<&Meaning>
        ensures { option_copied result ≡ spec.meaning_of self.now.state name.now }
    {
        meaning_of(&self.state, name)
    }

    /// What the present scope has declared by an ordinary identifier.
    pub fn own_meaning(&self, around: &Around<'_>, name: &Text) -> Option<&Meaning>
        ensures { option_copied result ≡ spec.own_meaning (fixed around.now) self.now.state name.now }
    {
        self.state.names.get_since(around.names_from, name)
    }

    /// What a tag stands for here (C11 6.7.2.3), or nothing.
    pub fn tag(&self, name: &Text) -> Option<Tag>
        ensures { result ≡ spec.tag_of self.now.state name.now }
    {
        tag_of(&self.state, name).copied()
    }

    /// What the present scope has declared by a tag.
    pub fn own_tag(&self, around: &Around<'_>, name: &Text) -> Option<Tag>
        ensures { result ≡ spec.own_tag (fixed around.now) self.now.state name.now }
    {
        self.state.tags.get_since(around.tags_from, name).copied()
    }

    /// What has linkage by this name in the unit so far (C11 6.2.2), or nothing.
    pub fn linkage(&self, name: &Text) -> Option<&Linkage>
        ensures { option_copied result ≡ spec.latest self.now.state.linked name.now }
    {
        self.state.linked.get(name)
    }

    /// Makes an ordinary identifier visible from here on.
    pub fn declare(&mut self, alloc: Global, name: &Text, meaning: Meaning) -> Result<(), Memory>
        ensures faults { self.new.faults ≡ self.old.faults }
        ensures state { OnOk result (self.new.state ≡ record self.old.state { names = self.old.state.names ++ (name.now, meaning) ∷ [] }) }
    {
        let name = copied_text(alloc, name)?;
        self.state.names.insert(name, meaning)
    }

    /// Makes a tag visible from here on.
    pub fn declare_tag(&mut self, alloc: Global, name: &Text, tag: Tag) -> Result<(), Memory>
        ensures faults { self.new.faults ≡ self.old.faults }
        ensures state { OnOk result (self.new.state ≡ record self.old.state { tags = self.old.state.tags ++ (name.now, tag) ∷ [] }) }
    {
        let name = copied_text(alloc, name)?;
        self.state.tags.insert(name, tag)
    }

    /// Ends a scope that began where so many identifiers and tags were visible (C11 6.2.1p4).
    pub fn close(&mut self, names: usize, tags: usize)
        ensures faults { self.new.faults ≡ self.old.faults }
        ensures state { self.new.state ≡ record self.old.state { names = take names self.old.state.names; tags = take tags self.old.state.tags } }
    {
        if names <= self.state.names.mark() {
            self.state.names.leave(names);
        }
        if tags <= self.state.tags.mark() {
            self.state.tags.leave(tags);
        }
    }
}
