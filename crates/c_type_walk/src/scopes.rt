//! What is visible in file scope and in the scope of a function definition, and how a walk goes from one to the other.
//! No walk and no row: what both look up.

ghost use Rattle.std.specs.Prelude.{◌≡◌, false};
ghost use Rattle.std.specs.Option.{option_copied};
ghost use Rattle.c_typing.specs.Scopes as spec;
ghost use Rattle.c_typing.specs.Units as units;
ghost use Rattle.c_type_walk.specs.Walks.{fixed};

use crate::around::Around;
use crate::found::Found;
use c_typing::{Meaning, Scope, State, Tag};
use scope_map::ScopeMap;
use std::alloc::Global;
use std::mem;
use word_ops::Text;

/// What an ordinary identifier stands for here (C11 6.2.1p2), or nothing.
pub fn meaning_of<'a>(state: &'a State, name: &Text) -> Option<&'a Meaning>
    ensures { option_copied result ≡ spec.meaning_of state.now name.now }
{
    match state.names.get(name) {
        Some(meaning) => Some(meaning),
        None => state.outer.names.get(name),
    }
}

/// What a tag stands for here (C11 6.7.2.3), or nothing.
pub(crate) fn tag_of<'a>(state: &'a State, name: &Text) -> Option<&'a Tag>
    ensures { option_copied result ≡ spec.tag_of state.now name.now }
{
    match state.tags.get(name) {
        Some(tag) => Some(tag),
        None => state.outer.tags.get(name),
    }
}

/// A scope in which nothing is declared. Takes no memory.
pub(crate) fn no_scope(alloc: Global) -> Scope
    ensures { result ≡ spec.no_scope }
{
    Scope {
        names: ScopeMap::new(alloc),
        tags: ScopeMap::new(alloc),
    }
}

impl<'a> Around<'a> {
    /// The same in the scope of a function definition (C11 6.2.1p4).
    pub fn in_definition(&self) -> Around<'a>
        ensures { fixed result ≡ record (fixed self.now) { at_file_level = false; names_from = 0; tags_from = 0 } }
    {
        Around {
            at_file_level: false,
            names_from: 0,
            tags_from: 0,
            ..*self
        }
    }
}

impl Found {
    /// Begins a function definition: no parameter list of it has been read yet.
    pub fn begin_definition(&mut self, alloc: Global)
        ensures faults { self.new.faults ≡ self.old.faults }
        ensures state { self.new.state ≡ units.unlisted self.old.state }
    {
        self.state.listed = no_scope(alloc);
    }

    /// Enters the scope of a function definition, with its parameter list and again with its block (C11 6.2.1p4).
    pub fn enter_definition(&mut self, alloc: Global)
        ensures faults { self.new.faults ≡ self.old.faults }
        ensures state { self.new.state ≡ spec.entered self.old.state }
    {
        let listed = mem::replace(&mut self.state.listed, no_scope(alloc));
        self.state.outer = self.exchange(listed);
    }

    /// Leaves the scope of a function definition for file scope, and keeps it.
    pub fn leave_definition(&mut self, alloc: Global)
        ensures faults { self.new.faults ≡ self.old.faults }
        ensures state { self.new.state ≡ spec.left self.old.state }
    {
        let outer = mem::replace(&mut self.state.outer, no_scope(alloc));
        self.state.listed = self.exchange(outer);
    }

    /// Puts a scope in the place of the present one, which is given.
    fn exchange(&mut self, scope: Scope) -> Scope
        ensures given { result ≡ record { names = self.old.state.names; tags = self.old.state.tags } }
        ensures faults { self.new.faults ≡ self.old.faults }
        ensures state { self.new.state ≡ record self.old.state { names = scope.names; tags = scope.tags } }
    {
        Scope {
            names: mem::replace(&mut self.state.names, scope.names),
            tags: mem::replace(&mut self.state.tags, scope.tags),
        }
    }
}
