//! The table of the terms in scope with their nodes and facts: a term's number is its place, and a shared node is found
//! by a hash.

ghost use Rattle.std.specs.Prelude.{◌≡◌, ◌≢◌, ℕ, ◌<◌, ◌≤◌, List, [], ◌∷◌, ◌++◌, length, take, IfOk, OnErr, IfSome, Some, None};
ghost use Rattle.domain_laws.specs.Promises.{IsOverScope};
ghost use Rattle.term_domain.specs.Keys.{own_place};
ghost use Rattle.term_domain.specs.Rows.{node_at, facts_at, IsNew};

use crate::key::{Key, key_of};
use indexmap::IndexMap;
use std::alloc::Global;
use std::marker::Model;
use term_form::{Facts, Node, Term};
use word_ops::Memory;

/// The nodes and the facts of the terms in scope, by their numbers, which contracts see as the list of its rows.
#[derive(Drop)]
pub struct Table {
    rows: IndexMap<Key, Facts>,
}

impl Model for Table {
    ghost use Rattle.term_domain.specs.Rows.{Rows, IsTable};

    ghost Value = { Rows };

    ghost view = { λ table. table.rows.entries };

    ghost invariant = { λ table. IsTable table.rows.entries };
}

impl Table {
    /// A table without terms.
    pub fn new(alloc: Global) -> Self
        ensures { result ≡ [] }
    {
        Table {
            rows: IndexMap::new(alloc),
        }
    }

    /// How many terms there are.
    pub fn len(&self) -> usize
        ensures { result ≡ length self.now }
    {
        self.rows.len()
    }

    /// The place of the term of a node that is shared.
    pub fn find(&self, node: Node) -> Option<usize>
        requires { (x : ℕ) → own_place node x ≡ None }
        ensures found { IfSome result (λ x. (x < length self.now) × (node_at self.now x ≡ node)) }
        ensures only { IfSome result (λ x. (y : ℕ) → y < length self.now → node_at self.now y ≡ node → y ≡ x) }
        ensures none { result ≡ None → (x : ℕ) → x < length self.now → node_at self.now x ≢ node }
    {
        self.rows.get_index_of(&key_of(node, 0))
    }

    /// One more term. A shared node must not be there.
    ///
    /// # Errors
    ///
    /// `Memory` where memory for the row is wanting, or where no number below 2^32 is left; nothing has changed then.
    pub fn push(&mut self, node: Node, facts: Facts) -> Result<Term, Memory>
        requires older { IsOverScope (λ y. y < length self.old) node }
        requires new { own_place node (length self.old) ≡ None → (x : ℕ) → x < length self.old → node_at self.old x ≢ node }
        ensures ok { IfOk result (λ t. IsNew self.old node facts t.0 self.new) }
        ensures err { OnErr result (self.new ≡ self.old) }
    {
        let place = self.rows.len();
        let Ok(number) = u32::try_from(place) else {
            return Err(Memory);
        };
        self.rows.insert(key_of(node, place), facts)?;
        Ok(Term(number))
    }

    /// The node of a term.
    pub fn node(&self, place: usize) -> Node
        requires { place < length self.now }
        ensures is { result ≡ node_at self.now place }
        ensures older { IsOverScope (λ y. y < place) result }
    {
        match self.rows.get_index(place) {
            Some((key, _)) => key.node,
            None => unreachable!(),
        }
    }

    /// The facts of a term.
    pub fn facts(&self, place: usize) -> Facts
        requires { place < length self.now }
        ensures { result ≡ facts_at self.now place }
    {
        match self.rows.get_index(place) {
            Some((_, facts)) => *facts,
            None => unreachable!(),
        }
    }

    /// Goes back to so many terms.
    pub fn truncate(&mut self, count: usize)
        ensures { self.new ≡ take count self.old }
    {
        self.rows.truncate(count);
    }
}
