//! The table of names in nested scopes.

ghost use Rattle.std.specs.Prelude.{◌≡◌, ℕ, ◌≤◌, List, [], ◌∷◌, ◌++◌, OnErr, OnOk, if◌then◌else◌, drop, is_some, length, map, take};
ghost use Rattle.std.specs.List.{list_any};
ghost use Rattle.std.specs.Option.{option_copied};
ghost use Rattle.scope_map.specs.Hashes.{hash_of};
ghost use Rattle.scope_map.specs.Scopes.{Marked, latest};

use crate::places::Places;
use std::alloc::Global;
use std::hash::{FoldHasher, Hash, Hasher};
use std::marker::Model;
use word_ops::Memory;

/// A table from keys to values in nested scopes, which contracts see as the list of its pairs, the
/// oldest first.
///
/// A `mark` says how long the table is, and `leave` goes back to it. `Marked now mark at` of the
/// specification says that the mark was made at the list `at` and not left since.
#[derive(Drop)]
pub struct ScopeMap<K: Eq + Hash + Drop, V: Drop> {
    pairs: Vec<(K, V)>,
    hashes: Places,
}

impl<K: Eq + Hash + Drop, V: Drop> Model for ScopeMap<K, V> {
    ghost use Rattle.std.specs.Prelude.{◌≡◌, List, map};
    ghost use Rattle.std.specs.Coded.{coded_list, coded×};
    ghost use Rattle.scope_map.specs.Hashes.{hash_of};

    ghost Value = { List (K × V) };

    ghost coded = { coded_list (coded× K.code V.code) };

    ghost view = { λ table. table.pairs.items };

    ghost invariant = { λ table. table.hashes ≡ map (λ pair. hash_of (K.hash_input pair.0)) table.pairs.items };
}

impl<K: Eq + Hash + Drop, V: Drop> ScopeMap<K, V> {
    /// A table without a pair. Takes no memory.
    pub fn new(alloc: Global) -> Self
        ensures { result ≡ [] }
    {
        ScopeMap {
            pairs: Vec::new(alloc),
            hashes: Places::new(alloc),
        }
    }

    /// The value of the last pair whose key equals this one, or `None` where no pair has the key.
    pub fn get(&self, key: &K) -> Option<&V>
        ensures last { option_copied result ≡ latest K.eq self.now key.now }
        ensures found { is_some result ≡ list_any (λ pair. K.eq pair.0 key.now) self.now }
    {
        self.get_between(0, self.mark(), key)
    }

    /// The value of the last pair since a mark whose key equals this one, or `None` where no pair since then has the key:
    /// what an inner scope says of a key, whatever the outer ones say. Nothing stands behind a mark past the end.
    pub fn get_since(&self, mark: usize, key: &K) -> Option<&V>
        ensures { option_copied result ≡ latest K.eq (drop mark self.now) key.now }
    {
        self.get_between(mark, self.mark(), key)
    }

    /// The value of the last pair since one mark and before another whose key equals this one, or `None` where no such pair
    /// has the key: what a scope has said of a key before another one began in it. A mark past the end is the end.
    pub fn get_between(&self, mark: usize, end: usize, key: &K) -> Option<&V>
        ensures { option_copied result ≡ latest K.eq (drop mark (take end self.now)) key.now }
    {
        let mut next = self.hashes.last_of(hash_of(key));
        while let Some(place) = next {
            if place < mark {
                return None;
            }
            let pair = &self.pairs[place];
            if place < end && pair.0 == *key {
                return Some(&pair.1);
            }
            next = self.hashes.last_before(place);
        }
        None
    }

    /// Puts a pair behind the others, so that it hides those of an equal key.
    ///
    /// # Errors
    ///
    /// `Memory` where memory for the pair is wanting; nothing has changed then.
    #[tactic(auto, using(crate::proofs::Latest::lookups))]
    pub fn insert(&mut self, key: K, value: V) -> Result<(), Memory>
        ensures appended { OnOk result (self.new ≡ self.old ++ (key, value) ∷ []) }
        ensures kept { OnErr result (self.new ≡ self.old) }
        ensures hides { OnOk result ((asked : K) → latest K.eq self.new asked ≡ (if K.eq key asked then Some value else latest K.eq self.old asked)) }
        ensures marks { (mark : ℕ) (at : List (K × V)) → Marked self.old mark at → Marked self.new mark at }
    {
        let place = self.pairs.len();
        self.hashes.push(hash_of(&key))?;
        if self.pairs.push((key, value)).is_err() {
            self.hashes.truncate(place);
            return Err(Memory);
        }
        Ok(())
    }

    /// Marks the present scope: the number of pairs.
    pub fn mark(&self) -> usize
        ensures length { result ≡ length self.now }
        ensures made { Marked self.now result self.now }
    {
        self.pairs.len()
    }

    /// Goes back to a mark: the pairs since then are gone, and older marks stay good.
    pub fn leave(&mut self, mark: usize)
        requires { mark ≤ length self.old }
        ensures left { self.new ≡ take mark self.old }
        ensures back { (at : List (K × V)) → Marked self.old mark at → self.new ≡ at }
        ensures older { (older : ℕ) (at : List (K × V)) → older ≤ mark → Marked self.old older at → Marked self.new older at }
    {
        self.pairs.truncate(mark);
        self.hashes.truncate(mark);
    }
}

// The hash of a key.
fn hash_of<K: Hash>(key: &K) -> u64
    ensures { result ≡ hash_of (K.hash_input key.now) }
{
    let mut hasher = FoldHasher::default();
    key.hash(&mut hasher);
    hasher.finish()
}
