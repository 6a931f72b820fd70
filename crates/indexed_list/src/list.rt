//! The list.
//! Its values in order, and a table of the first place of each.

ghost use Rattle.std.specs.Prelude.{◌≡◌, ◌++◌, ◌∷◌, [], OnErr, OnOk, length, slice_get};
ghost use Rattle.std.specs.List.{list_any, position_from};
ghost use Rattle.std.specs.Option.{option_copied};
ghost use Rattle.scope_map.specs.Scopes.{latest};

use crate::try_clone::TryClone;
use scope_map::ScopeMap;
use std::alloc::Global;
use std::hash::Hash;
use std::marker::Model;
use word_ops::{Items, Memory};

/// A list of values, which contracts see as that list.
#[derive(Drop)]
pub struct IndexedList<T: Eq + Hash + Drop> {
    values: Items<T>,
    firsts: ScopeMap<T, usize>,
}

impl<T: Eq + Hash + Drop> Model for IndexedList<T> {
    ghost use Rattle.std.specs.Prelude.{◌≡◌, List};
    ghost use Rattle.std.specs.List.{position_from};
    ghost use Rattle.std.specs.Coded.{coded_list};
    ghost use Rattle.scope_map.specs.Scopes.{latest};

    ghost Value = { List T };

    ghost coded = { coded_list T.code };

    ghost view = { λ list. list.values };

    ghost invariant = { λ list. (value : T) → latest T.eq list.firsts value ≡ position_from (λ one. T.eq one value) 0 list.values };
}

impl<T: Eq + Hash + Drop> IndexedList<T> {
    /// No value. Takes no memory.
    pub fn new(alloc: Global) -> IndexedList<T>
        ensures { result ≡ [] }
    {
        IndexedList {
            values: Items::new(alloc),
            firsts: ScopeMap::new(alloc),
        }
    }

    /// How many values there are.
    pub fn len(&self) -> usize
        ensures { result ≡ length self.now }
    {
        self.values.len()
    }

    /// The value at a place, or `None` where the list is not as long.
    pub fn get(&self, place: usize) -> Option<&T>
        ensures { option_copied result ≡ slice_get self.now place }
    {
        self.values.get(place)
    }

    /// All values, in order.
    pub fn as_slice(&self) -> &[T]
        ensures { result.now ≡ self.now }
    {
        self.values.as_slice()
    }

    /// The first place of a value, from 0, or `None` where it does not stand.
    pub fn place_of(&self, value: &T) -> Option<usize>
        ensures { result ≡ position_from (λ one. T.eq one value.now) 0 self.now }
    {
        self.firsts.get(value).copied()
    }

    /// Whether a value stands.
    pub fn contains(&self, value: &T) -> bool
        ensures { result ≡ list_any (T.eq value.now) self.now }
    {
        self.place_of(value).is_some()
    }
}

impl<T: Eq + Hash + Drop + TryClone> IndexedList<T> {
    /// Puts a value behind the others.
    ///
    /// # Errors
    ///
    /// `Memory` where memory for it is wanting; nothing has changed then.
    pub fn push(&mut self, alloc: Global, value: T) -> Result<(), Memory>
        ensures appended { OnOk result (self.new ≡ self.old ++ value ∷ []) }
        ensures kept { OnErr result (self.new ≡ self.old) }
    {
        if self.firsts.get(&value).is_some() {
            self.values.push(value)?;
            return Ok(());
        }
        let Ok(key) = value.try_clone(alloc) else {
            drop(value);
            return Err(Memory);
        };
        let mark = self.firsts.mark();
        self.firsts.insert(key, self.values.len())?;
        let Ok(()) = self.values.push(value) else {
            self.firsts.leave(mark);
            return Err(Memory);
        };
        Ok(())
    }
}
