//! A list of numbers in which the last place of a number is found in constant time, and from it the places before it.

ghost use Rattle.std.specs.Prelude.{◌≡◌, ℕ, ◌<◌, ◌≤◌, [], ◌∷◌, ◌++◌, OnErr, OnOk, Some, IsSome, if◌then◌else◌, length, nat_eq, slice_get, take};
ghost use Rattle.indexmap.specs.IndexMap.{get};
ghost use Rattle.scope_map.specs.Places.{IsLastOf};

use indexmap::IndexMap;
use std::alloc::Global;
use std::marker::Model;
use word_ops::Memory;

/// A number of the list, and the last place before it where the same number stands.
#[derive(Clone, Copy, Drop)]
pub struct Link {
    number: u64,
    before: Option<usize>,
}

/// A list of numbers, which contracts see as that list.
#[derive(Drop)]
pub struct Places {
    links: Vec<Link>,
    ends: IndexMap<u64, Option<usize>>,
}

impl Model for Places {
    ghost use Rattle.std.specs.Prelude.{ℕ, List, nat_eq};
    ghost use Rattle.indexmap.specs.IndexMap.{get};
    ghost use Rattle.scope_map.specs.Places.{IsLinked, numbers_of};

    ghost Value = { List ℕ };

    ghost view = { λ places. numbers_of places.links.items };

    ghost invariant = { λ places. IsLinked places.links.items (get nat_eq places.ends) };
}

impl Places {
    /// No number. Takes no memory.
    pub fn new(alloc: Global) -> Places
        ensures { result ≡ [] }
    {
        Places {
            links: Vec::new(alloc),
            ends: IndexMap::new(alloc),
        }
    }

    /// The last place of a number, or `None` where it does not stand.
    pub fn last_of(&self, number: u64) -> Option<usize>
        ensures { IsLastOf (slice_get self.now) number (length self.now) result }
    {
        self.ends.get(&number).copied().flatten()
    }

    /// The last place before this one where the same number stands, or `None` where it does not.
    pub fn last_before(&self, place: usize) -> Option<usize>
        requires { place < length self.now }
        ensures { (number : ℕ) → slice_get self.now place ≡ Some number → IsLastOf (slice_get self.now) number place result }
    {
        self.links[place].before
    }

    /// Puts a number behind the others.
    ///
    /// # Errors
    ///
    /// `Memory` where memory for it is wanting; nothing has changed then.
    pub fn push(&mut self, number: u64) -> Result<(), Memory>
        ensures appended { OnOk result (self.new ≡ self.old ++ number ∷ []) }
        ensures kept { OnErr result (self.new ≡ self.old) }
    {
        let place = self.links.len();
        let before = self.last_of(number);
        self.links.push(Link { number, before })?;
        match self.ends.insert(number, Some(place)) {
            Ok(_) => Ok(()),
            Err(_) => {
                self.links.truncate(place);
                Err(Memory)
            }
        }
    }

    /// Keeps so many of the numbers.
    pub fn truncate(&mut self, count: usize)
        requires { count ≤ length self.old }
        ensures { self.new ≡ take count self.old }
    {
        while self.links.len() > count {
            if let Some(link) = self.links.pop() {
                unlink(&mut self.ends, link);
            }
        }
    }
}

// The number of a link ends where it did before.
fn unlink(ends: &mut IndexMap<u64, Option<usize>>, link: Link)
    requires { IsSome (get nat_eq ends.old link.number) }
    ensures { (number : ℕ) → get nat_eq ends.new number ≡ (if nat_eq link.number number then Some link.before else get nat_eq ends.old number) }
{
    if let Some(end) = ends.get_mut(&link.number) {
        *end = link.before;
    }
}
