//! A cache of the results of one kind of lookup, by the name that the lookup asks for.
ghost use Rattle.std.specs.Prelude.{◌≡◌, ℕ, None, List};
ghost use Rattle.std.specs.Option.{option_copied};

use crate::kept::keys::Key;
use office_events::Name;
use std::alloc::Global;
use std::collections::BTreeMap;

/// The cached lookup results by name, at most `most` of them.
#[derive(Drop)]
pub(crate) struct Answers<T> {
    rows: BTreeMap<Key, T>,
    most: usize,
}

impl<T: Drop> Answers<T> {
    ghost use Rattle.memory_books.specs.Kept.Answers.{answer_to, Forgets, MayAnswer};

    /// Creates an empty cache of at most `most` lookup results.
    pub(crate) fn new(alloc: Global, most: usize) -> Answers<T>
        ensures { (name : List ℕ) → answer_to result name ≡ None }
    {
        Answers {
            rows: BTreeMap::new(alloc),
            most,
        }
    }

    /// Returns the cached lookup result for a name, or `None` if no result is cached.
    pub(crate) fn get(&self, name: &Name) -> Option<&T>
        ensures { option_copied result ≡ answer_to self.now name.now }
    {
        let key = Key { name: *name };
        self.rows.get(&key)
    }

    /// Caches the lookup result for a name, unless the cache is full or memory runs out.
    pub(crate) fn insert(&mut self, name: &Name, answer: T)
        ensures { MayAnswer name.now answer self.old self.new }
    {
        if self.rows.len() < self.most {
            let key = Key { name: *name };
            let _ = self.rows.insert(key, answer);
        }
    }

    /// Removes the cached lookup result for a name, and returns it.
    pub(crate) fn remove(&mut self, name: &Name) -> Option<T>
        ensures taken { result ≡ answer_to self.old name.now }
        ensures forgets { Forgets name.now self.old self.new }
    {
        let key = Key { name: *name };
        self.rows.remove(&key)
    }

    /// Removes all cached lookup results.
    pub(crate) fn clear(&mut self)
        ensures { (name : List ℕ) → answer_to self.new name ≡ None }
    {
        self.rows.clear();
    }
}
