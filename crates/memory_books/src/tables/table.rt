//! Tables for lookups in a store in memory. A lookup first updates its table for the records that
//! the table lacks.
ghost use Rattle.std.specs.Prelude.{◌≡◌, List, [], length, OnOk};
ghost use Rattle.office_events.specs.declared.facts.Fact.{Fact};
ghost use Rattle.office_books.specs.Lawful.{AreLawful};
ghost use Rattle.memory_books.specs.Tables.Growing.{HasCome, latest_first};

use office_events::Fact;
use std::alloc::AllocError;

/// A structure in memory that finds records of the store by key, such as a device's name. Records
/// are added to it one by one, in the store's order. A lookup first adds those that it lacks.
pub(crate) trait Table: Drop {
    ghost use Rattle.std.specs.Prelude.{◌≡◌, List, ◌∷◌, length, Option, OnOk, OnErr};
    ghost use Rattle.office_events.specs.declared.facts.Fact.{Fact};
    ghost use Rattle.office_books.specs.Lawful.{AreLawful};
    ghost use Rattle.memory_books.specs.declared.tables.places.Kind.{Kind};

    /// The kind of a table of record indices, which never changes, or `None` for any other table.
    ghost kind: { Self → Option Kind };

    /// The condition that a lookup table in memory has the content that follows from a list of the
    /// store's records, the latest record first.
    ghost says: { Self → List Fact → Type 0 };

    /// Adds the next record of the store's list to this lookup table, or leaves the table unchanged
    /// if memory runs out. `place` is the record's index in the list, counted from 0.
    fn apply_record(&mut self, place: usize, fact: &Fact) -> Result<(), AllocError>
        ensures ok { (known : List Fact) → AreLawful (fact.now ∷ known) → length known ≡ place
            → says self.old known
            → OnOk result (says self.new (fact.now ∷ known)) }
        ensures err { (known : List Fact) → says self.old known
            → OnErr result (says self.new known) }
        ensures kind { kind self.new ≡ kind self.old };
}

/// A lookup table of a store in memory (a table that finds records by a key), with the number of
/// records that were added to it.
#[derive(Drop)]
pub(crate) struct Kept<T> {
    pub table: T,
    pub count: usize,
}

impl<T: Table> Kept<T> {
    /// Creates a lookup table to which no record was added yet.
    pub fn new(table: T) -> Kept<T>
        ensures table { result.table ≡ table }
        ensures count { result.count ≡ 0 }
    {
        Kept { table, count: 0 }
    }

    /// Adds to the lookup table (an in-memory index of the records) all records of the store's list
    /// that it lacks. If memory runs out, it may still lack some.
    pub fn catch_up(&mut self, facts: &[Fact]) -> Result<(), AllocError>
        ensures kept { AreLawful (latest_first facts.now) → HasCome T.says self.old facts.now
            → HasCome T.says self.new facts.now }
        ensures whole { AreLawful (latest_first facts.now) → HasCome T.says self.old facts.now
            → OnOk result (T.says self.new.table (latest_first facts.now)) }
        ensures kind { T.kind self.new.table ≡ T.kind self.old.table }
    {
        while self.count < facts.len() {
            self.table.apply_record(self.count, &facts[self.count])?;
            self.count += 1;
        }
        Ok(())
    }
}
