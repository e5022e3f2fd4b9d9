//! The pending write of a device event: new records that are not yet in the store, and the
//! notifications of these records.
ghost use Rattle.std.specs.Prelude.{◌≡◌, ◌++◌, ◌∷◌, [], OnOk, IfErr};
ghost use Rattle.office_books.specs.declared.faults.BooksFault.TheVariants.{Memory};
ghost use Rattle.office_core.specs.Settling.Drafts.{HasMore};

use office_books::BooksFault;
use office_events::{Fact, Note};
use std::alloc::Global;

/// The pending records and notifications of one device event, the oldest first. Either all of the
/// records are written to the store, or none.
#[derive(Drop)]
pub struct PendingWrite {
    pub facts: Vec<Fact>,
    pub notes: Vec<Note>,
}

impl PendingWrite {
    /// Creates an empty pending write: no records and no notifications. Allocates no memory.
    pub fn new(alloc: Global) -> PendingWrite
        ensures facts { result.facts.items ≡ [] }
        ensures notes { result.notes.items ≡ [] }
    {
        PendingWrite {
            facts: Vec::new(alloc),
            notes: Vec::new(alloc),
        }
    }

    /// Adds a record and its notification to the pending write (records not yet stored).
    pub fn add(&mut self, fact: Fact, note: Note) -> Result<(), BooksFault>
        ensures ok { OnOk result (HasMore self.old self.new fact note) }
        ensures err { IfErr result (λ fault. fault ≡ Memory) }
    {
        self.facts.push(fact)?;
        self.notes.push(note)?;
        Ok(())
    }
}
