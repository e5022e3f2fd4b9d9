//! A trait for values that collect the data of several database files, the oldest file first.

use crate::joining::files::{JoinedFiles, Unjoined, add_books, no_files};
use interval_core::{DayRange, Zone};
use office_books::{Books, BooksFault};
use office_core::span_around;
use office_events::Name;
use std::alloc::Global;

/// A collector of the data of several files, to report a register (a named counter) on the days of
/// a range.
///
/// Code that opens a file is proved for every collector type (every implementation of the trait
/// `Keeping`). The proof system has no rule for a call that uses a known collector type and the
/// file's database.
pub trait Keeping: Drop {
    ghost use Rattle.std.specs.Prelude.{ℕ, List, [], IfOk};
    ghost use Rattle.interval_core.specs.declared.zone.Zone.{Zone};
    ghost use Rattle.interval_core.specs.declared.day_range.DayRange.{DayRange};
    ghost use Rattle.office_events.specs.declared.facts.Fact.{Fact};
    ghost use Rattle.office_books.specs.Ledgers.{Consults};
    ghost use Rattle.carried_books.specs.Joining.Keeping.{KeepsFile, PartsFile};
    ghost use Rattle.carried_books.specs.declared.joining.files.Unjoined.{Unjoined as Why};

    /// True if the collector has the data of the database files in a list, by civil days of a time
    /// zone. The list has the latest file first.
    ghost keeps: { Zone → DayRange → List ℕ → List (List Fact) → Self → Type 0 };
    /// True if a database file with the given records does not continue the files whose data were
    /// collected, for the given reason.
    ghost parts: { DayRange → List ℕ → List Fact → Self → Why → Type 0 };

    /// Creates a collector that has data of no database file yet. The function allocates no memory.
    fn none(alloc: Global, zone: Zone, range: DayRange) -> Self
        ensures { (register : List ℕ) → keeps zone range register [] result };

    /// Adds the data of an accounting register (a named counter) in the next database file. Returns
    /// the reason if the file does not continue the meter history of the earlier files.
    ///
    /// Adding the next database file to a collector, which collects the data of accounting
    /// registers (named energy counters) over several files, only queries this file and changes
    /// nothing in it.
    fn add<B: Books>(
        &mut self,
        books: &mut B,
        register: &Name,
        range: DayRange,
    ) -> Result<Option<Unjoined>, BooksFault>
        ensures joins { (zone : Zone) (known : List Fact) → (B.ledger books.old).holds known
            → (B.ledger books.new).is_clean
            → IfOk result (KeepsFile (keeps zone range register.now) known self.old self.new) }
        ensures unjoined { (known : List Fact) → (B.ledger books.old).holds known
            → (B.ledger books.new).is_clean
            → IfOk result (PartsFile (parts range register.now known self.old)) }
        ensures reads { Consults (B.ledger books.old) (B.ledger books.new) result };
}

/// Collects the meters and the energy by civil day of an accounting register (a named counter) over
/// several database files.
impl Keeping for JoinedFiles {
    ghost use Rattle.office_core.specs.DayRange.{span_of};
    ghost use Rattle.carried_books.specs.Joining.Files.{DoesNotJoin, HasJoined};

    ghost keeps = { λ zone range. HasJoined zone (span_of range) };

    ghost parts = { λ range. DoesNotJoin (span_of range) };

    fn none(alloc: Global, zone: Zone, _range: DayRange) -> JoinedFiles {
        no_files(alloc, zone)
    }

    fn add<B: Books>(
        &mut self,
        books: &mut B,
        register: &Name,
        range: DayRange,
    ) -> Result<Option<Unjoined>, BooksFault> {
        add_books(self, books, register, span_around(range))
    }
}
