//! Declares the trait `Books`, which a store of the program's records implements.

use crate::entries::MeterEntry;
use crate::faults::BooksFault;
use crate::spans::Span;
use interval_core::{Share, Zone};
use mb_wire::ReadSpan;
use office_events::{
    CommandKind, Device, EntryContext, Fact, HeldReading, Installation, Name, PlannedList, Poll,
    PollRow, Register,
};

/// A sink (a consumer of rows) that receives rows one by one and cannot fail. A sink that forwards
/// its rows must record its own errors.
pub trait RowSink<T> {
    /// The relation between the sink (a consumer of rows) before it receives a row, the row, and
    /// the sink afterwards.
    ghost takes: { Self → T → Self → Type 0 };

    /// Passes one more row to the sink (a consumer of rows).
    fn put(&mut self, row: T)
        ensures { takes self.old row self.new };
}

/// The result of comparing a request with the stored request of the same idempotency key.
#[derive(Clone, Copy, PartialEq, Eq)]
pub enum Repeat {
    /// The store has a request with this idempotency key and the same bytes, so the new request is
    /// a retry. A command of this kind was executed for the stored request.
    Same(CommandKind),
    /// The request that is stored under the idempotency key has other bytes than the new request,
    /// so the key was reused.
    Other,
}

/// A store of lawful records, which means that the rules for adding records accept each record
/// after the earlier ones.
///
/// A lookup reads the records and never changes them. The function `book` adds all of its records,
/// or none.
///
/// The postconditions on results apply only if the store is clean (`is_clean`) after the call: the
/// storage returned what was written to it. A store in memory is always clean.
///
/// If the store is not clean (the storage did not return what was written to it), four guarantees
/// remain. The store counts failures, and a lookup changes no records. The time zone stays the
/// same, and all numbers of an installation are in range.
pub trait Books: Drop {
    ghost use Rattle.std.specs.Prelude.{◌≡◌, List, reverse, length};
    ghost use Rattle.std.specs.List.{filter};
    ghost use Rattle.office_events.specs.declared.facts.Fact.{Fact};
    ghost use Rattle.office_books.specs.Facts.{devices_in, register_of, registers_of, list_of};
    ghost use Rattle.office_books.specs.Facts.{openings_in, polls_in, pending_in, latest_in};
    ghost use Rattle.office_books.specs.Meters.{meter_of, installation_at, entry_at};
    ghost use Rattle.office_books.specs.Readings.{is_read_by, poll_row_of};
    ghost use Rattle.office_books.specs.Intervals.{rows_of_meter, rows_of_register};
    ghost use Rattle.office_books.specs.Entries.{entries_from, installations_of};
    ghost use Rattle.office_books.specs.Holds.{holds_of, holds_within};
    ghost use Rattle.office_books.specs.Near.{ReportsNear};
    ghost use Rattle.office_books.specs.Ledgers as ledgers;
    ghost use Rattle.office_books.specs.Ledgers.{Ledger, Finds, OnlyReads};
    ghost use Rattle.office_books.specs.Sound.{ReadsInstallation, ReadsPlace};
    ghost use Rattle.office_books.specs.Repeats.{repeat_of};
    ghost use Rattle.office_books.specs.Rows.{HandsOn};
    ghost use Rattle.office_books.specs.Same.{AreKnown};
    ghost use Rattle.office_books.specs.Spans.{rows_within};
    ghost use Rattle.office_books.specs.Plans.{read_count_of, reads_from};

    /// The model of the store: its records, failure counter and time zone.
    ghost ledger: { Self → Ledger };

    /// Returns the number of failures of the store, at most 2^64 - 1.
    fn faults(&self) -> u64
        ensures { result ≡ (ledger self.now).failures.count };

    /// Returns the time zone by which the store determines civil days.
    fn zone(&self) -> Zone
        ensures { result ≡ (ledger self.now).zone };

    /// Proves that an open store whose wrong results were all detected determines its tables: any
    /// two lists of records that the store may contain yield the same tables.
    fn tables_are_known(&self)
        ensures { AreKnown (ledger self.now) };

    /// Returns the devices, in the order in which they were added.
    fn devices(&mut self) -> Result<Vec<Device>, BooksFault>
        ensures found { Finds (ledger self.old) (ledger self.new) result
            (λ known v. v.items ≡ reverse (devices_in known)) }
        ensures reads { OnlyReads (ledger self.old) (ledger self.new) result };

    /// Returns the point list of a device, with the Modbus reads that cover its points.
    fn list(&mut self, device: &Name) -> Result<Option<PlannedList>, BooksFault>
        ensures found { Finds (ledger self.old) (ledger self.new) result
            (λ known list. list ≡ list_of known device.now) }
        ensures reads { OnlyReads (ledger self.old) (ledger self.new) result };

    /// Returns the number of reads in the plan of a device (the Modbus reads that cover its point
    /// list); `None` if the device has no point list.
    fn read_count(&mut self, device: &Name) -> Result<Option<usize>, BooksFault>
        ensures found { Finds (ledger self.old) (ledger self.new) result
            (λ known n. n ≡ read_count_of (list_of known device.now)) }
        ensures reads { OnlyReads (ledger self.old) (ledger self.new) result };

    /// Returns at most `most` reads of a device's plan (the Modbus reads that cover its point list)
    /// from index `from` on, in order. The first read has index 0.
    fn reads(&mut self, device: &Name, from: u64, most: usize) -> Result<Vec<ReadSpan>, BooksFault>
        ensures found { Finds (ledger self.old) (ledger self.new) result
            (λ known v. v.items ≡ reads_from from most (list_of known device.now)) }
        ensures reads { OnlyReads (ledger self.old) (ledger self.new) result };

    /// Returns the accounting register (an energy counter) with the name, or `None` if no
    /// accounting register has this name.
    fn register(&mut self, name: &Name) -> Result<Option<Register>, BooksFault>
        ensures found { Finds (ledger self.old) (ledger self.new) result
            (λ known row. row ≡ register_of known name.now) }
        ensures reads { OnlyReads (ledger self.old) (ledger self.new) result };

    /// Returns the accounting registers (named energy counters) of a device, in the order in which
    /// they were added.
    fn registers(&mut self, device: &Name) -> Result<Vec<Register>, BooksFault>
        ensures found { Finds (ledger self.old) (ledger self.new) result
            (λ known v. v.items ≡ registers_of known device.now) }
        ensures reads { OnlyReads (ledger self.old) (ledger self.new) result };

    /// Returns the accounting registers (energy counters) of a device that a read of `span` covers,
    /// in the order in which they were added.
    fn registers_read(&mut self, device: &Name, span: ReadSpan) -> Result<Vec<Register>, BooksFault>
        ensures found { Finds (ledger self.old) (ledger self.new) result
            (λ known v. v.items ≡ filter (is_read_by span) (registers_of known device.now)) }
        ensures reads { OnlyReads (ledger self.old) (ledger self.new) result };

    /// Returns the number of accounting registers (energy counters) of a device.
    fn register_count(&mut self, device: &Name) -> Result<usize, BooksFault>
        ensures found { Finds (ledger self.old) (ledger self.new) result
            (λ known n. n ≡ length (registers_of known device.now)) }
        ensures reads { OnlyReads (ledger self.old) (ledger self.new) result };

    /// Returns the installation of the meter with the name, or `None` if no meter has this name.
    /// The installation is the first entry, the last entry and the total energy.
    fn meter(&mut self, name: &Name) -> Result<Option<Installation>, BooksFault>
        ensures found { Finds (ledger self.old) (ledger self.new) result
            (λ known row. row ≡ meter_of known name.now) }
        ensures reads { ReadsInstallation (ledger self.old) (ledger self.new) result };

    /// Returns the latest meter, open or closed, that was installed at an accounting register (an
    /// energy counter), with its state. Returns `None` if no meter was installed there.
    fn installation(&mut self, register: &Name) -> Result<Option<Installation>, BooksFault>
        ensures found { Finds (ledger self.old) (ledger self.new) result
            (λ known row. row ≡ installation_at known register.now) }
        ensures reads { ReadsInstallation (ledger self.old) (ledger self.new) result };

    /// Returns the meters that were installed at an accounting register (an energy counter), with
    /// their state. They are in order of installation, and include closed meters.
    fn meters(&mut self, register: &Name) -> Result<Vec<Installation>, BooksFault>
        ensures found { Finds (ledger self.old) (ledger self.new) result
            (λ known v. v.items ≡ installations_of known register.now) }
        ensures reads { OnlyReads (ledger self.old) (ledger self.new) result };

    /// Returns the number of meters that were installed, closed meters included.
    fn installation_count(&mut self) -> Result<usize, BooksFault>
        ensures found { Finds (ledger self.old) (ledger self.new) result
            (λ known n. n ≡ length (openings_in known)) }
        ensures reads { OnlyReads (ledger self.old) (ledger self.new) result };

    /// Returns the entry of a meter with a sequence number of at least 2, or `None` if the meter
    /// has no such entry. The result includes the meter's state before the entry, and the next
    /// valid (not voided) entry.
    fn entry(&mut self, meter: &Name, place: u64) -> Result<Option<EntryContext>, BooksFault>
        ensures found { Finds (ledger self.old) (ledger self.new) result
            (λ known row. row ≡ entry_at known meter.now place) }
        ensures reads { ReadsPlace (ledger self.old) (ledger self.new) result };

    /// Returns the entry of a meter with a sequence number. Reads only the rows around the entry.
    /// The meter's state in the result has the present total energy, which is at least the energy
    /// before the entry.
    fn entry_near(&mut self, meter: &Name, place: u64) -> Result<Option<EntryContext>, BooksFault>
        ensures found { Finds (ledger self.old) (ledger self.new) result
            (λ known row. ReportsNear known meter.now place row) }
        ensures reads { ReadsPlace (ledger self.old) (ledger self.new) result };

    /// Returns at most `most` entries of a meter from sequence number `from` on, in order,
    /// including voided (cancelled) entries. The opening (the first entry) has number 1.
    fn entries(&mut self, meter: &Name, from: u64, most: u32) -> Result<Vec<MeterEntry>, BooksFault>
        ensures found { Finds (ledger self.old) (ledger self.new) result
            (λ known v. v.items ≡ entries_from known meter.now from most) }
        ensures reads { OnlyReads (ledger self.old) (ledger self.new) result };

    /// Returns the poll with the number, and its outcome if the poll has ended; `None` if no poll
    /// has the number.
    fn poll(&mut self, number: u64) -> Result<Option<PollRow>, BooksFault>
        ensures found { Finds (ledger self.old) (ledger self.new) result
            (λ known row. row ≡ poll_row_of known number) }
        ensures reads { OnlyReads (ledger self.old) (ledger self.new) result };

    /// Returns the number of polls that were started.
    fn poll_count(&mut self) -> Result<u64, BooksFault>
        ensures found { Finds (ledger self.old) (ledger self.new) result
            (λ known n. n ≡ length (polls_in known)) }
        ensures reads { OnlyReads (ledger self.old) (ledger self.new) result };

    /// Returns the pending polls (without an outcome), in the order in which they were started.
    fn pending(&mut self) -> Result<Vec<Poll>, BooksFault>
        ensures found { Finds (ledger self.old) (ledger self.new) result
            (λ known v. v.items ≡ pending_in known) }
        ensures reads { OnlyReads (ledger self.old) (ledger self.new) result };

    /// Returns the greatest timestamp of a record, in seconds since 1970-01-01 UTC, or 0 if the
    /// store has no records.
    fn latest(&mut self) -> Result<u64, BooksFault>
        ensures found { Finds (ledger self.old) (ledger self.new) result
            (λ known n. n ≡ latest_in known) }
        ensures reads { OnlyReads (ledger self.old) (ledger self.new) result };

    /// Compares a request with the stored request of the same idempotency key, or returns `None` if
    /// the store has no request with this key.
    fn repeat(
        &mut self,
        caller: &Name,
        number: u64,
        request: &[u8],
    ) -> Result<Option<Repeat>, BooksFault>
        ensures found { Finds (ledger self.old) (ledger self.new) result
            (λ known kept. kept ≡ repeat_of known caller.now number request.now) }
        ensures reads { OnlyReads (ledger self.old) (ledger self.new) result };

    /// Passes the energy of a meter to the sink (a consumer of rows): one row for each quarter hour
    /// in the time span, in order of time.
    fn intervals<K: RowSink<Share>>(
        &mut self,
        meter: &Name,
        span: Span,
        sink: &mut K,
    ) -> Result<(), BooksFault>
        ensures rows { HandsOn K.takes (ledger self.old) (ledger self.new) sink.old sink.new result
            (λ known. rows_within span (rows_of_meter known meter.now)) }
        ensures reads { OnlyReads (ledger self.old) (ledger self.new) result };

    /// Passes the energy of an accounting register (an energy counter) to the sink (a consumer of
    /// rows): one row for each meter and quarter hour in the time span. The rows are sorted by the
    /// installation of their meter, then by time.
    fn register_intervals<K: RowSink<Share>>(
        &mut self,
        register: &Name,
        span: Span,
        sink: &mut K,
    ) -> Result<(), BooksFault>
        ensures rows { HandsOn K.takes (ledger self.old) (ledger self.new) sink.old sink.new result
            (λ known. rows_within span (rows_of_register known register.now)) }
        ensures reads { OnlyReads (ledger self.old) (ledger self.new) result };

    /// Passes the rejected readings of a meter in the time span to the sink (a consumer of rows),
    /// in the order in which they were recorded.
    fn holds<K: RowSink<HeldReading>>(
        &mut self,
        meter: &Name,
        span: Span,
        sink: &mut K,
    ) -> Result<(), BooksFault>
        ensures rows { HandsOn K.takes (ledger self.old) (ledger self.new) sink.old sink.new result
            (λ known. holds_within span (holds_of known meter.now)) }
        ensures reads { OnlyReads (ledger self.old) (ledger self.new) result };

    /// Adds all of the given records, or none of them. The rules for adding records (`AreLawful`)
    /// must accept each record after the records before it.
    fn book(&mut self, facts: Vec<Fact>) -> Result<(), BooksFault>
        ensures books { ledgers.Books (ledger self.old) (ledger self.new) facts.items result };
}
