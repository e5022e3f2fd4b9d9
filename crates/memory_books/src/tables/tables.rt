//! All lookup tables of a store in memory, such as the table of polls by number and the table of
//! meters by name.
ghost use Rattle.std.specs.Prelude.{◌≡◌, ◌∷◌, List, [], map, reverse, length, IfOk, IfSome, OnOk};
ghost use Rattle.std.specs.List.{filter, filter_map};
ghost use Rattle.std.specs.Option.{option_copied, option_map};
ghost use Rattle.office_events.specs.declared.facts.Fact.{Fact};
ghost use Rattle.office_books.specs.Facts.{polls_in, pending_in, list_of, register_of, registers_of, installed_at};
ghost use Rattle.office_books.specs.Repeats.{repeat_of};
ghost use Rattle.office_books.specs.Ranges.{IsSound};
ghost use Rattle.office_books.specs.Entries.{entries_from, installations_of};
ghost use Rattle.office_books.specs.Rows.{TakesAll};
ghost use Rattle.office_books.specs.Near.{ReportsNear};
ghost use Rattle.office_books.specs.Plans.{read_count_of, reads_from};
ghost use Rattle.office_books.specs.Intervals.{rows_of_meter, rows_of_register};
ghost use Rattle.office_books.specs.Lawful.{AreLawful};
ghost use Rattle.office_books.specs.Meters.{meter_of, installation_at, installation_of, entry_at};
ghost use Rattle.office_books.specs.Readings.{is_read_by, poll_row_of};
ghost use Rattle.memory_books.specs.Tables.Growing.{latest_first};
ghost use Rattle.memory_books.specs.Tables.Lookups as spots;
ghost use Rattle.memory_books.specs.Tables.IntervalRows.{TakesSome, TakesWithin, rows_at};

use crate::tables::keys::Key;
use crate::tables::lookups::{
    list_at, opening_at, register_at, registers_at, registers_read_at, repeat_at,
};
use crate::tables::meters::Meters;
use crate::tables::places::{Kind, Places, named};
use crate::tables::polls::{Pending, Polls};
use crate::tables::table::Kept;
use interval_core::Share;
use mb_wire::ReadSpan;
use office_books::{MeterEntry, Repeat, RowSink, Span, read_count, reads_from};
use office_events::{
    EntryContext, Fact, Installation, Name, Opening, PlannedList, Poll, PollRow, Register,
};
use std::alloc::{AllocError, Global};

/// All lookup tables of a store in memory. Each table has the content that follows from the records
/// for which it was already updated. A lookup requires that all tables were updated for all
/// records.
#[derive(Drop)]
pub struct Tables {
    polls: Kept<Polls>,
    pending: Kept<Pending>,
    lists: Kept<Places>,
    registers: Kept<Places>,
    device_registers: Kept<Places>,
    openings: Kept<Places>,
    replies: Kept<Places>,
    meters: Kept<Meters>,
}

impl Tables {
    ghost use Rattle.memory_books.specs.Tables.Whole.{HaveCome, AreWhole, WhereWhole};

    /// Creates all lookup tables of a store without records.
    pub fn new(alloc: Global) -> Tables
        ensures { (facts : List Fact) → HaveCome result facts }
    {
        Tables {
            polls: Kept::new(Polls::new(alloc)),
            pending: Kept::new(Pending::new(alloc)),
            lists: Kept::new(Places::new(alloc, Kind::DeviceLists)),
            registers: Kept::new(Places::new(alloc, Kind::Registers)),
            device_registers: Kept::new(Places::new(alloc, Kind::DeviceRegisters)),
            openings: Kept::new(Places::new(alloc, Kind::RegisterOpenings)),
            replies: Kept::new(Places::new(alloc, Kind::Replies)),
            meters: Kept::new(Meters::new(alloc)),
        }
    }

    /// Adds to each lookup table in memory the store's records that the table lacks. If memory runs
    /// out, some tables may still lack records.
    pub fn catch_up(&mut self, facts: &[Fact]) -> Result<(), AllocError>
        ensures kept { AreLawful (latest_first facts.now) → HaveCome self.old facts.now
            → HaveCome self.new facts.now }
        ensures whole { AreLawful (latest_first facts.now) → HaveCome self.old facts.now
            → OnOk result (AreWhole self.new (latest_first facts.now)) }
    {
        self.polls.catch_up(facts)?;
        self.pending.catch_up(facts)?;
        self.lists.catch_up(facts)?;
        self.registers.catch_up(facts)?;
        self.device_registers.catch_up(facts)?;
        self.openings.catch_up(facts)?;
        self.replies.catch_up(facts)?;
        self.meters.catch_up(facts)?;
        Ok(())
    }

    /// Returns the poll with this number, or `None` if no poll has the number.
    pub fn poll(&self, number: u64) -> Option<PollRow>
        ensures { (known : List Fact) → AreLawful known → AreWhole self.now known
            → result ≡ poll_row_of known number }
    {
        self.polls.table.row(number)
    }

    /// Returns the number of polls that were started.
    pub fn poll_count(&self) -> u64
        ensures { (known : List Fact) → AreWhole self.now known → result ≡ length (polls_in known) }
    {
        self.polls.table.count()
    }

    /// Returns the pending polls (without an outcome), in the order in which they were started.
    pub fn pending(&self, alloc: Global) -> Result<Vec<Poll>, AllocError>
        ensures { (known : List Fact) → AreWhole self.now known
            → IfOk result (λ v. v.items ≡ pending_in known) }
    {
        self.pending.table.all(alloc)
    }

    /// Borrows the point list (the Modbus registers to read) of a device, so that counting its
    /// reads copies no points.
    fn list_among<'a>(&self, facts: &'a [Fact], device: &Name) -> Option<&'a PlannedList>
        ensures { (known : List Fact) → facts.now ≡ reverse known → AreWhole self.now known
            → option_copied result ≡ list_of known device.now }
    {
        match self.lists.table.latest(named(device)) {
            Some(place) => list_at(facts, place),
            None => None,
        }
    }

    /// Returns a copy of the point list (the Modbus registers to read) of a device, or `None` if
    /// the device has no point list.
    pub fn list(&self, facts: &[Fact], device: &Name) -> Result<Option<PlannedList>, AllocError>
        ensures { (known : List Fact) → facts.now ≡ reverse known → AreWhole self.now known
            → IfOk result (λ list. list ≡ list_of known device.now) }
    {
        match self.list_among(facts, device) {
            Some(list) => Ok(Some(list.clone()?)),
            None => Ok(None),
        }
    }

    /// Returns the number of Modbus reads in a device's plan, or `None` if the device has no point
    /// list. The plan has the reads that cover the point list.
    pub fn read_count(&self, facts: &[Fact], device: &Name) -> Option<usize>
        ensures { (known : List Fact) → facts.now ≡ reverse known → AreWhole self.now known
            → result ≡ read_count_of (list_of known device.now) }
    {
        match self.list_among(facts, device) {
            Some(list) => Some(read_count(list)),
            None => None,
        }
    }

    /// Returns at most `most` reads of a device's plan (the Modbus reads that cover its point list)
    /// from index `from` on.
    pub fn reads(
        &self,
        alloc: Global,
        facts: &[Fact],
        device: &Name,
        from: u64,
        most: usize,
    ) -> Result<Vec<ReadSpan>, AllocError>
        ensures { (known : List Fact) → facts.now ≡ reverse known → AreWhole self.now known
            → IfOk result (λ v. v.items ≡ reads_from from most (list_of known device.now)) }
    {
        match self.list_among(facts, device) {
            Some(list) => reads_from(alloc, list, from, most),
            None => Ok(Vec::new(alloc)),
        }
    }

    /// Returns the accounting register (a named energy counter) with this name, or `None` if no
    /// register has the name.
    pub fn register(&self, facts: &[Fact], name: &Name) -> Option<Register>
        ensures { (known : List Fact) → facts.now ≡ reverse known → AreWhole self.now known
            → result ≡ register_of known name.now }
    {
        match self.registers.table.latest(named(name)) {
            Some(place) => register_at(facts, place),
            None => None,
        }
    }

    /// Returns the accounting registers (named energy counters) of a device, in the order in which
    /// they were added.
    pub fn registers(
        &self,
        alloc: Global,
        facts: &[Fact],
        device: &Name,
    ) -> Result<Vec<Register>, AllocError>
        ensures { (known : List Fact) → facts.now ≡ reverse known → AreWhole self.now known
            → IfOk result (λ v. v.items ≡ registers_of known device.now) }
    {
        registers_at(alloc, facts, self.device_registers.table.all(named(device)))
    }

    /// Returns the accounting registers (named energy counters) of a device that the Modbus read
    /// covers.
    pub fn registers_read(
        &self,
        alloc: Global,
        facts: &[Fact],
        device: &Name,
        span: ReadSpan,
    ) -> Result<Vec<Register>, AllocError>
        ensures { (known : List Fact) → facts.now ≡ reverse known → AreWhole self.now known
            → IfOk result (λ v.
            v.items ≡ filter (is_read_by span) (registers_of known device.now)) }
    {
        let places = self.device_registers.table.all(named(device));
        registers_read_at(alloc, facts, places, span)
    }

    /// Returns the number of accounting registers (named energy counters) of a device, without
    /// allocating memory.
    pub fn register_count(&self, device: &Name) -> usize
        ensures { (known : List Fact) → AreWhole self.now known
            → result ≡ length (registers_of known device.now) }
    {
        self.device_registers.table.all(named(device)).len()
    }

    /// Returns the latest opening (the installation of a meter) at an accounting register (a named
    /// energy counter), or `None` if no meter was installed there.
    pub fn installed(&self, facts: &[Fact], register: &Name) -> Option<Opening>
        ensures { (known : List Fact) → facts.now ≡ reverse known → AreWhole self.now known
            → result ≡ installed_at known register.now }
    {
        match self.openings.table.latest(named(register)) {
            Some(place) => opening_at(facts, place),
            None => None,
        }
    }

    /// Compares a request with the stored request that has the same idempotency key. Returns `None`
    /// if the store has no request with this key.
    pub fn repeat(
        &self,
        facts: &[Fact],
        caller: &Name,
        number: u64,
        request: &[u8],
    ) -> Option<Repeat>
        ensures { (known : List Fact) → facts.now ≡ reverse known → AreWhole self.now known
            → result ≡ repeat_of known caller.now number request.now }
    {
        let key = Key {
            name: *caller,
            number,
        };
        match self.replies.table.latest(key) {
            Some(place) => repeat_at(facts, place, request),
            None => None,
        }
    }

    /// Returns the state of a meter that follows from all records, or `None` if no meter has the
    /// name.
    pub fn meter(&self, name: &Name) -> Option<Installation>
        ensures found { (known : List Fact) → AreLawful known → AreWhole self.now known
            → result ≡ meter_of known name.now }
        ensures sound { IfSome result IsSound }
    {
        self.meters.table.row(name)
    }

    /// Returns the state of the meter that was installed last at an accounting register (a named
    /// energy counter), open or closed. Returns `None` if no meter was installed there.
    pub fn installation(&self, facts: &[Fact], register: &Name) -> Option<Installation>
        ensures found { WhereWhole self.now facts.now (λ known.
            result ≡ installation_at known register.now) }
        ensures sound { IfSome result IsSound }
    {
        match self.installed(facts, register) {
            Some(opening) => self.meter(&opening.meter),
            None => None,
        }
    }

    /// Returns the entry of a meter with sequence number `place`, or `None` if no entry has the
    /// number. The result includes the meter's state before the entry, and the next valid entry.
    pub fn entry(&self, meter: &Name, place: u64) -> Option<EntryContext>
        ensures found { (known : List Fact) → AreLawful known → AreWhole self.now known
            → result ≡ entry_at known meter.now place }
        ensures sound { IfSome result (λ found. IsSound found.before) }
    {
        self.meters.table.entry(meter, place)
    }

    /// Returns the entry of a meter with sequence number `place`, or `None` if no entry has the
    /// number. The result has the meter's current total energy instead of the energy before the
    /// entry, as the contract of this lookup allows.
    pub fn entry_near(&self, meter: &Name, place: u64) -> Option<EntryContext>
        ensures found { (known : List Fact) → AreLawful known → AreWhole self.now known
            → ReportsNear known meter.now place result }
        ensures sound { IfSome result (λ found. IsSound found.before) }
    {
        self.meters.table.entry_near(meter, place)
    }

    /// Returns at most `most` entries of a meter from sequence number `from` on, voided (cancelled)
    /// entries included.
    pub fn entries(
        &self,
        alloc: Global,
        meter: &Name,
        from: u64,
        most: u32,
    ) -> Result<Vec<MeterEntry>, AllocError>
        ensures { (known : List Fact) → AreWhole self.now known
            → IfOk result (λ v. v.items ≡ entries_from known meter.now from most) }
    {
        self.meters.table.entries(alloc, meter, from, most)
    }

    fn installation_there(&self, facts: &[Fact], place: usize) -> Option<Installation>
        ensures { WhereWhole self.now facts.now (λ known.
            result ≡ option_map (installation_of known) (spots.opening_at facts.now place)) }
    {
        let opening = opening_at(facts, place)?;
        self.meter(&opening.meter)
    }

    fn installations_there(
        &self,
        alloc: Global,
        facts: &[Fact],
        places: &[usize],
    ) -> Result<Vec<Installation>, AllocError>
        ensures { WhereWhole self.now facts.now (λ known. IfOk result (λ v. v.items
            ≡ map (installation_of known) (filter_map (spots.opening_at facts.now) places.now))) }
    {
        let mut rows = Vec::new(alloc);
        for place in places {
            if let Some(row) = self.installation_there(facts, *place) {
                rows.push(row)?;
            }
        }
        Ok(rows)
    }

    /// Returns the states of all meters that were installed at an accounting register (a named
    /// energy counter), in order of installation, closed meters included.
    pub fn installations(
        &self,
        alloc: Global,
        facts: &[Fact],
        register: &Name,
    ) -> Result<Vec<Installation>, AllocError>
        ensures { WhereWhole self.now facts.now (λ known.
            IfOk result (λ v. v.items ≡ installations_of known register.now)) }
    {
        self.installations_there(alloc, facts, self.openings.table.all(named(register)))
    }

    /// Passes the energy of a meter to the sink (a consumer of rows), one row for each quarter hour
    /// in the time span, in order of time, without allocating memory.
    pub fn intervals<K: RowSink<Share>>(&self, meter: &Name, span: Span, sink: &mut K)
        ensures whole { (known : List Fact) → AreLawful known → AreWhole self.now known
            → TakesAll (TakesWithin K.takes span) sink.old (rows_of_meter known meter.now)
            sink.new }
        ensures some { TakesSome (TakesWithin K.takes span) sink.old sink.new }
    {
        self.meters.table.hand_on(meter, span, sink);
    }

    fn hand_on_at<K: RowSink<Share>>(&self, facts: &[Fact], place: usize, span: Span, sink: &mut K)
        ensures whole { WhereWhole self.now facts.now (λ known.
            TakesAll (TakesWithin K.takes span) sink.old (rows_at known facts.now (place ∷ []))
            sink.new) }
        ensures some { TakesSome (TakesWithin K.takes span) sink.old sink.new }
    {
        match opening_at(facts, place) {
            Some(opening) => self.intervals(&opening.meter, span, sink),
            None => {}
        }
    }

    fn hand_on_all<K: RowSink<Share>>(
        &self,
        facts: &[Fact],
        places: &[usize],
        span: Span,
        sink: &mut K,
    )
        ensures whole { WhereWhole self.now facts.now (λ known.
            TakesAll (TakesWithin K.takes span) sink.old (rows_at known facts.now places.now)
            sink.new) }
        ensures some { TakesSome (TakesWithin K.takes span) sink.old sink.new }
    {
        for place in places {
            self.hand_on_at(facts, *place, span, sink);
        }
    }

    /// Passes the energy of an accounting register to the sink (a consumer of rows), one row for
    /// each meter and quarter hour in the time span, without allocating memory.
    pub fn register_intervals<K: RowSink<Share>>(
        &self,
        facts: &[Fact],
        register: &Name,
        span: Span,
        sink: &mut K,
    )
        ensures whole { WhereWhole self.now facts.now (λ known.
            TakesAll (TakesWithin K.takes span) sink.old (rows_of_register known register.now)
            sink.new) }
        ensures some { TakesSome (TakesWithin K.takes span) sink.old sink.new }
    {
        self.hand_on_all(facts, self.openings.table.all(named(register)), span, sink);
    }
}
