//! The table of meters, in which a search by name finds a meter.
ghost use Rattle.std.specs.Prelude.{◌≡◌, List, [], IfOk, OnOk, OnErr, IfSome};
ghost use Rattle.office_events.specs.declared.facts.Fact.{Fact};
ghost use Rattle.office_books.specs.Entries.{entries_from};
ghost use Rattle.office_books.specs.Near.{ReportsNear};
ghost use Rattle.office_books.specs.Rows.{TakesAll};
ghost use Rattle.office_books.specs.Ranges.{IsSound};
ghost use Rattle.office_books.specs.Intervals.{rows_of_meter};
ghost use Rattle.office_books.specs.Lawful.{AreLawful};
ghost use Rattle.office_books.specs.Meters.{meter_of, entry_at};
ghost use Rattle.memory_books.specs.Tables.IntervalRows.{TakesSome, TakesWithin};
ghost use Rattle.memory_books.specs.Tables.Moving.{HasEntered, IsSame, HasStruck};

use crate::tables::keys::Key;
use crate::tables::meter::Meter;
use crate::tables::places::named;
use crate::tables::table::Table;
use interval_core::Share;
use meter_journal::{journals_are_kept, places_were_kept};
use office_books::{
    MeterEntry, RowSink, Span, entries_move_on, holds_change_nothing, installations_are_in_range,
    is_sound, journals_fit, openings_begin, other_meters_stay, with_whole_energy,
};
use office_events::{BookedEntry, EntryContext, Fact, Installation, Name, Opening, VoidedEntry};
use std::alloc::{AllocError, Global};
use std::collections::BTreeMap;

/// The table of meters: the current state and the entries of each meter, by name.
#[derive(Drop)]
pub(crate) struct Meters {
    alloc: Global,
    meters: BTreeMap<Key, Meter>,
}

impl Meters {
    ghost use Rattle.memory_books.specs.Tables.Meters.{AreMeters, Changes, Begins, IfThere};

    /// Creates an empty in-memory table of meters.
    pub(crate) fn new(alloc: Global) -> Meters
        ensures { AreMeters result [] }
    {
        Meters {
            alloc,
            meters: BTreeMap::new(alloc),
        }
    }

    fn open(&mut self, opening: &Opening) -> Result<(), AllocError>
        ensures ok { OnOk result (Changes opening.now.meter (Begins opening.now)
            self.old self.new) }
        ensures err { OnErr result (Changes opening.now.meter (IfThere IsSame) self.old self.new) }
    {
        let key = named(&opening.meter);
        let meter = Meter::begin(self.alloc, opening);
        self.meters.insert(key, meter)?;
        Ok(())
    }

    fn enter(&mut self, booked: &BookedEntry) -> Result<(), AllocError>
        ensures ok { OnOk result (Changes booked.now.meter (IfThere (HasEntered booked.now))
            self.old self.new) }
        ensures err { OnErr result (Changes booked.now.meter (IfThere IsSame) self.old self.new) }
    {
        let key = named(&booked.meter);
        match self.meters.get_mut(&key) {
            Some(meter) => meter.add_entry(booked),
            None => Ok(()),
        }
    }

    fn strike(&mut self, voided: &VoidedEntry)
        ensures { Changes voided.now.meter (IfThere (HasStruck voided.now.place))
            self.old self.new }
    {
        let key = named(&voided.meter);
        if let Some(meter) = self.meters.get_mut(&key) {
            meter.strike(voided.place);
        }
    }

    /// Returns the current state of the meter with this name, or `None` if no meter has the name.
    pub(crate) fn row(&self, name: &Name) -> Option<Installation>
        ensures found { (known : List Fact) → AreLawful known → AreMeters self.now known
            → result ≡ meter_of known name.now }
        ensures sound { IfSome result IsSound }
    {
        installations_are_in_range();
        let key = named(name);
        let Some(meter) = self.meters.get(&key) else {
            return None;
        };
        if is_sound(&meter.row) {
            Some(meter.row)
        } else {
            None
        }
    }

    /// Returns the entry of a meter with sequence number `place`, or `None` if no entry has the
    /// number. The result includes the meter's state before the entry, and the next valid entry.
    pub(crate) fn entry(&self, name: &Name, place: u64) -> Option<EntryContext>
        ensures found { (known : List Fact) → AreLawful known → AreMeters self.now known
            → result ≡ entry_at known name.now place }
        ensures sound { IfSome result (λ found. IsSound found.before) }
    {
        let key = named(name);
        let Some(meter) = self.meters.get(&key) else {
            return None;
        };
        meter.placed(place)
    }

    /// Returns the entry of a meter with sequence number `place`, or `None` if no entry has the
    /// number. The result has the meter's current total energy instead of the energy before the
    /// entry, as the contract of this lookup allows.
    pub(crate) fn entry_near(&self, name: &Name, place: u64) -> Option<EntryContext>
        ensures found { (known : List Fact) → AreLawful known → AreMeters self.now known
            → ReportsNear known name.now place result }
        ensures sound { IfSome result (λ found. IsSound found.before) }
    {
        journals_are_kept();
        places_were_kept();
        let Some(whole) = self.row(name) else {
            return None;
        };
        let Some(found) = self.entry(name, place) else {
            return None;
        };
        Some(with_whole_energy(&found, &whole))
    }

    /// Returns at most `most` entries of a meter from sequence number `from` on, voided (cancelled)
    /// entries included.
    pub(crate) fn entries(
        &self,
        alloc: Global,
        name: &Name,
        from: u64,
        most: u32,
    ) -> Result<Vec<MeterEntry>, AllocError>
        ensures { (known : List Fact) → AreMeters self.now known
            → IfOk result (λ v. v.items ≡ entries_from known name.now from most) }
    {
        let key = named(name);
        match self.meters.get(&key) {
            Some(meter) => meter.entries(alloc, from, most),
            None => Ok(Vec::new(alloc)),
        }
    }

    /// Passes the energy of a meter to the sink (a consumer of rows), one row for each quarter hour
    /// in the time span.
    pub(crate) fn hand_on<K: RowSink<Share>>(&self, name: &Name, span: Span, sink: &mut K)
        ensures whole { (known : List Fact) → AreLawful known → AreMeters self.now known
            → TakesAll (TakesWithin K.takes span) sink.old (rows_of_meter known name.now) sink.new }
        ensures some { TakesSome (TakesWithin K.takes span) sink.old sink.new }
    {
        let key = named(name);
        let Some(meter) = self.meters.get(&key) else {
            return;
        };
        meter.hand_on(span, sink);
    }
}

impl Table for Meters {
    ghost use Rattle.std.specs.Prelude.{None};
    ghost use Rattle.memory_books.specs.Tables.Meters.{AreMeters};

    ghost kind = { λ _. None };

    ghost says = { AreMeters };

    fn apply_record(&mut self, _place: usize, fact: &Fact) -> Result<(), AllocError> {
        entries_move_on();
        openings_begin();
        other_meters_stay();
        holds_change_nothing();
        journals_fit();
        journals_are_kept();
        installations_are_in_range();
        match fact {
            Fact::Opening(opening) => self.open(opening),
            Fact::Entry(booked) => self.enter(booked),
            Fact::Void(voided) => {
                self.strike(voided);
                Ok(())
            }
            Fact::Hold(_reading) => Ok(()),
            Fact::Device(_)
            | Fact::List(_)
            | Fact::Register(_)
            | Fact::Poll(_)
            | Fact::Outcome(_)
            | Fact::Reply(_) => Ok(()),
        }
    }
}
