//! A meter in the in-memory table of meters, with its current state and its entry rows.
ghost use Rattle.std.specs.Prelude.{◌≡◌, List, Some, take, IfOk, OnOk, OnErr, IfSome};
ghost use Rattle.std.specs.Option.{option_map};
ghost use Rattle.meter_journal.specs.Journal.{row_at};
ghost use Rattle.meter_journal.specs.Lists as lists;
ghost use Rattle.office_books.specs.Entries.{entries_at, first_from};
ghost use Rattle.office_books.specs.Rows.{TakesAll};
ghost use Rattle.office_events.specs.declared.facts.Fact.{Fact};
ghost use Rattle.office_events.specs.declared.facts.Opening.{Opening as RecordedOpening};
ghost use Rattle.office_books.specs.Ranges.{IsSound};
ghost use Rattle.office_books.specs.Intervals.{rows_of_opening};
ghost use Rattle.office_books.specs.Meters.{place_in, rows_of};
ghost use Rattle.memory_books.specs.Tables.IntervalRows.{TakesSome, TakesWithin};
ghost use Rattle.memory_books.specs.Tables.Moving.{VoidsAt};

use crate::tables::interval_rows::hand_on;
use energy_core::Last;
use interval_core::Share;
use meter_journal::{
    EntryRow, are_numbered, find_row, journals_are_kept, places_were_kept, row_after, strike,
};
use office_books::{
    MeterEntry, RowSink, Span, begun, installation_after, installations_are_in_range, journals_fit,
    list_entries, moved, opened,
};
use office_events::{BookedEntry, EntryContext, Installation, Opening};
use std::alloc::{AllocError, Global};

fn void_in_slice(last: &Last, rows: &mut [EntryRow], place: u64)
    ensures { VoidsAt last.now place (lists.latest_first rows.old) (lists.latest_first rows.new) }
{
    if place >= 2 && place - 2 < rows.len() as u64 && are_numbered(rows) {
        strike(last, rows, place);
    }
}

fn void_in_vec(last: &Last, rows: &mut Vec<EntryRow>, place: u64)
    ensures { VoidsAt last.now place (lists.latest_first rows.old.items)
        (lists.latest_first rows.new.items) }
{
    void_in_slice(last, rows, place);
}

fn first(rows: &[EntryRow], count: usize) -> &[EntryRow]
    ensures { result.now ≡ take count rows.now }
{
    if count < rows.len() {
        &rows[..count]
    } else {
        rows
    }
}

/// The current state of a meter, and its entry rows, the oldest first.
#[derive(Drop)]
pub(crate) struct Meter {
    pub(crate) row: Installation,
    pub(crate) rows: Vec<EntryRow>,
}

impl Meter {
    ghost use Rattle.memory_books.specs.Tables.Moving.{HasBegun, HasEntered, IsAsSaid, IsSame, HasStruck, WhereSaid};

    /// Creates a meter that was just installed, without entries.
    pub(crate) fn begin(alloc: Global, opening: &Opening) -> Meter
        ensures { HasBegun opening.now result }
    {
        Meter {
            row: begun(opening),
            rows: Vec::new(alloc),
        }
    }

    /// Adds one more entry of the meter, or leaves the meter unchanged if memory runs out.
    pub(crate) fn add_entry(&mut self, booked: &BookedEntry) -> Result<(), AllocError>
        ensures ok { OnOk result (HasEntered booked.now self.old self.new) }
        ensures err { OnErr result (IsSame self.old self.new) }
    {
        let row = row_after(&self.rows, booked.kind, booked.entry);
        self.rows.push(row)?;
        self.row = moved(&self.row, booked);
        Ok(())
    }

    /// Voids (cancels) the entry with sequence number `place`, and computes the meter's state
    /// again.
    pub(crate) fn strike(&mut self, place: u64)
        ensures { HasStruck place self.old self.new }
    {
        let opening = self.row.opening;
        let ended = self.row.ended;
        let last = opened(&opening);
        void_in_vec(&last, &mut self.rows, place);
        if let Some(row) = installation_after(&opening, &self.rows, ended) {
            self.row = row;
        }
    }

    /// Returns the meter's entry with sequence number `place`, or `None` if no entry has the
    /// number. The result includes the meter's state before the entry, and the next valid entry.
    pub(crate) fn placed(&self, place: u64) -> Option<EntryContext>
        ensures found { WhereSaid self.now (λ known opening.
            result ≡ option_map (place_in known opening) (row_at place (rows_of known opening))) }
        ensures sound { IfSome result (λ found. IsSound found.before) }
    {
        journals_fit();
        journals_are_kept();
        installations_are_in_range();
        places_were_kept();
        if !are_numbered(&self.rows) {
            return None;
        }
        let Some(found) = find_row(&self.rows, place) else {
            return None;
        };
        let Some(before) = installation_after(
            &self.row.opening,
            first(&self.rows, found.index),
            self.row.ended,
        ) else {
            return None;
        };
        Some(EntryContext {
            before,
            row: found.row,
            next: found.next,
        })
    }

    /// Returns at most `most` entries of the meter from sequence number `from` on, voided
    /// (cancelled) entries included.
    pub(crate) fn entries(
        &self,
        alloc: Global,
        from: u64,
        most: u32,
    ) -> Result<Vec<MeterEntry>, AllocError>
        ensures { (known : List Fact) (opening : RecordedOpening) → IsAsSaid known opening self.now
            → IfOk result (λ v. v.items ≡ first_from from most (entries_at known (Some opening))) }
    {
        list_entries(alloc, &self.row.opening, &self.rows, from, most)
    }

    /// Passes the energy of the meter to the sink (a consumer of rows), one row for each quarter
    /// hour in the time span.
    pub(crate) fn hand_on<K: RowSink<Share>>(&self, span: Span, sink: &mut K)
        ensures whole { WhereSaid self.now (λ known opening.
            TakesAll (TakesWithin K.takes span) sink.old (rows_of_opening known opening) sink.new) }
        ensures some { TakesSome (TakesWithin K.takes span) sink.old sink.new }
    {
        journals_fit();
        journals_are_kept();
        installations_are_in_range();
        hand_on(&self.row.opening, &self.rows, span, sink);
    }
}
