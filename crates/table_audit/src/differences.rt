//! Defines the discrepancies that an audit reports. A discrepancy is a difference between a file's
//! tables and those that the program would write, such as an entry that the rules for meter entries
//! reject.
ghost use Rattle.std.specs.Prelude.{◌≡◌, ◌<◌, ◌≤◌, ◌+◌, ◌-◌, ◌++◌, ◌∷◌, [], length, take, OnOk};

use energy_core::Last;
use meter_journal::audit::{IntervalFault, RowFault};
use office_events::Name;
use std::alloc::{AllocError, Global};

/// One of the five SQL tables whose rows belong to meters: `installations`, `ranges`, `entries`,
/// `voids` and `intervals`.
#[derive(Clone, Copy, PartialEq, Eq)]
pub enum Table {
    Installations,
    Ranges,
    Entries,
    Voids,
    Intervals,
}

/// An SQL table whose rows have names of their own.
#[derive(Clone, Copy, PartialEq, Eq)]
pub enum NamedTable {
    Installations,
    Devices,
    Points,
    Registers,
}

/// The ways in which a poll in the tables can differ from the polls that the program would record.
#[derive(Clone, Copy)]
pub enum PollFault {
    /// The row of the poll has a value out of its range.
    OutOfRange,
    /// The row of the poll's outcome has a value out of its range.
    EndOutOfRange,
    /// The poll's number is not greater than the previous poll's number, or exceeds the last
    /// expected number.
    OutOfOrder,
    /// The poll's outcome is earlier than the poll's start.
    EndedBefore,
    /// The poll started before a poll with a lower number.
    StartedBefore,
}

/// A discrepancy that an audit reports. A meter's rows differ from those of a history that the
/// rules for meter entries accept, or a poll differs from those that the program would record.
#[derive(Clone, Copy)]
pub enum Difference {
    /// A row of the audited meter, in the given table, has a value out of its column's range.
    OutOfRange(Table),
    /// A row of `table` has no valid name. The number `row` counts the table's rows from 1, in the
    /// order of their indices. The rows of `points` are in the order of their devices and indices.
    Unnamed {
        table: NamedTable,
        row: u64,
    },
    /// A row of `devices` or `registers` has a valid name, but another value out of its range. The
    /// number `row` counts the table's rows from 1, in the order of their indices.
    Unreadable {
        table: NamedTable,
        row: u64,
    },
    /// A row of `installations` has the index `has`, but `wanted` is the index that should follow.
    Installation {
        has: u64,
        wanted: u64,
    },
    /// The meter has no entry, or its first entry is not a valid opening, the entry that installs a
    /// meter.
    NotOpened,
    /// The rules for meter entries reject the entry at index `place`, given the earlier entries.
    Entry {
        place: u64,
        fault: RowFault,
    },
    /// A void record, which cancels a false reading, names no entry after the first one, or names
    /// an entry that already has a void record.
    Void {
        place: u64,
    },
    /// The void record of the entry at index `place` has the timestamp `moment`, which is earlier
    /// than `entered`, the timestamp of the entry. Both are in seconds since 1970-01-01 UTC.
    EarlyVoid {
        place: u64,
        moment: u64,
        entered: u64,
    },
    /// The stored energy of a quarter hour differs from the energy that follows from the meter's
    /// entries.
    Interval(IntervalFault),
    /// The row of `installations` has the last entry `has`, but checking the meter's entries gives
    /// the last entry `wanted`.
    Last {
        has: Last,
        wanted: Last,
    },
    /// The row of `installations` has the total energy `has`, but checking the meter's entries
    /// gives the total `wanted`, both in mWh.
    Total {
        has: u64,
        wanted: u64,
    },
    /// The closed flag in the row of `installations` is wrong: checking the meter's entries gives
    /// `wanted`.
    Ended {
        wanted: bool,
    },
    /// No poll has one of the numbers from `first` to `last`.
    NoPolls {
        first: u64,
        last: u64,
    },
    /// The poll with the number `poll` has a fault. A number out of range is reported as 0.
    Poll {
        poll: u64,
        fault: PollFault,
    },
    /// The meter `earlier` was not closed when the meter `later` was opened at the same register.
    Overlap {
        register: Name,
        earlier: Name,
        later: Name,
    },
}

/// The greatest number of discrepancies that an audit stores. Further discrepancies are only
/// counted.
pub const MOST: usize = 100;

/// The first discrepancies that an audit found, and the number of further discrepancies.
#[derive(Drop)]
pub struct Differences {
    pub first: Vec<Difference>,
    pub more: u64,
}

impl Differences {
    ghost use Rattle.table_audit.specs.Meters.{up_to_most};

    /// Creates an empty list of discrepancies.
    pub fn new(alloc: Global) -> Differences
        ensures none { result.first.items ≡ [] }
        ensures more { result.more ≡ 0 }
    {
        Differences {
            first: Vec::new(alloc),
            more: 0,
        }
    }

    /// Appends a discrepancy to the list, or only counts it if the list already has `MOST`
    /// discrepancies.
    pub fn push(&mut self, difference: Difference) -> Result<(), AllocError>
        requires few { length self.old.first.items ≤ MOST }
        ensures kept { OnOk result (self.new.first.items
            ≡ take MOST (self.old.first.items ++ difference ∷ [])) }
        ensures more { OnOk result (self.new.more
            ≡ up_to_most (self.old.more + (length self.old.first.items + 1 - MOST))) }
        ensures reported { OnOk result (0 < length self.new.first.items) }
        ensures few { OnOk result (length self.new.first.items ≤ MOST) }
    {
        let more = self.more;
        if self.first.len() < MOST {
            self.first.push(difference)?;
        } else {
            self.more = more.saturating_add(1);
        }
        Ok(())
    }
}
