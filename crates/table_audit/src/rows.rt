//! The result rows of an audit's queries for one meter.

use sqlite::Row;

/// The result rows of the queries for one meter. Entries and void records (cancellations) are in
/// order of entry index, and intervals are in order of their starts.
#[derive(Drop)]
pub struct MeterRows {
    pub ranges: Vec<Row>,
    pub entries: Vec<Row>,
    pub voids: Vec<Row>,
    pub intervals: Vec<Row>,
}

/// A row of the table `voids`: the index of the voided (cancelled) entry, and the time of the void
/// in seconds since 1970-01-01 UTC.
#[derive(Clone, Copy, PartialEq, Eq)]
pub struct VoidRow {
    pub place: u64,
    pub moment: u64,
}
