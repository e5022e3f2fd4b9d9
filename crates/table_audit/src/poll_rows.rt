//! The values of polls and outcomes that an audit compares.

use sqlite::Row;

/// The number of consecutive polls that the audit reads at once. These polls are called a run. The
/// first run begins at poll number 1.
pub const RUN: u64 = 4096;

/// The result rows of the queries for the polls and outcomes of a run (`RUN` consecutive poll
/// numbers), in order of poll numbers. The first run includes all poll numbers below 1.
#[derive(Drop)]
pub struct RunRows {
    pub polls: Vec<Row>,
    pub outcomes: Vec<Row>,
}

/// The number and the start time of a poll.
#[derive(Clone, Copy, PartialEq, Eq)]
pub struct PollRow {
    pub number: u64,
    /// The time at which the poll started, in seconds since 1970-01-01 UTC.
    pub started: u64,
}

/// The poll number and the timestamp of an outcome, which ends a poll.
#[derive(Clone, Copy)]
pub struct OutcomeRow {
    /// The number of the poll that ended with this outcome.
    pub poll: u64,
    /// The time at which the poll ended, in seconds since 1970-01-01 UTC.
    pub moment: u64,
}
