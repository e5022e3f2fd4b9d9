//! Reasons why the meters of a database file could not continue in a new file.
use office_events::{Name, Refusal};

/// The reason why the meters of a database file could not continue in a new file.
#[derive(Clone, Copy)]
pub enum CarryFault {
    /// The database of the old file failed, or memory ran out. The refusal states which of the two
    /// happened.
    Old(Refusal),
    /// The office (event engine) of the new database file refused a command that sets up this file.
    New(Refusal),
    /// The open meter with this name has no valid (not voided) entry up to the requested timestamp.
    /// The new database file can't continue such a meter.
    NotYet(Name),
}
