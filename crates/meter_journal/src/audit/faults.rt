//! The reasons why an entry row may not follow the rows before it.

use energy_core::{Cause, TermFault};

/// The reason why an entry row may not follow the rows before it.
#[derive(Clone, Copy, PartialEq, Eq)]
pub enum RowFault {
    /// The row does not have the next sequence number, which is `wanted`.
    Place { wanted: u64 },
    /// The row is an opening (a meter's first entry), but the meter already has an opening.
    OpenedAgain,
    /// The row follows the closing of the meter, which must be the last row.
    AfterClosing,
    /// The row is voided (cancelled) but is not a reading. Only readings can be voided.
    CannotBeVoided,
    /// A column that the row's kind does not use is not 0: the rollovers `rolls` in a reset or a
    /// rescale, or the new count `after` in any other kind.
    Unused,
    /// The row changes the scale factor but is not a rescale. The expected scale factor is
    /// `wanted`.
    Scale { wanted: i16 },
    /// The row is a reading that the rules for meter entries would have rejected for this cause
    /// when it was recorded.
    Held(Cause),
    /// The rollovers of a reading are wrong, and `wanted` is the expected number. A valid reading
    /// needs the rollovers computed from the entry before it, and a voided (cancelled) reading has
    /// at most one.
    Rolls { wanted: u8 },
    /// The row is a manual entry (made by a person) that the rules for meter entries would have
    /// refused for this fault.
    Refused(TermFault),
}
