//! The reasons why a meter of an earlier database file does not continue in the next file.

/// A reason why a meter does not continue the meter of the same name in the earlier file.
#[derive(Clone, Copy)]
pub enum JoinFault {
    /// The meter was already closed in the earlier file.
    Closed,
    /// The meter was assigned to another accounting register (a named counter of a device) in the
    /// earlier database file, which the next file continues.
    Register,
    /// The meter's counter had another range in the earlier database file than in the next file.
    Range,
    /// The meter had another ceiling (maximum power) in the earlier file.
    Ceiling,
    /// The meter's opening, its first entry in the next file, differs from its last entry in the
    /// earlier file.
    Opening,
    /// The meter's total energy in all files exceeds the limit of one meter.
    Energy,
}
