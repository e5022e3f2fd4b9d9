//! The rows of the table `installations`, one for each meter.

/// The last entry of a meter, and its total energy since its installation, in milliwatt-hours
/// (mWh).
#[derive(Clone, Copy, PartialEq, Eq)]
pub struct LastRow {
    pub moment: u64,
    pub raw: u32,
    pub sf: i16,
    pub total: u64,
}

/// The columns of a meter's row in `installations`, except the names of the meter and its
/// accounting register (a named counter).
#[derive(Clone, Copy, PartialEq, Eq)]
pub struct InstallationRow {
    /// The index of the meter's row in `installations`, from 1 in the order of installation.
    pub place: u64,
    /// The greatest power that can flow through the meter, in W.
    pub ceiling: u64,
    /// Whether the meter was closed.
    pub is_ended: bool,
    pub last: LastRow,
}

/// A row of `installations`: a meter with the accounting register (named counter of a device) at
/// which it is installed.
#[derive(Drop)]
pub struct Installation {
    pub meter: String,
    pub register: String,
    pub row: InstallationRow,
}
