//! An entry of a meter, as the table `entries` stores it.
ghost use Rattle.std.specs.Prelude.{◌≡◌};
ghost use Rattle.store_tables.specs.Entries.Rows.{kind_number, kind_of};

/// The kind of a meter's entry. An entry is a reading or a change of the meter's counter that the
/// store has accepted.
#[derive(Clone, Copy, PartialEq, Eq)]
pub enum EntryKind {
    /// The first entry of a meter: the counter's value when the meter was installed.
    Opening,
    /// A reading that the device reported and the program's rules accepted.
    Reading,
    /// A reading that a person entered.
    Manual,
    /// The last value of a meter's counter, when the meter was closed.
    Closing,
    /// A reset of a meter: the counter was set to another value.
    Reset,
    /// A rescale of a meter: the counter was set to another value, with another scale factor
    /// (decimal exponent).
    Rescale,
}

impl EntryKind {
    /// Returns the kind of entry with a number from 1 to 6, or None for any other number.
    pub(crate) fn from_number(number: u64) -> Option<EntryKind>
        ensures { result ≡ kind_of number }
    {
        match number {
            1 => Some(EntryKind::Opening),
            2 => Some(EntryKind::Reading),
            3 => Some(EntryKind::Manual),
            4 => Some(EntryKind::Closing),
            5 => Some(EntryKind::Reset),
            6 => Some(EntryKind::Rescale),
            _ => None,
        }
    }

    /// Returns the number that the table `entries` stores for a kind of entry, from 1 to 6.
    pub fn number(self) -> u8
        ensures { result ≡ kind_number self }
    {
        match self {
            EntryKind::Opening => 1,
            EntryKind::Reading => 2,
            EntryKind::Manual => 3,
            EntryKind::Closing => 4,
            EntryKind::Reset => 5,
            EntryKind::Rescale => 6,
        }
    }
}

/// An entry of a meter: an accepted reading, or a change of its counter. Timestamps are seconds
/// since 1970-01-01 UTC.
#[derive(Clone, Copy, PartialEq, Eq)]
pub struct EntryRow {
    /// The index of the entry among the meter's entries. The first entry, made at installation, has
    /// index 1.
    pub place: u64,
    pub kind: EntryKind,
    pub moment: u64,
    /// The counter's value in the entry. For a reset or a rescale, the value before the counter was
    /// set.
    pub raw: u32,
    /// How often the meter's counter rolled over since the previous entry.
    pub rolls: u8,
    /// The value that the meter's counter was set to. 0 for all kinds of entries except a reset and
    /// a rescale.
    pub after: u32,
    /// The scale factor (decimal exponent) of the meter's counter after the entry.
    pub sf: i16,
}
