//! The entries of a counter, the counter's state after each entry, and the energy between two
//! entries.
/// The state of a counter: a time in seconds since 1970-01-01 UTC, the count that the counter
/// shows, and its scale factor.
#[derive(Clone, Copy, PartialEq, Eq)]
pub struct Last {
    pub at: u64,
    pub raw: u32,
    pub sf: i16,
}

/// An entry of an installed meter, after the opening (the first entry, which records the
/// installation).
#[derive(Clone, Copy, PartialEq, Eq)]
pub enum Entry {
    /// A reading, a manual correction or a closing. The counter reached `raw` after `rolls` full
    /// turns.
    Step {
        at: u64,
        raw: u32,
        rolls: u8,
    },
    /// A reset or a rescale. The counter reached `before`, and was then set to `after` at the scale
    /// factor `sf`.
    Change {
        at: u64,
        before: u32,
        after: u32,
        sf: i16,
    },
}

/// The energy in mWh between two consecutive entries, and the times of both entries.
#[derive(Clone, Copy, PartialEq, Eq)]
pub struct Step {
    pub from: u64,
    pub till: u64,
    pub mwh: u64,
}
