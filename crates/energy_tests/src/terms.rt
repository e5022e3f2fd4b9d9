//! Constants and macros that the tests of energy share.
use energy_core::Last;

/// The greatest total energy of an installed meter, in mWh.
pub const TOTAL_LIMIT: u64 = 4_000_000_000_000_000_000;

pub const PREVIOUS: Last = Last {
    at: 1900,
    raw: 5200,
    sf: 0,
};

/// Creates the state of a counter from its time, its count and its scale factor.
macro_rules! last {
    ($at:expr, $raw:expr, $sf:expr) => {
        Last {
            at: $at,
            raw: $raw,
            sf: $sf,
        }
    };
}

/// Creates the result of a recorded entry. Its arguments are the counter's state after the entry,
/// the time of the entry before it, and the energy in mWh.
macro_rules! booked {
    ($last:expr, $from:expr, $mwh:expr) => {
        Ok((
            $last,
            Step {
                from: $from,
                till: $last.at,
                mwh: $mwh,
            },
        ))
    };
}

pub(crate) use booked;
pub(crate) use last;
