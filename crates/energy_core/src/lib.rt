//! Decides which readings of a counter that rolls over are accepted, and computes the energy
//! between consecutive readings.
#![tactic(auto)]

mod admission;
mod corrections;
mod counters;
mod energies;
mod entries;
mod fault_texts;
mod laws;
mod limits;
mod measures;
mod verdicts;

pub use admission::{TermFault, enter};
pub use corrections::{manual, manual as close, rescale, reset};
pub use counters::{Acc32, Counter, Ranged};
pub use energies::energy_up_to;
pub use entries::{Entry, Last, Step};
pub use laws::{
    accepted_is_entered, accepted_is_plausible, accounts_are_sound, accounts_begin, accounts_go_on,
    entered_is_booked, readings_keep_accounts, steps_add_up, truth_is_booked,
};
pub use limits::{
    INTERVAL_SECONDS, MAX_CEILING, MAX_INTERVALS, MAX_RANGE, MAX_SCALE, MAX_SHOWN, MAX_TOTAL,
    MAX_UNIT, MIN_RANGE, MIN_SCALE,
};
pub use verdicts::{Cause, Reading, Terms, Verdict, judge};
