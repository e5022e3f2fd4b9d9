//! The rules that the program's records obey, the trait of a store of these records, and helpers
//! for implementations of that trait.
#![tactic(auto)]

mod accounts;
mod books;
mod endings;
mod entries;
mod failures;
mod faults;
mod lawfulness;
mod laws;
mod named;
mod near;
mod next_entry;
mod openings;
mod plans;
mod poll_order;
mod readings;
mod registers;
mod soundness;
mod spans;
mod steps;

pub use accounts::installation_after;
pub use books::{Books, Repeat, RowSink};
pub use endings::polls_end_once;
pub use entries::{MeterEntry, list_entries};
pub use failures::Failures;
pub use faults::{BooksFault, StoreFault};
pub use lawfulness::{books_are_true, facts_are_lawful, names_are_distinct};
pub use laws::{
    facts_are_bounded, installations_are_in_range, journals_fit, meters_are_kept,
    truth_is_recorded, voids_leave_no_trace,
};
pub use named::{list_at, meter_at, read_count_at, reads_at};
pub use near::with_whole_energy;
pub use next_entry::{after_entry, moved, verdict_at};
pub use openings::{begun, has_numbers, installed, opened};
pub use plans::{read_count, reads_from};
pub use poll_order::polls_fit;
pub use readings::{is_read_by, registers_read, retain_covered};
pub use registers::registers_are_in_turn;
pub use soundness::is_sound;
pub use spans::Span;
pub use steps::{
    entries_move_on, holds_change_nothing, openings_begin, other_meters_stay,
    voided_entries_give_way,
};
