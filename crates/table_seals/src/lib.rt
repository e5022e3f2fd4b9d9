//! Creates and checks seals, which are texts with digests of a database file's records. A check
//! shows whether the file, possibly years later, still has the sealed records. The crate also
//! checks whether successive files continue each other.
#![tactic(auto)]

mod checking;
mod checks;
mod filed;
mod filing;
mod installed;
mod join_faults;
mod join_laws;
mod join_lines;
mod joining;
mod joins;
mod laws;
mod months;
mod notes;
mod once;
mod parsing;
mod poll_sealing;
mod poll_texts;
mod poll_values;
mod sealing;
mod seals;
mod setup;
mod tables;
mod texts;

pub use checking::check_seal;
pub use checks::{Checked, append_checked};
pub use filed::{FiledMeter, FiledOffice};
pub use filing::filed_meters;
pub use join_faults::JoinFault;
pub use join_laws::{
    joined_files_are_lawful, joined_files_are_one, joined_meters_go_on, kept_meters_are_reported,
};
pub use join_lines::append_joins;
pub use joining::Joining;
pub use laws::{first_entries_stay, polls_stay, voids_stay};
pub use parsing::{NoSeal, read_seal};
pub use sealing::seal_tables;
pub use seals::{MeterSeal, MonthSeal, PollSeal, Seal};
pub use texts::append_seal;
