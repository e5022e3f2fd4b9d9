//! Joins several database files, the oldest first, to report an accounting register (a named
//! counter) over all files.
//!
//! A meter in the next database file continues from its state in the previous file. The module
//! reports the meters of an accounting register (a named counter) and its energy by day.

mod days;
mod earlier;
mod files;
mod keeping;
mod kept_meters;
mod laws;
mod meters;
mod offices;
mod reports;
mod sites;
mod statements;

pub use days::{EarlierDays, JoinedDays};
pub use earlier::{
    ComparedRegisters, EarlierRegister, KeptRegister, KeptRegisters, add_next_file, compare_file,
};
pub use files::{JoinedFiles, Unjoined, add_books, no_files};
pub use keeping::Keeping;
pub use kept_meters::KeptMeter;
pub use laws::{
    both_files_state_the_joined_meter, collected_days_are_sums, days_of_one_file_are_its_own,
    joined_days_agree_with_both_files, latest_is_of_all_files, one_file_states_its_meters,
};
pub use meters::Apart;
pub use offices::days_over;
pub use reports::{report_days, report_joined};
pub use sites::{LatestMeter, earlier_meters, latest_meter};
pub use statements::{JoinedStatement, state_joined};
