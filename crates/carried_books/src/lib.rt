//! Begins a new database file in which the meters of an old file continue, and reports on several
//! database files together.
#![tactic(auto)]

mod carrying;
mod joining;

pub use carrying::{
    CarryFault, carry_books, commands_record_the_same, meters_continue_from_their_last_state,
};
pub use joining::{
    Apart, ComparedRegisters, EarlierDays, EarlierRegister, JoinedDays, JoinedFiles,
    JoinedStatement, Keeping, KeptMeter, KeptRegister, KeptRegisters, LatestMeter, Unjoined,
    add_books, add_next_file, both_files_state_the_joined_meter, collected_days_are_sums,
    compare_file, days_of_one_file_are_its_own, days_over, earlier_meters,
    joined_days_agree_with_both_files, latest_is_of_all_files, latest_meter, no_files,
    one_file_states_its_meters, report_days, report_joined, state_joined,
};
