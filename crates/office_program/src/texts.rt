//! The texts that the program's commands print after they open an office (the event engine) over a
//! store, and the commands' exit statuses.

mod asked_office;
mod end_texts;
mod opened_office;
mod ranged_report;
mod report;
mod round;
mod statement;

pub use asked_office::open_office_to_ask;
pub use opened_office::{Unopened, open_office};
pub use ranged_report::report_range;
pub use report::report_days;
pub use round::{poll_round, round_status};
pub use statement::report_statement;
