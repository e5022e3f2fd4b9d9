//! Polls devices in rounds, and runs the commands that open an office (the event engine) over a
//! store. Works with any store, clock, sockets and writer.
#![tactic(auto)]

mod command_end;
mod device_rounds;
mod driver;
mod entering;
mod fault;
mod fed_events;
mod http_port;
mod laws;
mod port_round;
mod progress;
mod ranged_report;
mod report;
mod round;
mod round_end;
mod round_laws;
mod statement;
mod steps;
mod texts;

pub use command_end::CommandEnd;
pub use device_rounds::{Round, Stage, Sum};
pub use driver::{DeviceEvent, turn};
pub use entering::{
    MOST_FILE, NamedFiles, Shown, enter_books, inputs_act_once, requests_are_repeated,
};
pub use fault::RoundFault;
pub use http_port::{ServeEnd, serve_books};
pub use laws::statements_add_up;
pub use port_round::{PATIENCE, PollEnd, poll_books};
pub use ranged_report::report_range_books;
pub use report::report_books;
pub use round::{MOST_TAKES, round_over};
pub use statement::statement_books;
pub use texts::{
    open_office, open_office_to_ask, poll_round, report_days, report_range, report_statement,
    round_status,
};
