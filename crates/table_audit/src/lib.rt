//! Audits a file's tables. An audit checks that each meter has the rows of a history that the rules
//! for meter entries accept. It also checks that no poll number is missing and no outcome is
//! earlier than its poll. The tables may have been written by any program.
#![tactic(auto)]

mod audit;
mod booking;
mod device_values;
mod differences;
mod file_mark;
mod findings;
mod json_texts;
mod lawful;
mod meters;
mod names;
mod opening;
mod poll_differences;
mod poll_queries;
mod poll_reading;
mod poll_rows;
mod polls;
mod queries;
mod reading;
mod rows;
mod schema;
mod spans;
mod texts;
mod values;

pub use audit::{audit_meter, audit_rows};
pub use booking::booked;
pub use differences::{Difference, Differences, MOST, NamedTable, PollFault, Table};
pub use file_mark::{is_marked, zone_text};
pub use findings::{Counts, Finding, Findings};
pub use json_texts::write_json;
pub use meters::audit_meters;
pub use names::{devices, name, registers};
pub use poll_queries::{last_poll, run_rows};
pub use poll_rows::{OutcomeRow, PollRow, RUN, RunRows};
pub use polls::audit_tables;
pub use queries::{installations, meter_rows};
pub use reading::{entries, installation, range, voids};
pub use rows::{MeterRows, VoidRow};
pub use schema::{SchemaFault, check_definitions};
pub use texts::write_findings;
pub use values::{write_count, write_energy, write_moment};
