//! Reads the lines of scripts (commands, events and queries), and writes the texts that a run of a
//! script prints. After a failed write, the writer has received a beginning of the text. No
//! function that writes a text allocates memory.
#![tactic(auto)]

mod accepted_events;
mod bank;
mod commands;
mod happenings;
mod line_fault;
mod line_reader;
mod line_words;
mod lines;
mod notes;
mod parts;
mod row_lines;
mod script;
mod verbs;

pub use accepted_events::{write_accepted, write_answer, write_notes};
pub use bank::{BankLine, GivenArea, GivenCell};
pub use line_fault::LineFault;
pub use line_words::{
    Words, end_of_words, hex_bytes, next_moment, next_name, next_number, next_range, next_scale,
    next_signed, number,
};
pub use lines::{write_bad_line, write_faults, write_meter, write_poll, write_refusal};
pub use notes::write_note;
pub use row_lines::{
    Line, Text, day_line, day_of_month, end_line, interval_line, month_of, push_part, push_year,
    write_day, write_end, write_interval,
};
pub use script::{GivenList, GivenStart, ScriptLine};
