//! Writes the lines for the energies of quarter hours and of days, without allocating memory.

mod line;
mod rows;

pub use line::{Line, Text};
pub use rows::{
    day_line, day_of_month, end_line, interval_line, month_of, push_part, push_year, write_day,
    write_end, write_interval,
};
