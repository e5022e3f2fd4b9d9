//! The lines that set up a simulated device: its register map and its injected faults.

mod bank;
mod bank_line;

pub use bank::{BankLine, GivenArea, GivenCell};
