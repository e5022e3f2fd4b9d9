//! Simulates a Modbus TCP device with coils and registers in memory. Responses follow the Modbus
//! Application Protocol V1.1b3.
#![tactic(auto)]

mod answer;
mod bank;
mod fault_texts;
mod kinds;
mod laws;
mod packed_values;
mod sender;
mod server;
mod stand_in;
mod trick;

pub use bank::Bank;
pub use kinds::{Area, BankFault, Kind};
pub use laws::{no_trick_is_true, turns_compose};
pub use server::{ServeFault, Server, Turned};
pub use stand_in::{MOST_TURNS, answer_all, answer_one};
pub use trick::Trick;
