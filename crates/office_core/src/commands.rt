//! Executes the commands that the program accepts, on its store and on the Modbus sessions of its
//! devices.

mod additions;
mod effects;
mod meters;
mod records;
mod registers;
mod replies;
mod rounds;
mod starts;

pub use crate::starting::Outgoing;
pub use effects::{Done, carry_out, puts_planned};
