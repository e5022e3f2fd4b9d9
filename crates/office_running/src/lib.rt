//! Polls devices on a schedule and serves HTTP on a port, in one thread and with one store (`sunreg
//! run`).
#![tactic(auto)]

mod clocks;
mod descriptors;
mod device_polls;
mod devices;
mod event_loop;
mod fault;
mod file_watch;
pub mod http;
mod lacking;
mod leftovers;
mod office;
mod outlet;
mod settings;
mod voice;

pub use fault::RunFault;
pub use leftovers::say_ahead;
pub use office::{Ran, run_office};
pub use outlet::write_without_waiting;
pub use settings::{Descriptors, Settings, Site};
