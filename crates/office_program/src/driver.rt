//! Polls several devices at once for an office, the engine that records energy. Processes each
//! device event, and then feeds the events that the polling rounds generate to the office.

mod device_events;
mod feed;
mod turns;

pub use device_events::DeviceEvent;
pub use turns::{MAX_REQUESTS, turn};
