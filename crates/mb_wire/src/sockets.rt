//! Connections over sockets, connections with a deadline, and the clocks that deadlines need.

mod clock;
mod counts;
mod deadline_link;
mod socket;

pub use clock::{Clock, FixedClock, SystemClock};
pub use deadline_link::DeadlineLink;
pub use socket::SocketLink;
