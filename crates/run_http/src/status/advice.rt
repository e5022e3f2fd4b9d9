//! Messages for operators: what a printed error number means, and what is missing in the store for
//! a device.

mod lacks;
mod reported;
mod sentences;

pub use lacks::{DeviceLack, Lack, add_lacks};
pub use reported::{MOST_REPORTED, Reported, ReportedNumber, Topic};
pub use sentences::{append_refusal, write_held, write_lack};
