//! Formats the bodies of responses: `/site`, `/metrics`, rows of a meter, and the past and present
//! meters of an accounting register (a named energy counter).

mod energy_lines;
mod families;
mod meter_lines;
mod metrics;
mod register_lines;
mod site;

pub(crate) use meter_lines::{append_end, write_share, write_share_lines};
pub use meter_lines::{write_entries, write_shares, write_voids};
pub use metrics::write_metrics;
pub use register_lines::write_register_meters;
pub use site::{SiteLine, write_site};
