//! Routes the requests of HTTP clients, and builds the responses from the store, from counts, or
//! from the files of the web page. The module `status` has the counts and states of a run.
#![tactic(auto)]

mod answer;
mod browsers;
mod kept_rows;
mod laws;
mod meter_replies;
mod meter_targets;
mod metrics;
mod office_requests;
mod pieces;
mod register_meters;
mod register_replies;
mod register_targets;
mod reply_link;
mod route;
mod row_sizes;
mod site;
pub mod status;
mod texts;
mod voids;

pub use answer::{ClientResponse, ask};
pub use browsers::for_browsers;
pub use laws::{entries_come_after, rows_before_stay};
pub use meter_replies::{MOST_ENTRIES, reply_entries, reply_intervals};
pub use metrics::reply_metrics;
pub use office_requests::{all_rows_asked, may_void};
pub use pieces::{
    RemainingRows, begin_all_intervals, begin_intervals, chunks_form_response, has_more,
    is_long_response, text_stays, write_last_rows, write_next_rows,
};
pub use register_meters::reply_meters;
pub use register_replies::{reply_energy, write_energy_reply};
pub use route::{RunRoute, StatusRoute, asks_energy, reply_status, run_route};
pub use site::write_site_reply;
pub use texts::{SiteLine, write_entries, write_metrics, write_register_meters, write_site};
pub use voids::reply_voids;
