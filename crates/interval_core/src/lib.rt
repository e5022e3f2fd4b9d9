//! Energy by quarter hour and by civil day, exact to the mWh (milliwatt-hour).
#![tactic(auto)]

mod day;
mod day_range;
mod laws;
mod limits;
mod shares;
mod spread;
mod totals;
mod zone;

pub use day::{DayFault, day_of};
pub use day_range::DayRange;
pub use jiff::civil::Date as Day;
pub use laws::{
    accounts_add_up, accounts_are_one, accounts_ignore_order, shares_add_up, zones_are_one,
};
pub use limits::{LAST_MOMENT, MAX_STEP_SECONDS, MAX_ZONE_TEXT};
pub use shares::{INTERVAL, Share, Shares};
pub use totals::{DayFold, DayTotal, by_day};
pub use zone::{Zone, ZoneFault};
