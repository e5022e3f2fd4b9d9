//! Plans the fewest Modbus reads for a point list, and stores a point list together with the reads
//! of its plan.
#![tactic(auto)]

mod beginnings;
mod copies;
mod items;
mod laws;
mod order;
mod places;
mod planned_list;
mod planned_reads;
mod planner;
mod reads;
mod run;

pub use laws::{lists_are_planned_once, rule_is_least};
pub use places::{Place, Plan};
pub use planned_list::PlannedList;
pub use planned_reads::PlannedRead;
pub use planner::plan;
