//! Prints the read plan of a point list: the fewest Modbus reads that cover all points.

mod list_printout;
mod plan_printout;

pub use list_printout::plan_text;
pub use plan_printout::print_plan;
