//! Decodes SunSpec points of each type, counters and scale factors from registers, and writes
//! scaled values exactly.
#![tactic(auto)]

mod counters;
mod decimal;
mod digits;
mod numbers;
mod point;
mod point_text;
mod point_type;
mod scale;
mod sink;
mod text;

pub use counters::{acc32, sunssf};
pub use decimal::write_scaled;
pub use numbers::number_of_digits;
pub use point::{Point, read_point};
pub use point_type::{PointType, TextLength};
pub use scale::Scale;
pub use sink::Sink;
pub use text::Text;
