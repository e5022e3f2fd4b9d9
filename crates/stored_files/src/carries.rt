//! File rollovers. A file rollover begins a new database, in which each open meter continues from
//! its last entry in the old database.

mod stored;
mod zones;

pub use stored::{CarryEnd, carry_stored};
pub use zones::read_zone_text;
