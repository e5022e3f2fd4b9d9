//! Reports on an accounting register (a named counter of a device) over several successive database
//! files.

mod stored;

pub use stored::{JoinFault, JoinedOffice, join_stored};
