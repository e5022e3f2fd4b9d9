//! The commands that work on database files, but do not poll devices or serve HTTP. Also has the
//! file operations of the command `run`.
#![tactic(auto)]

mod audits;
mod backups;
mod carries;
mod copies;
mod earlier_files;
mod escaped;
mod files;
mod forms;
mod joined_reports;
mod new_office;
mod opening;
mod parts;
mod recovery;
mod zones;

pub use audits::{audit, audit_several};
pub use backups::backup;
pub use carries::{NotCarried, carry, carry_open, write_why};
pub use earlier_files::{but_last, earlier_registers};
pub use escaped::Escaped;
pub use files::{Files, OfficeFiles, Opening};
pub use forms::{Wanted, wanted_of};
pub use joined_reports::{last_of, report_files};
pub use new_office::create;
pub use opening::open_in;
pub use parts::{is_there, part_name};
pub use recovery::recover;
