//! The work of the commands that handle complete database files of metering records: audits,
//! backups, recoveries, file rollovers and merged reports. Also defines the exit statuses of all
//! commands.
#![tactic(auto)]

mod audits;
mod backups;
mod carries;
mod courses;
mod ends;
mod files;
mod fine_files;
mod joins;
mod logs;
mod new_office;
mod recoveries;
mod seals;

pub use audits::{
    AuditFault, audit_stored, check_mark, hold_to_earlier, meters_stored, write_audit, write_joins,
    write_json_audit,
};
pub use backups::{CopyFault, recovered_file, whole_file, whole_files};
pub use carries::{CarryEnd, carry_stored, read_zone_text};
pub use courses::{course_stored, request_bytes};
pub use ends::{Ending, Failure, Named, ending_of, say};
pub use files::{
    Databases, FileConnection, FileFault, LogHeader, check_beside, check_regular, is_bare,
    is_blank, is_office, length_of, log_of, make_file, mend_beside, open_file, real_path,
};
pub use fine_files::fine_registers_are_in_turn;
pub use joins::{JoinFault, JoinedOffice, join_stored};
pub use logs::LogFault;
pub use new_office::create_stored;
pub use recoveries::{latest_stored, write_recovered};
pub use seals::{check_stored_seal, seal_stored, write_checked, write_seal};
pub use table_seals::Joining;
