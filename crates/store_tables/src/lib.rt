//! The tables of a store in SQLite: its schema and versions, and statements on the rows of devices,
//! polls, meters and entries.
#![tactic(auto)]

mod columns;
mod devices;
mod entries;
mod faults;
mod layouts;
mod limits;
mod meta;
mod meters;
mod new_file;
mod numbers;
mod open_faults;
mod opened_file;
mod polls;
mod probe;
mod tables;
mod upgrade;
mod zones;

pub(crate) use columns::function;
pub use columns::{first_whole, scale, text, whole};
pub use devices::{
    Device, DeviceRow, Point, PointRow, Register, RegisterRow, RegisterScale, device_rows,
    fits_a_read, insert_device, insert_register, last_device_rows, last_register_rows, point_rows,
    read_device, read_point, read_register, register_count, register_of, register_rows,
    replace_points,
};
pub use entries::{
    EntryKind, EntryRow, entry_at, entry_rows, insert_entry, insert_void, last_entry_rows,
    latest_entry, latest_void, read_entry, read_void, set_rollovers, void_rows,
};
pub use faults::RowFault;
pub use layouts::{Layout, layout_of};
pub use limits::{GREATEST_PLACE, LATEST_MOMENT};
pub use meters::{
    Installation, InstallationRow, LastRow, close_installation, insert_installation, insert_range,
    installation_at, installation_of, installation_rows, last_installation, last_installation_rows,
    range_of, range_rows, read_installation, read_range, update_last,
};
pub use new_file::create;
pub use numbers::number;
pub(crate) use numbers::signed;
pub use open_faults::OpenFault;
pub use opened_file::open;
pub use polls::{
    OutcomeRow, Poll, PollRow, RejectedRow, Repeat, insert_kept_request, insert_outcome,
    insert_poll, insert_rejected, last_hold_rows, last_poll, latest_hold, latest_outcome,
    latest_reply, latest_start, outcome_of, pending_rows, poll_at, read_poll, repeat_of,
};
pub use probe::check_open;
