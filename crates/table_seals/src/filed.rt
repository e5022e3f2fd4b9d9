//! The data that the check of successive database files reads from each file. The check decides
//! whether each file continues the previous file.
use meter_journal::Installed;
use meter_journal::audit::Standing;

/// A meter in a database file: its accounting register (a named counter of a device), its opening
/// (the first entry), and its state after its last entry.
#[derive(Drop)]
pub struct FiledMeter<'a> {
    /// The name of the database file that the meter is in, for messages.
    pub file: &'a str,
    pub meter: String,
    pub register: String,
    pub installed: Installed,
    pub standing: Standing,
}

/// The time zone and the meters of one database file, or of several successive files. `file` and
/// `zone` are the name and the time zone of the latest file. The first `latest` meters belong to
/// the latest file, and the meters of earlier files follow.
#[derive(Drop)]
pub struct FiledOffice<'a> {
    pub file: &'a str,
    pub zone: String,
    pub meters: Vec<FiledMeter<'a>>,
    pub latest: usize,
}
