//! The seals of a meter, of polls, and of a complete file. A seal has digests of the records at one
//! time, to detect later changes of these records.

use table_audit::VoidRow;

/// The energy of a meter in one calendar month of the file's time zone.
#[derive(Drop)]
pub struct MonthSeal {
    /// The month, as `2026-01`.
    pub month: Vec<u8>,
    /// The energy in mWh.
    pub mwh: u64,
}

/// The seal of a meter: its index, name, accounting register (a named energy counter), range and
/// ceiling (maximum power), and its entries' number and digest. It also has the meter's voids
/// (cancellations of entries), and its energy in each calendar month up to the last entry.
#[derive(Drop)]
pub struct MeterSeal {
    pub place: u64,
    pub meter: String,
    pub register: String,
    pub range: u64,
    pub ceiling: u64,
    pub entries: u64,
    pub digest: [u8; 32],
    pub voids: Vec<VoidRow>,
    pub months: Vec<MonthSeal>,
}

/// The seal of the polls in a file. It has the number of polls, the digest of the polls and their
/// outcomes, and the numbers of the polls without an outcome.
#[derive(Drop)]
pub struct PollSeal {
    pub count: u64,
    pub digest: [u8; 32],
    pub pending: Vec<u64>,
}

/// The seal (digests of earlier records) of a file: the lines of its time zone, devices and
/// registers, the seals of its meters in order of index, and the seal of its polls.
#[derive(Drop)]
pub struct Seal {
    pub setup: Vec<Vec<u8>>,
    pub meters: Vec<MeterSeal>,
    pub polls: PollSeal,
}
