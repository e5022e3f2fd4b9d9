//! The parsed command line of `sunreg`.
use crate::values::Device;
use energy_report::{EnergyUnit, Format, Period};

/// The options that determine what a report shows. `from` and `till` are days, as the user wrote
/// them.
#[derive(Clone, Copy, Debug)]
pub struct FormWords<'a> {
    pub from: Option<&'a str>,
    pub till: Option<&'a str>,
    pub period: Option<Period>,
    pub unit: Option<EnergyUnit>,
    pub format: Option<Format>,
    /// True if the report is a statement, which has one row for each meter, to check a bill. A
    /// statement has no periods.
    pub statement: bool,
}

/// What an audit of a database file prints, and what it does with a seal, a stored digest of the
/// file's past.
#[derive(Clone, Copy, Debug)]
pub enum Sealing<'a> {
    /// The audit prints lines of text, and uses no seal (a digest of a file's past).
    Nothing,
    /// The audit prints JSON, one object a line, and uses no seal (a digest of a file's past).
    Json,
    /// The audit prints a seal (a digest of the file's past) for the audited file.
    Print,
    /// The audit compares the file with the seal (a digest of the file's past) that is stored at
    /// this path.
    Against(&'a str),
}

/// A command with the values of its options. Texts are as the user wrote them, numbers are in
/// range, and durations are in seconds.
#[derive(Debug, Drop)]
pub enum CommandLine<'a> {
    /// Executes a script (a text of commands, events and queries) from standard input, with a store
    /// in memory.
    Replay {
        zone: &'a str,
    },
    /// Executes a script (a text of commands, events and queries) from standard input, with a
    /// database file as its store.
    ReplayFile {
        db: &'a str,
    },
    /// Prints the Modbus reads that cover the points of a point list from standard input.
    Plan,
    /// Prints the SunSpec models in a Modbus memory image from standard input.
    Chain,
    /// Creates the tables of a new, empty database in a file.
    Create {
        db: &'a str,
        zone: &'a str,
    },
    /// Executes the commands in the lines of standard input. The idempotency key of each line is
    /// `caller` and the line's number, so a retry of a line is not executed again. `devices` has
    /// the addresses of the devices whose counters the commands read. With `only_read`, the lines
    /// are executed on a temporary copy of the file, so nothing is recorded.
    Enter {
        db: &'a str,
        caller: &'a str,
        devices: Vec<Device<'a>>,
        only_read: bool,
    },
    /// Serves HTTP until a number of connections has been served. A request's Host header may have
    /// a name of this machine or one of `host_names`.
    Serve {
        db: &'a str,
        port: u16,
        connections: u32,
        host_names: Vec<&'a str>,
    },
    /// Executes one round of polls of a device, with one poll for each Modbus read of the device's
    /// reading plan.
    Round {
        db: &'a str,
        device: &'a str,
        host: &'a str,
        port: u16,
    },
    /// Reports the energy of an accounting register (a named counter of a device) by days or
    /// another period. With the option `--statement`, prints a statement (billing report) of the
    /// register's meters instead.
    Report {
        db: &'a str,
        register: &'a str,
        form: FormWords<'a>,
    },
    /// Prints the report or statement of an accounting register (a named counter of a device) over
    /// several successive database files, the oldest first.
    ReportFiles {
        files: Vec<&'a str>,
        register: &'a str,
        form: FormWords<'a>,
    },
    /// Copies a database file to a new file.
    Backup {
        db: &'a str,
        to: &'a str,
    },
    /// Recovers the readable records of a database whose write-ahead log is damaged, and writes
    /// them to a new file.
    Recover {
        db: &'a str,
        to: &'a str,
    },
    /// Begins a new file in which each open meter continues from its last entry in the old file.
    /// With `until`, each meter continues from its last entry up to that time.
    Carry {
        from: &'a str,
        to: &'a str,
        until: Option<u32>,
    },
    /// Audits the rows of a database file. If requested, also prints a seal (a digest of the file's
    /// past), or compares the file with a seal. For several files, the oldest first, also checks
    /// that each file continues the previous file. A seal or JSON requires a single file.
    Audit {
        dbs: Vec<&'a str>,
        seal: Sealing<'a>,
    },
    /// Scans the SunSpec models of a live device. Prints the models, a point list, or the script
    /// lines that set the device up.
    Scan {
        host: &'a str,
        port: u16,
        unit: u8,
        timeout: u32,
        list: bool,
        setup: Option<&'a str>,
    },
    /// Simulates a Modbus device with a register map from standard input, until a number of
    /// connections has been served.
    StandIn {
        host: &'a str,
        port: u16,
        connections: u32,
    },
    /// Executes a script (a text of commands, events and queries) whose devices are simulated in
    /// the same process.
    Loop {
        zone: &'a str,
    },
    /// Polls devices at intervals and serves HTTP, until the process is stopped or `lasts` seconds
    /// have passed. If there are several files, the oldest first, only the last file is written.
    Run {
        dbs: Vec<&'a str>,
        listen: u16,
        every: u32,
        devices: Vec<Device<'a>>,
        lasts: Option<u32>,
        /// The period after which the command `run` begins a new database file.
        carry: Option<Period>,
        /// The number of earlier database files whose energy the command `run` also reports. This
        /// option is not allowed with several files, because the command then reports the energy of
        /// all these files.
        earlier: Option<u32>,
        host_names: Vec<&'a str>,
        /// The maximum size of the kept requests (accepted requests stored with their responses, so
        /// that a retry changes nothing), in megabytes.
        most_kept: Option<u32>,
        verbose: bool,
    },
    /// Explains a numeric code that the program printed after a word, such as `held 2` (a rejected
    /// reading).
    Explain {
        what: &'a str,
        number: &'a str,
    },
    /// Prints the completion script for bash.
    Completions,
}
