//! The settings of a run of `sunreg run`.
use carried_books::EarlierRegister;
use office_events::Name;
use std::net::SocketAddr;
use std::os::fd::RawFd;

/// A device to poll: its name in the store, and its address. The name is `None` if it is not valid.
#[derive(Clone, Copy)]
pub struct Site {
    pub name: Option<Name>,
    pub addr: SocketAddr,
}

/// The file descriptors of standard output and standard error.
#[derive(Clone, Copy)]
pub struct Descriptors {
    pub output: RawFd,
    pub errors: RawFd,
}

/// The settings of a run of `sunreg run`. Times are in seconds.
#[derive(Clone, Copy)]
pub struct Settings<'n> {
    /// The local address and port on which HTTP is served.
    pub listen: SocketAddr,
    /// The time between polling rounds of a device. A value outside 1 to 86,400 is replaced by the
    /// nearer of these limits.
    pub every: u64,
    /// The number of seconds that the process runs; `None` for no limit.
    pub lasts: Option<u64>,
    /// The timestamp at which the process ends even if the duration `lasts` is not over, in seconds
    /// since 1970-01-01 UTC; `None` for no such timestamp.
    pub ends: Option<u64>,
    /// The host names that the `Host` header of a request may have, besides `localhost` and the
    /// loopback addresses.
    pub host_names: &'n [&'n str],
    /// The size of the commands that the store keeps to detect retries, when the store was opened,
    /// and the limit of this size (`--most-kept`). Both are in bytes.
    ///
    /// Commands beyond the limit `most_kept` get status 503. If `most_kept` is `None`, there is no
    /// limit.
    pub kept: u64,
    pub most_kept: Option<u64>,
    /// For each accounting register (a named energy counter), its data in the store's earlier
    /// database files. Energy is reported over these files and the open file together.
    pub earlier: &'n [EarlierRegister],
    /// The paths of the files that the store has open. The run watches these files until it ends.
    pub files: &'n [&'n str],
    /// Whether `sunreg run` also prints a line for each poll, each accepted reading, and each
    /// connection to a device.
    pub verbose: bool,
    /// The file descriptors of standard output and standard error, with which the run avoids writes
    /// that wait for a reader. `None` if no write to these outputs can wait.
    pub descriptors: Option<Descriptors>,
}
