//! The data besides the store from which the server builds HTTP responses.
use crate::http::energy_over::EarlierFiles;
use crate::http::moments::Now;
use run_http::status::{DeviceLack, RunMonitor};

/// The data, besides the store, from which the HTTP server builds responses: host names, counts,
/// device states, missing parts of the devices' setup, and the data of earlier files.
///
/// `names` are further host names that the `Host` header of a request may have. `monitor` has the
/// counts and the device states. `lacks` lists what the devices lacked when the run began, such as
/// a point list.
#[derive(Clone, Copy)]
pub struct RunContext<'a> {
    pub names: &'a [&'a str],
    pub monitor: &'a RunMonitor,
    pub lacks: &'a [DeviceLack],
    pub earlier: &'a EarlierFiles<'a>,
    pub at: Now,
}

/// A trait to read the monotonic clock, and to ask whether the store's files were there at the
/// latest check.
pub trait RunSystem: std::rt::Clock {
    /// Returns whether, at the latest check, the paths of the store's files led to the open files.
    fn are_files_there(&self) -> bool;
}
