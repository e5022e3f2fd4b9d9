//! Finds how many HTTP clients a run of `sunreg run` can serve at once within the limit on open
//! file descriptors.
use mio::Poll;
use run_schedule::{MOST_CLIENTS, clients_for, needed_limit, wanted_descriptors};
use std::alloc::{AllocError, Global};
use std::net::Net;

/// The number of devices for which the recommended limit on open file descriptors suffices, even if
/// the run has fewer devices.
const MOST_DEVICES: usize = 64;

/// The number of clients that `sunreg run` accepts at once, if there are too few file descriptors
/// for the maximum number of clients.
#[derive(Clone, Copy)]
pub(crate) struct FewClients {
    pub(crate) clients: usize,
    /// The recommended limit on open file descriptors (`ulimit -n`), with which a run can serve its
    /// maximum number of clients.
    pub(crate) limit: usize,
}

// Counts the file descriptors that the process may still open, up to `most`. The function opens
// this many descriptors and closes them again, to find out how many are free.
fn count_descriptors<R: Net>(rt: &R, alloc: Global, most: usize) -> Result<usize, AllocError> {
    let mut opened = Vec::new(alloc);
    for _descriptor in 0..most {
        match Poll::new(rt) {
            Ok(poll) => opened.push(poll)?,
            Err(_) => return Ok(opened.len()),
        }
    }
    Ok(opened.len())
}

/// Returns the number of clients that a run with `devices` devices accepts at once.
///
/// If fewer than the maximum number of clients can be served at once, also returns the recommended
/// limit on open file descriptors. Call this function when everything is open except the
/// connections of devices and clients.
pub(crate) fn find_clients<R: Net>(
    rt: &R,
    alloc: Global,
    devices: usize,
) -> Result<(usize, Option<FewClients>), AllocError> {
    let found = count_descriptors(rt, alloc, wanted_descriptors(devices))?;
    let clients = clients_for(found, devices);
    if clients >= MOST_CLIENTS {
        return Ok((clients, None));
    }
    let limit = needed_limit(devices.max(MOST_DEVICES));
    Ok((clients, Some(FewClients { clients, limit })))
}
