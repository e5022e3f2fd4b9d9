//! Computes how many HTTP clients the server accepts at the same time, from the limit on open file
//! descriptors.
ghost use Rattle.std.specs.Prelude.{◌≡◌, ◌+◌, ◌<◌, ◌≤◌};
ghost use Rattle.run_schedule.specs.HttpClients.Clients as clients;

use crate::http_clients::client_slots::MOST_CLIENTS;

/// The number of spare file descriptors. A new connection has a descriptor before it replaces
/// another connection, and the descriptor of a closed connection may stay open for a short time.
const SPARE: usize = 4;

/// The number of file descriptors that are open before the program connects to a device or accepts
/// a client, rounded up. They are the descriptors of the standard streams, the store's file and its
/// log, the listening socket, and the event queue.
const OPEN: usize = 12;

/// Returns how many file descriptors connections need: one for each device, one for each client
/// slot, and the spare descriptors.
pub fn wanted_descriptors(devices: usize) -> usize
    ensures { result ≡ clients.wanted_descriptors devices }
{
    devices.saturating_add(MOST_CLIENTS + SPARE)
}

/// Returns the limit on open file descriptors that lets `sunreg run` with this many devices use all
/// client slots.
pub fn needed_limit(devices: usize) -> usize
    ensures { result ≡ clients.needed_limit devices }
{
    devices.saturating_add(MOST_CLIENTS + SPARE + OPEN)
}

/// Returns how many HTTP clients the server accepts at the same time with this many file
/// descriptors. Each device gets a descriptor before any client does.
pub fn clients_for(descriptors: usize, devices: usize) -> usize
    ensures clients { result ≡ clients.clients_for descriptors devices }
    ensures fits { 0 < result → devices + result + 4 ≤ descriptors }
{
    descriptors
        .saturating_sub(devices)
        .saturating_sub(SPARE)
        .min(MOST_CLIENTS)
}
