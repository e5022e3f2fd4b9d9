//! The slots of the HTTP server: up to 64 places for client connections.
ghost use Rattle.std.specs.Prelude.{◌<◌};

use crate::http::clients::Client;
use run_schedule::{ClientSlots, MOST_CLIENTS, TurnShare};
use std::alloc::{AllocError, Global};

/// Returns whether a connection is ready for input or output and may be served now. If `may_reply`
/// is false, only a connection that already has a response may be served.
pub(crate) fn is_ready(connection: &Option<Client>, may_reply: bool) -> bool {
    match connection {
        Some(client) => client.ready && (may_reply || client.has_reply()),
        None => false,
    }
}

/// Returns whether a connection is served within the remaining limits of this iteration of the main
/// loop. If a limit is used up, new responses and further rows of started responses wait. A chunk
/// that is being sent always continues.
pub(crate) fn is_attended(connection: &Option<Client>, share: TurnShare) -> bool {
    match connection {
        Some(client) => {
            let is_written_on = client.has_reply() && !client.wants_rows();
            is_written_on || !share.is_over()
        }
        None => false,
    }
}

/// Returns how many bytes of its response a connection has in memory.
pub(crate) fn held_bytes(connection: &Option<Client>) -> usize {
    match connection {
        Some(client) => client.held_bytes(),
        None => 0,
    }
}

/// Returns whether the response of a connection has rows still to be sent.
pub(crate) fn has_rows_left(connection: &Option<Client>) -> bool {
    match connection {
        Some(client) => client.rows.is_some(),
        None => false,
    }
}

/// Returns whether a client got its complete response, so that its connection may be dropped.
pub(crate) fn is_done(connection: &Option<Client>, time: u64) -> bool {
    match connection {
        Some(client) => client.is_done(time),
        None => false,
    }
}

/// Makes the slots (places for connections) of an HTTP server. The first `clients` slots are open
/// to connections, and the later slots are closed.
pub(crate) fn open_slots(clients: usize) -> ClientSlots {
    let mut client_slots = ClientSlots::new();
    for slot in clients..MOST_CLIENTS {
        client_slots.shut(slot);
    }
    client_slots
}

/// Records whether the client of a connection waits for a response or got its response.
pub(crate) fn record_state(client_slots: &mut ClientSlots, slot: usize, client: &Client)
    requires { slot < 64 }
{
    match client.lingers {
        Some(until) => client_slots.set_idle(slot, until),
        None => {
            if client.has_reply() {
                client_slots.ask(slot);
            }
        }
    }
}

/// Makes one empty slot (place) for each possible connection.
pub(crate) fn empty_slots(alloc: Global) -> Result<Vec<Option<Client>>, AllocError> {
    let mut connections = Vec::new(alloc);
    for _place in 0..MOST_CLIENTS {
        connections.push(None)?;
    }
    Ok(connections)
}
