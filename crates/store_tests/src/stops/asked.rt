//! The requests that a test sends after its script of events: one replaces the meter, and the other
//! voids (cancels) the meter's reading.

/// A request that a test sends after a script of commands and device events.
#[derive(Clone, Copy, Debug)]
pub(crate) enum Asked {
    Exchange,
    Void,
}

const EXCHANGE: &[u8] =
    b"POST /registers/main/exchange HTTP/1.1\r\nContent-Length: 68\r\nOffice-Caller: desk\r\nOffice-Request: 7\r\n\r\n{\"ceiling\":100000,\"last\":5300,\"meter\":\"m2\",\"raw\":0,\"rolls\":0,\"sf\":0}";

const EXCHANGE_DONE: &[u8] =
    b"HTTP/1.1 200 OK\r\nContent-Type: application/json\r\nContent-Length: 19\r\nConnection: close\r\n\r\n{\"done\":\"exchange\"}";

const VOID: &[u8] =
    b"POST /meters/m1/void HTTP/1.1\r\nContent-Length: 11\r\nOffice-Caller: desk\r\nOffice-Request: 8\r\n\r\n{\"place\":2}";

const VOID_DONE: &[u8] =
    b"HTTP/1.1 200 OK\r\nContent-Type: application/json\r\nContent-Length: 15\r\nConnection: close\r\n\r\n{\"done\":\"void\"}";

/// The HTTP response to a request during which the store fails.
pub(crate) const UNAVAILABLE: &[u8] =
    b"HTTP/1.1 503 Service Unavailable\r\nContent-Type: application/json\r\nContent-Length: 14\r\nConnection: close\r\n\r\n{\"refused\":13}";

/// Returns the bytes of an HTTP request that a test sends.
pub(crate) fn request_of(asked: Asked) -> &'static [u8] {
    match asked {
        Asked::Exchange => EXCHANGE,
        Asked::Void => VOID,
    }
}

/// Returns the HTTP response to a test's request that was executed.
pub(crate) fn reply_of(asked: Asked) -> &'static [u8] {
    match asked {
        Asked::Exchange => EXCHANGE_DONE,
        Asked::Void => VOID_DONE,
    }
}
