//! Faults that a simulated device injects into its responses.

/// A fault injected into the response to one frame. The request in the frame is still executed.
#[derive(Clone, Copy, PartialEq, Eq)]
pub enum Trick {
    /// The injected fault drops the response: it is not sent.
    Drop,
    /// The injected fault repeats the response: it is sent twice.
    Twice,
    /// The injected fault delays the response until the server has executed the next frame. The
    /// response is sent after the next response, or alone if the next response is delayed too.
    Later,
    /// The injected fault raises the transaction identifier of the response by one, modulo 65536.
    Id,
    /// The injected fault raises the unit identifier of the response by one, modulo 256.
    Unit,
    /// The injected fault sets the length field in the header of the response to 0.
    Garble,
    /// The injected fault closes the connection after at most this number of bytes of the response.
    /// A delayed response is discarded.
    Cut(u16),
}
