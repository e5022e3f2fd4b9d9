//! The connection of an HTTP client: the bytes of its request so far, and its response.
use crate::http::outbox::{MOST_CALLS, Outbox, Went, went_by};
use matchit::Router;
use mio::net::TcpStream;
use office_http::messages::{MOST_ROOM, Route, is_whole};
use run_http::{ClientResponse, RemainingRows};
use std::alloc::Global;
use std::io::Read;
use std::net::Shutdown;

/// The connection of an HTTP client, for one request and its response.
#[derive(Drop)]
pub(crate) struct Client {
    alloc: Global,
    pub(crate) stream: TcpStream,
    /// The bytes of the client's request that have arrived.
    pub(crate) request: Vec<u8>,
    /// Whether the client's socket may have unread input or room for output.
    pub(crate) ready: bool,
    /// The time in seconds until which the connection discards further input, after the response
    /// was written.
    pub(crate) lingers: Option<u64>,
    reply: Outbox,
    /// The rows for later chunks of the response, which the server has not queried yet.
    pub(crate) rows: Option<RemainingRows>,
    ended: bool,
    over: bool,
}

// Returns the part of the input `piece` that fits into the buffer of a request. A buffer of
// `MOST_ROOM` bytes suffices for any request.
fn fitting<'p>(request: &[u8], piece: &'p [u8]) -> &'p [u8] {
    let room = MOST_ROOM.saturating_sub(request.len());
    piece.get(..room).unwrap_or(piece)
}

impl Client {
    pub(crate) fn new(alloc: Global, stream: TcpStream) -> Client {
        Client {
            alloc,
            stream,
            request: Vec::new(alloc),
            ready: true,
            lingers: None,
            reply: Outbox::empty(alloc),
            rows: None,
            ended: false,
            over: false,
        }
    }

    /// Returns whether the client's connection has ended and can be dropped.
    pub(crate) fn is_over(&self) -> bool {
        self.over
    }

    /// Returns whether the client's request has a response, complete or in part.
    pub(crate) fn has_reply(&self) -> bool {
        !self.reply.is_empty() || self.rows.is_some() || self.lingers.is_some()
    }

    /// Returns whether the next chunk of the response is due: the earlier chunks were written, and
    /// rows of the response are left.
    pub(crate) fn wants_rows(&self) -> bool {
        !self.over && self.rows.is_some() && self.reply.is_written()
    }

    /// Returns how many bytes of the client's HTTP response are in memory.
    pub(crate) fn held_bytes(&self) -> usize {
        self.reply.len()
    }

    // Appends bytes that a client sent to its HTTP request. Drops the bytes if the request already
    // has a response.
    fn keep_piece(&mut self, piece: &[u8]) -> Went {
        if self.has_reply() {
            return Went::On;
        }
        match self
            .request
            .extend_from_slice(fitting(&self.request, piece))
        {
            Ok(()) => Went::On,
            Err(_) => Went::Over,
        }
    }

    // Reads at most 4,096 bytes from the client's socket.
    fn read(&mut self) -> Went {
        let mut room = [0u8; 4096];
        match self.stream.read(&mut room) {
            Ok(0) => Went::Over,
            Ok(count) => match room.get(..count) {
                Some(piece) => self.keep_piece(piece),
                None => Went::Over,
            },
            Err(error) => went_by(error.kind()),
        }
    }

    // Reads until the client's socket has no more input, at most 16 times.
    fn read_all(&mut self) -> Went {
        for _read in 0..MOST_CALLS {
            let went = self.read();
            if went != Went::On {
                return went;
            }
        }
        Went::On
    }

    // Returns whether the client's HTTP response is still being sent.
    fn is_replying(&self) -> bool {
        self.has_reply() && self.lingers.is_none()
    }

    /// Reads input from the client, and returns whether a response is due: the request is complete,
    /// or its head is invalid.
    pub(crate) fn read_request(&mut self, router: &Router<Route>) -> bool {
        if self.is_replying() {
            self.ready = false;
            return false;
        }
        let before = self.request.len();
        let went = self.read_all();
        self.ready = went == Went::On;
        self.ended = went == Went::Over;
        if before < self.request.len() && is_whole(router, &self.request) {
            return true;
        }
        self.over = self.ended;
        false
    }

    /// Starts to send the response. `rows` are the rows that the later chunks of the response
    /// contain. The bytes of the request are freed.
    pub(crate) fn start_reply(&mut self, asked: ClientResponse, rows: Option<RemainingRows>) {
        match asked {
            ClientResponse::Open => self.over = self.ended,
            ClientResponse::Replied(reply) => {
                self.over = reply.is_empty();
                self.reply = Outbox::new(reply);
                self.rows = rows;
                self.request = Vec::new(self.alloc);
            }
            ClientResponse::Failed => self.over = true,
        }
    }

    /// Replaces the written chunk of the client's HTTP response with the next chunk.
    pub(crate) fn append_rows(&mut self, more: Vec<u8>, is_last: bool) {
        self.reply = Outbox::new(more);
        if is_last {
            self.rows = None;
        }
    }

    /// Ends the client's HTTP connection before the response is complete, so that the client
    /// detects an incomplete body.
    pub(crate) fn cut_reply(&mut self) {
        self.over = true;
    }

    /// Writes as much of the response as the socket accepts, and shuts down the output after the
    /// complete response. Further input is discarded for a second or two. Closing a socket with
    /// unread input would reset the connection, and the client could lose the response.
    pub(crate) fn write_reply(&mut self, time: u64) {
        if self.over || self.lingers.is_some() || !self.has_reply() {
            return;
        }
        match self.reply.write_all(&self.stream) {
            Went::Waits => {}
            Went::Over => self.over = true,
            Went::On => self.close(time),
        }
    }

    // Shuts down the output of the client's socket if the HTTP response is complete.
    fn close(&mut self, time: u64) {
        self.ready = true;
        if self.reply.is_written() && self.rows.is_none() {
            self.over = self.stream.shutdown(Shutdown::Write).is_err();
            self.lingers = Some(time.saturating_add(2));
            self.reply = Outbox::empty(self.alloc);
        }
    }

    /// Returns whether the client's HTTP response is complete and the time for discarding further
    /// input has passed.
    pub(crate) fn is_done(&self, time: u64) -> bool {
        match self.lingers {
            Some(until) => until <= time,
            None => false,
        }
    }
}
