//! The TCP connections to devices.
ghost use Rattle.std.specs.Prelude.{◌≤◌, ◌<◌, ◌^◌};

use crate::http::{Outbox, Went, went_by};
use crate::settings::Site;
use crate::voice::Standing;
use mio::net::TcpStream;
use mio::{Interest, Registry, Token};
use poll_core::Closing;
use run_schedule::{MOST_EVERY, Phase, Timing};
use std::alloc::Global;
use std::io::Read;
use std::net::Net;

/// What the program found when it checked the connection to a device.
#[derive(Drop)]
pub(crate) enum Seen {
    /// Nothing has happened on the connection to the device since the previous check.
    Nothing,
    /// The connection to the device is established.
    Stands,
    /// Bytes arrived from the device.
    Bytes(Vec<u8>),
    /// The device closed the connection.
    Closed,
    /// The connection to the device failed.
    Failed,
}

/// A device: its connection, its unsent bytes, and the time of its next polling round.
#[derive(Drop)]
pub(crate) struct Slot {
    pub(crate) site: Site,
    pub(crate) timing: Timing,
    /// Whether the connection must be checked: bytes may have arrived, or it may have been
    /// established or ended.
    pub(crate) ready: bool,
    pub(crate) standing: Standing,
    alloc: Global,
    stream: Option<TcpStream>,
    unsent: Outbox,
    /// How the connection to the device ended, if the method `listen` (which reads from the
    /// connection) found its end. The next check of the connection reports that end.
    ended: Option<Closing>,
}

// Returns whether a new connection is established; `None` if it is still pending.
fn is_connected(stream: &TcpStream) -> Option<bool> {
    match stream.take_error() {
        Ok(None) => {}
        _ => return Some(false),
    }
    if stream.peer_addr().is_err() {
        return None;
    }
    Some(true)
}

// Returns the time between polling rounds, limited to the range from 1 to 86,400 seconds.
fn spacing(every: u64) -> u64
    ensures some { 0 < result }
    ensures few { result ≤ 86400 }
{
    every.max(1).min(MOST_EVERY)
}

// Returns `time`, in seconds, limited so that adding the time between polling rounds cannot
// overflow.
fn bounded(time: u64) -> u64
    ensures { result ≤ 2 ^ 62 }
{
    time.min(1 << 62)
}

impl Slot {
    /// Creates a device that waits for its first polling round until the next multiple of `every`
    /// seconds.
    pub(crate) fn new(alloc: Global, site: Site, every: u64, now: u64) -> Slot {
        Slot {
            site,
            timing: Timing::new(spacing(every), bounded(now)),
            ready: false,
            standing: Standing::Unknown,
            alloc,
            stream: None,
            unsent: Outbox::empty(alloc),
            ended: None,
        }
    }

    // Begins to connect to the device. Returns false if the attempt failed at once.
    fn connect<R: Net>(&mut self, rt: &R, registry: &Registry, token: Token) -> bool {
        let Ok(mut stream) = TcpStream::connect(rt, self.site.addr) else {
            return false;
        };
        let both = Interest::READABLE | Interest::WRITABLE;
        if registry.register(&mut stream, token, both).is_err() {
            return false;
        }
        let _ = stream.set_nodelay(true);
        self.stream = Some(stream);
        true
    }

    /// Begins to connect to the device, and starts the time limit for connecting at `time`. Returns
    /// false if the attempt failed at once.
    pub(crate) fn begin<R: Net>(
        &mut self,
        rt: &R,
        registry: &Registry,
        token: Token,
        time: u64,
    ) -> bool {
        self.unsent = Outbox::empty(self.alloc);
        self.ended = None;
        self.timing.begin(time);
        self.connect(rt, registry, token)
    }

    // Closes the connection to the device.
    fn close(&mut self) {
        self.stream = None;
        self.unsent = Outbox::empty(self.alloc);
        self.ended = None;
        self.ready = false;
    }

    /// Ends a polling round: closes the connection to the device, which then waits until its next
    /// polling round is due.
    pub(crate) fn rest(&mut self, every: u64, time: u64) {
        self.close();
        self.timing.rest(spacing(every), bounded(time));
    }

    /// Closes the connection after a failure to connect. The pause before the next attempt grows
    /// with each failure.
    pub(crate) fn fail(&mut self, every: u64, time: u64) {
        self.close();
        self.timing.fail(spacing(every), bounded(time));
    }

    // Checks whether the new connection to the device is established, is still pending or has
    // failed.
    fn connection(&self) -> Seen {
        match &self.stream {
            Some(stream) => match is_connected(stream) {
                Some(true) => Seen::Stands,
                Some(false) => Seen::Failed,
                None => Seen::Nothing,
            },
            None => Seen::Failed,
        }
    }

    // Returns the result of a check of the connection: the bytes that arrived from the device. If
    // memory for a copy of the bytes runs out, the connection counts as failed.
    fn piece(&self, bytes: &[u8]) -> Seen {
        match bytes.to_vec(self.alloc) {
            Ok(bytes) => Seen::Bytes(bytes),
            Err(_) => Seen::Failed,
        }
    }

    // Reads the bytes that arrived from the device, at most one chunk.
    fn read_bytes(&self) -> Seen {
        let mut room = [0u8; 260];
        let got = match &self.stream {
            Some(stream) => {
                let mut stream: &TcpStream = stream;
                stream.read(&mut room)
            }
            None => return Seen::Failed,
        };
        match got {
            Ok(0) => Seen::Closed,
            Ok(count) => match room.get(..count) {
                Some(piece) => self.piece(piece),
                None => Seen::Failed,
            },
            Err(error) => match went_by(error.kind()) {
                Went::Over => Seen::Failed,
                Went::On | Went::Waits => Seen::Nothing,
            },
        }
    }

    // Sends as many of the bytes that wait for the device as the socket accepts. Returns whether
    // the connection still works.
    fn send(&mut self) -> bool {
        match &self.stream {
            Some(stream) => self.unsent.write_all(stream) != Went::Over,
            None => false,
        }
    }

    /// Queues frames after the unsent bytes, and sends as much as the socket accepts. If sending
    /// fails, the next check of the connection reports the failure.
    pub(crate) fn send_more(&mut self, frames: &[u8]) {
        let done = self.unsent.push_bytes(frames);
        if done.is_err() || !self.send() {
            self.ready = true;
        }
    }

    // Checks whether bytes arrived from the device, or the connection to it was established or has
    // ended. Also sends unsent bytes.
    fn see(&mut self) -> Seen {
        match self.ended {
            Some(Closing::Gone) => return Seen::Closed,
            Some(Closing::Failed) => return Seen::Failed,
            None => {}
        }
        match self.timing.phase {
            Phase::Resting => Seen::Nothing,
            Phase::Connecting => self.connection(),
            Phase::Polling => {
                if self.send() {
                    self.read_bytes()
                } else {
                    Seen::Failed
                }
            }
        }
    }

    /// Checks whether bytes arrived from the device, or the connection to it was established or has
    /// ended. If bytes arrived or the connection was established, the device stays marked as ready,
    /// because more bytes may follow.
    pub(crate) fn look(&mut self) -> Seen {
        let seen = self.see();
        self.ready = matches!(seen, Seen::Stands | Seen::Bytes(_));
        seen
    }

    /// Returns at most one chunk of bytes from a device that is being polled. If the connection has
    /// ended, the next check of the connection reports the end.
    pub(crate) fn listen(&mut self) -> Option<Vec<u8>> {
        if !self.ready || self.timing.phase != Phase::Polling {
            return None;
        }
        match self.look() {
            Seen::Bytes(bytes) => return Some(bytes),
            Seen::Closed => self.ended = Some(Closing::Gone),
            Seen::Failed => self.ended = Some(Closing::Failed),
            Seen::Nothing | Seen::Stands => return None,
        }
        self.ready = true;
        None
    }
}
