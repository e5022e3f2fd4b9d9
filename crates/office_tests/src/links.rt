//! Links (connections to devices) on which each read times out, and the responses of a test device.
use mb_wire::{LastTake, Link, LinkFailed, Took};
use std::alloc::Global;
use std::process::Abort;

/// The response of the test device to the second read of its point list: one Modbus register with
/// the value 7.
pub(crate) const SECOND_REPLY: &[u8] = b"\x00\x01\x00\x00\x00\x05\x01\x03\x02\x00\x07";

/// Returns the response of the test device to the first read of its point list: 125 Modbus
/// registers with the value 0.
pub(crate) fn first_reply(rt: &impl Abort, alloc: Global) -> Vec<u8> {
    let mut bytes = b"\x00\x00\x00\x00\x00\xfd\x01\x03\xfa"
        .to_vec(alloc)
        .expect(rt, "memory");
    bytes.extend_from_slice(&[0; 250]).expect(rt, "memory");
    bytes
}

/// Returns the responses of the test device to both reads of its point list.
pub(crate) fn replies(rt: &impl Abort, alloc: Global) -> Vec<u8> {
    let mut bytes = first_reply(rt, alloc);
    bytes.extend_from_slice(SECOND_REPLY).expect(rt, "memory");
    bytes
}

/// A link (a connection to a device) that accepts all writes, and on which each read times out.
#[derive(Drop)]
pub(crate) struct IdleLink {
    takes: u64,
    last: Option<LastTake>,
}

impl IdleLink {
    pub(crate) fn new() -> IdleLink {
        IdleLink {
            takes: 0,
            last: None,
        }
    }
}

impl Link for IdleLink {
    ghost failed = { λ link. 0 };

    ghost taken = { λ link. link.takes };

    ghost ended = { λ link. 0 };

    ghost last = { λ link. link.last };

    fn take(&mut self, piece: &mut [u8]) -> Result<Took, LinkFailed> {
        self.takes = self.takes.saturating_add(1);
        self.last = Some(LastTake {
            room: piece.len(),
            answer: Ok(Took::Idle),
        });
        Ok(Took::Idle)
    }

    fn give(&mut self, bytes: &[u8]) -> Result<usize, LinkFailed> {
        Ok(bytes.len())
    }

    fn failures(&self) -> u64 {
        0
    }

    fn takes(&self) -> u64 {
        self.takes
    }

    fn last_take(&self) -> Option<LastTake> {
        self.last
    }
}
