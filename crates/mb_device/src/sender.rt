//! Sends the responses of a connection, with injected faults.
ghost use Rattle.std.specs.Prelude.{◌≡◌, ◌≤◌, ◌++◌, length, take, false, is_err};
ghost use Rattle.std.specs.Io.KnownBytes.{Keeps};
ghost use Rattle.mb_wire.specs.Links.{Gives, risen};
ghost use Rattle.mb_device.specs.Tricks.{answer_of, begun, following, course_next, first_trick};
ghost use Rattle.mb_device.specs.Tricks.{is_cut, sent_next, sent_of, spelled_by, trick_at};

use crate::trick::Trick;
use mb_wire::{Link, LinkFailed, MAX_ADU, MAX_PDU, give_all, write_frame};
use std::marker::Model;

// Writes to the link (a byte connection) all bytes of the slice `first`, followed by all bytes of
// the slice `next`.
fn give_both<L: Link>(link: &mut L, first: &[u8], next: &[u8]) -> Result<(), LinkFailed>
    ensures given { Gives result (L.given link.old) (L.given link.new) (first.now ++ next.now) }
    ensures remaining { Keeps (L.remaining link.old) (L.remaining link.new) }
    ensures failures { L.failed link.new ≡ risen (is_err result) (L.failed link.old) }
    ensures takes { L.taken link.new ≡ L.taken link.old }
    ensures last { L.last link.new ≡ L.last link.old }
    ensures ends { L.ended link.new ≡ L.ended link.old }
{
    give_all(link, first)?;
    give_all(link, next)
}

// Sends the response to a frame as an injected fault changes it, followed by the delayed response
// to an earlier frame.
fn give_by<L: Link>(
    link: &mut L,
    trick: Option<Trick>,
    frame: &[u8],
    later: &[u8],
) -> Result<(), LinkFailed>
    ensures given { Gives result (L.given link.old) (L.given link.new)
        (sent_of trick frame.now later.now) }
    ensures remaining { Keeps (L.remaining link.old) (L.remaining link.new) }
    ensures failures { L.failed link.new ≡ risen (is_err result) (L.failed link.old) }
    ensures takes { L.taken link.new ≡ L.taken link.old }
    ensures last { L.last link.new ≡ L.last link.old }
    ensures ends { L.ended link.new ≡ L.ended link.old }
{
    match trick {
        None | Some(Trick::Id | Trick::Unit | Trick::Garble) => give_both(link, frame, later),
        Some(Trick::Drop | Trick::Later) => give_all(link, later),
        Some(Trick::Twice) => {
            give_all(link, frame)?;
            give_both(link, frame, later)
        }
        Some(Trick::Cut(count)) => give_all(link, &frame[..usize::from(count).min(frame.len())]),
    }
}

// Writes a frame whose length field is 0, and returns the number of bytes written.
fn write_without_length(tid: u16, unit: u8, pdu: &[u8], out: &mut [u8; MAX_ADU]) -> usize
    requires low { 1 ≤ length pdu.now }
    requires high { length pdu.now ≤ MAX_PDU }
    ensures few { result ≤ MAX_ADU }
    ensures written { take result out.new ≡
        spelled_by (Some Trick.Garble) (answer_of tid unit pdu.now) }
{
    let end = write_frame(tid, unit, pdu, out);
    out[4] = 0;
    out[5] = 0;
    end
}

// Writes the frame of a response, with the header as an injected fault changes it. Returns the
// number of bytes written.
fn write_by(trick: Option<Trick>, tid: u16, unit: u8, pdu: &[u8], out: &mut [u8; MAX_ADU]) -> usize
    requires low { 1 ≤ length pdu.now }
    requires high { length pdu.now ≤ MAX_PDU }
    ensures few { result ≤ MAX_ADU }
    ensures written { take result out.new ≡ spelled_by trick (answer_of tid unit pdu.now) }
{
    match trick {
        None | Some(Trick::Drop | Trick::Twice | Trick::Later | Trick::Cut(_)) => {
            write_frame(tid, unit, pdu, out)
        }
        Some(Trick::Id) => write_frame(tid.wrapping_add(1), unit, pdu, out),
        Some(Trick::Unit) => write_frame(tid, unit.wrapping_add(1), pdu, out),
        Some(Trick::Garble) => write_without_length(tid, unit, pdu, out),
    }
}

// Returns the first injected fault in the list that applies to this frame number, or `None`.
fn find_first(tricks: &[(u64, Trick)], number: u64) -> Option<Trick>
    ensures { result ≡ first_trick tricks.now number }
{
    tricks
        .iter()
        .find(|trick| trick.0 == number)
        .map(|trick| trick.1)
}

// Returns the fault injected at this frame number, or `None`. There is no fault from frame 2^64 - 1
// on.
#[tactic(auto, unfolding(crate::specs::Tricks::trick_at))]
fn find_trick(tricks: &[(u64, Trick)], number: u64) -> Option<Trick>
    ensures { result ≡ trick_at tricks.now number }
{
    if number == u64::MAX {
        return None;
    }
    find_first(tricks, number)
}

// Sends the responses of a connection, each changed by the fault injected at its frame number.
#[derive(Drop)]
pub(crate) struct Sender<'t> {
    tricks: &'t [(u64, Trick)],
    // The number of the next frame on the connection, counted from 1.
    next: u64,
    // A response that is sent later: the first `len` bytes of `later`. If `len` is 0, no response
    // is delayed.
    later: [u8; MAX_ADU],
    len: usize,
    is_cut: bool,
}

impl<'t> Model for Sender<'t> {
    ghost use Rattle.std.specs.Prelude.{take, ◌≤◌};
    ghost use Rattle.mb_device.specs.Tricks.{Course, course_in};
    ghost use Rattle.mb_wire.specs.declared.limits.TheConstants.{MAX_ADU};

    ghost Value = { Course };

    ghost view = { λ s. course_in s.is_cut s.tricks.now s.next (take s.len s.later) };

    ghost invariant = { λ s. s.len ≤ MAX_ADU };
}

impl<'t> Sender<'t> {
    pub(crate) fn new(tricks: &'t [(u64, Trick)]) -> Self
        ensures { result ≡ begun tricks.now }
    {
        Sender {
            tricks,
            next: 1,
            later: [0; MAX_ADU],
            len: 0,
            is_cut: false,
        }
    }

    // Returns whether an injected fault closed the connection.
    pub(crate) fn is_cut(&self) -> bool
        ensures { result ≡ is_cut self.now }
    {
        self.is_cut
    }

    // Advances the sender past a frame: increases the frame number, and updates the delayed
    // response or closes the connection as the fault requires. `trick` is the fault injected in
    // this frame, and `frame` has the response.
    fn advance_frame(&mut self, trick: Option<Trick>, frame: [u8; MAX_ADU], end: usize)
        requires { end ≤ MAX_ADU }
        ensures { self.new ≡ following trick (take end frame) self.old }
    {
        self.next = self.next.saturating_add(1);
        match trick {
            None | Some(Trick::Drop | Trick::Twice | Trick::Id | Trick::Unit | Trick::Garble) =>
                self.len = 0,
            Some(Trick::Later) => {
                self.later = frame;
                self.len = end;
            }
            Some(Trick::Cut(_)) => self.is_cut = true,
        }
    }

    // Sends the next response, changed by the fault injected at its frame number.
    pub(crate) fn send<L: Link>(
        &mut self,
        link: &mut L,
        tid: u16,
        unit: u8,
        pdu: &[u8],
    ) -> Result<(), LinkFailed>
        requires going { is_cut self.old ≡ false }
        requires low { 1 ≤ length pdu.now }
        requires high { length pdu.now ≤ MAX_PDU }
        ensures given { Gives result (L.given link.old) (L.given link.new)
            (sent_next self.old (answer_of tid unit pdu.now)) }
        ensures after { self.new ≡ course_next self.old (answer_of tid unit pdu.now) }
        ensures remaining { Keeps (L.remaining link.old) (L.remaining link.new) }
        ensures failures { L.failed link.new ≡ risen (is_err result) (L.failed link.old) }
        ensures takes { L.taken link.new ≡ L.taken link.old }
        ensures last { L.last link.new ≡ L.last link.old }
        ensures ends { L.ended link.new ≡ L.ended link.old }
    {
        let trick = find_trick(self.tricks, self.next);
        let mut frame = [0; MAX_ADU];
        let end = write_by(trick, tid, unit, pdu, &mut frame);
        let given = give_by(link, trick, &frame[..end], &self.later[..self.len]);
        self.advance_frame(trick, frame, end);
        given
    }
}
