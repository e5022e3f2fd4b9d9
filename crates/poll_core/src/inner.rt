//! The private fields of a polling session, and the steps of the session's calls.
//!
//! Contracts of `Session` mention only a model of the polling session, and calls of `Session`
//! return borrowed frames. Contracts of the private steps mention the private fields, and no
//! private step returns a borrowed frame.
ghost use Rattle.std.specs.Prelude.{◌≡◌, ◌+◌, ◌≤◌, ◌<◌, List, length, take, is_some, true, false};
ghost use Rattle.std.specs.Prelude.{if◌then◌else◌, OnOk, OnErr, IfOk};
ghost use Rattle.std.specs.Result.{result_err};
ghost use Rattle.mb_wire.specs.Requests.{request_bytes};
ghost use Rattle.mb_wire.specs.Reader.{spelling};
ghost use Rattle.mb_wire.specs.Spans.{request_of, span_view};
ghost use Rattle.poll_core.specs.Starting.{start_fault, AsksFor, HasRoom};
ghost use Rattle.poll_core.specs.Steps.{CanTell};
ghost use Rattle.poll_core.specs.Settling.{Event, Start, Tick, Close};
ghost use Rattle.poll_core.specs.Standing.{Stands, TakesOn, StartsOn, StepsOn};
ghost use Rattle.poll_core.specs.Inside.{state_of, IsSound, reported_of, call_if, garbled_end};

use crate::answers::StartFault;
use crate::limits::LAST_MOMENT;
use crate::outcome::{Call, Closing, LostCause};
use crate::poll::{PendingPoll, SettledBy, SettledPoll};
use crate::table::{Found, Table, feed_until, free_ids, has_poll, take_owed};
use mb_wire::{FrameReader, MAX_ADU, MAX_PDU, ReadSpan, encode_request, one_reading, write_frame};

#[derive(Drop)]
pub struct Inner {
    pub reader: FrameReader,
    pub timeout: u64,
    pub window: usize,
    pub last: u64,
    pub next: u16,
    pub polls: Table,
    pub ending: Option<LostCause>,
    pub settling: Option<Call>,
}

/// The result of a polling session's step: the number of bytes that it consumed, and the poll that
/// it completed, if any.
#[derive(Drop)]
pub struct Step {
    pub taken: usize,
    pub settled: Option<SettledPoll>,
}

// Writes the frame that requests a span of registers, and returns the frame's length in bytes.
fn write_request(id: u16, unit: u8, span: ReadSpan, out: &mut [u8; MAX_ADU]) -> usize
    ensures size { result ≡ 12 }
    ensures written { take result out.new
        ≡ spelling id unit (request_bytes (request_of (span_view span))) }
{
    let mut pdu = [0; MAX_PDU];
    let count = encode_request(&span.request(), &mut pdu);
    write_frame(id, unit, &pdu[..count], out)
}

// Returns `call` if the call just reported a completed poll, because the caller must repeat the
// call for further polls. Returns `None` if it reported none, because the call is then complete.
fn call_while(taken: &Option<SettledPoll>, call: Call) -> Option<Call>
    ensures { result ≡ call_if taken.now call }
{
    match taken {
        Some(_) => Some(call),
        None => None,
    }
}

// Returns `Garbled` as the cause of the polling session's end if an invalid length field arrived,
// otherwise `None`.
fn ending_if(is_garbled: bool) -> Option<LostCause>
    ensures { result ≡ garbled_end is_garbled }
{
    if is_garbled {
        Some(LostCause::Garbled)
    } else {
        None
    }
}

// Returns the number of bytes that a call consumes: `taken` if the call reports an outcome, because
// the caller then passes the later bytes again. If the call reports no outcome, all bytes count as
// consumed.
fn taken_if(lost: &Option<SettledPoll>, taken: usize, all: usize) -> usize
    ensures { result ≡ (if is_some lost.now then taken else all) }
{
    if lost.is_some() { taken } else { all }
}

impl Inner {
    pub fn start(
        &mut self,
        moment: u64,
        poll: u64,
        unit: u8,
        span: ReadSpan,
        out: &mut [u8; MAX_ADU],
    ) -> Result<usize, StartFault>
        requires sound { IsSound self.old }
        requires limit { moment ≤ LAST_MOMENT }
        ensures sound { IsSound self.new }
        ensures refused { (events : List Event) → Stands (state_of self.old) events →
            result_err result ≡ start_fault self.old.timeout self.old.window events moment }
        ensures started { StartsOn result (state_of self.old) (state_of self.new)
            (Start moment poll unit (span_view span)) }
        ensures settling { self.new.settling ≡ self.old.settling }
        ensures last { OnOk result (self.new.last ≡ moment) }
        ensures terms { (self.new.timeout ≡ self.old.timeout)
            × (self.new.window ≡ self.old.window) }
        ensures size { IfOk result (λ n. n ≡ 12) }
        ensures written { IfOk result (AsksFor self.old.next unit (span_view span) out.new) }
        ensures err { OnErr result ((self.new ≡ self.old) × (out.new ≡ out.old)) }
    {
        if self.polls.len() >= self.window {
            return Err(StartFault::WindowFull);
        }
        if has_poll(self.polls.as_slice(), self.next) {
            return Err(StartFault::IdBusy);
        }
        if moment < self.last {
            return Err(StartFault::ClockBack);
        }
        if self.ending.is_some() {
            return Err(StartFault::Closed);
        }
        let size = write_request(self.next, unit, span, out);
        let deadline = moment + self.timeout;
        self.polls
            .push(PendingPoll::new(poll, self.next, unit, span, deadline));
        self.last = moment;
        self.next = self.next.wrapping_add(1);
        Ok(size)
    }

    /// Returns the number of polls that can be started one after another now, at times not before
    /// the session's latest time. The maximum of pending polls and the transaction identifiers in
    /// use limit this number.
    pub fn room(&self) -> usize
        requires { IsSound self.now }
        ensures few { result ≤ self.now.window }
        ensures room { HasRoom (state_of self.now) result }
    {
        if self.ending.is_some() {
            return 0;
        }
        let room = self.window - self.polls.len();
        free_ids(self.polls.as_slice(), self.next, room)
    }

    pub fn tick(&mut self, moment: u64) -> Option<SettledPoll>
        requires { IsSound self.old }
        ensures sound { IsSound self.new }
        ensures terms { (self.new.timeout ≡ self.old.timeout)
            × (self.new.window ≡ self.old.window) }
        ensures last { self.new.last ≡ moment }
        ensures settling { self.new.settling ≡ call_if result Call.Tick }
        ensures less { is_some result ≡ true
            → length self.new.polls.items < length self.old.polls.items }
        ensures reported { StepsOn (state_of self.old) (state_of self.new) (Tick moment)
            (reported_of result self.new.reader.frame) }
        ensures buffered { CanTell result self.new.reader.frame }
    {
        self.last = moment;
        let taken = take_owed(&mut self.polls, self.ending, moment);
        self.settling = call_while(&taken, Call::Tick);
        taken
    }

    pub fn close(&mut self, moment: u64, closing: Closing) -> Option<SettledPoll>
        requires { IsSound self.old }
        ensures sound { IsSound self.new }
        ensures terms { (self.new.timeout ≡ self.old.timeout)
            × (self.new.window ≡ self.old.window) }
        ensures last { self.new.last ≡ moment }
        ensures settling { self.new.settling ≡ call_if result (Call.Close closing) }
        ensures less { is_some result ≡ true
            → length self.new.polls.items < length self.old.polls.items }
        ensures reported { StepsOn (state_of self.old) (state_of self.new) (Close moment closing)
            (reported_of result self.new.reader.frame) }
        ensures buffered { CanTell result self.new.reader.frame }
    {
        self.last = moment;
        self.ending = self.ending.or(Some(LostCause::from(closing)));
        let taken = take_owed(&mut self.polls, self.ending, moment);
        self.settling = call_while(&taken, Call::Close(closing));
        taken
    }

    pub fn next(&mut self, moment: u64, piece: &[u8]) -> Step
        requires { IsSound self.old }
        ensures sound { IsSound self.new }
        ensures terms { (self.new.timeout ≡ self.old.timeout)
            × (self.new.window ≡ self.old.window) }
        ensures taken { result.taken ≤ length piece.now }
        ensures last { self.new.last ≡ moment }
        ensures settling { self.new.settling ≡ call_if result.settled Call.Piece }
        ensures less { is_some result.settled ≡ true
            → length self.new.polls.items < length self.old.polls.items }
        ensures all { is_some result.settled ≡ false → result.taken ≡ length piece.now }
        ensures reported { TakesOn (state_of self.old) (state_of self.new) moment
            (take result.taken piece.now) (reported_of result.settled self.new.reader.frame) }
        ensures buffered { CanTell result.settled self.new.reader.frame }
    {
        one_reading();
        self.last = moment;
        if let Some(taken) = take_owed(&mut self.polls, self.ending, moment) {
            self.settling = Some(Call::Piece);
            return Step {
                taken: 0,
                settled: Some(taken),
            };
        }
        if self.ending.is_some() {
            self.settling = None;
            return Step {
                taken: piece.len(),
                settled: None,
            };
        }
        let found = feed_until(&mut self.reader, &mut self.polls, piece);
        let Found {
            taken,
            is_garbled,
            poll,
        } = found;
        if let Some(poll) = poll {
            self.settling = Some(Call::Piece);
            return Step {
                taken,
                settled: Some(SettledPoll {
                    poll,
                    by: SettledBy::Frame,
                }),
            };
        }
        self.ending = ending_if(is_garbled);
        let lost = take_owed(&mut self.polls, self.ending, moment);
        self.settling = call_while(&lost, Call::Piece);
        let taken = taken_if(&lost, taken, piece.len());
        Step {
            taken,
            settled: lost,
        }
    }
}
