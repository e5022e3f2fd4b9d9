//! The polling session of one device over one connection.
ghost use Rattle.std.specs.Prelude.{◌≡◌, ℕ, ◌≤◌, ◌<◌, ◌↔◌, List, [], length};
ghost use Rattle.std.specs.Prelude.{Some, None, is_some, false, IsErr, OnOk};
ghost use Rattle.std.specs.Prelude.{OnErr, IfOk, IfSome};
ghost use Rattle.std.specs.Result.{result_err};
ghost use Rattle.std.specs.Borrow.{sem};
ghost use Rattle.std.specs.Io.BufRead.{Rests};
ghost use Rattle.mb_wire.specs.Reader.{spelled, fields_of};
ghost use Rattle.mb_wire.specs.Spans.{span_view};
ghost use Rattle.poll_core.specs.Settling.{Event, Start, Tick, Close, Silent};
ghost use Rattle.poll_core.specs.Settling.{answer};
ghost use Rattle.poll_core.specs.Steps.{reported_by, HasFrame, CanTell};
ghost use Rattle.poll_core.specs.Inside.{ReportsStep, ReportsTaken, reported_of};
ghost use Rattle.std.specs.Option.{option_map};
ghost use Rattle.poll_core.specs.Standing.{State, Stands, After};
ghost use Rattle.poll_core.specs.Starting.{start_fault, AsksFor, HasRoom, IsReady};
ghost use Rattle.poll_core.specs.Reporting.{LendsReply, IsCall, TakesEvent, TakesPiece, settled_of};
ghost use Rattle.poll_core.specs.contracts.session.Session.{the_row};

use crate::answers::{ClockBack, Ready, Settled, StartFault, Turn};
use crate::inner::{Inner, Step};
use crate::limits::{LAST_MOMENT, MAX_TIMEOUT, MAX_WINDOW};
use crate::outcome::{Call, Closing, LostCause, Malformation, Outcome};
use crate::poll::{PendingPoll, SettledBy, SettledPoll};
use crate::table::Table;
use mb_wire::{Frame, FrameReader, MAX_ADU, ReadSpan, Reply, decode_reply, one_reading};
use std::marker::Model;

/// The polls of one device over one connection. All times are whole seconds since 1970-01-01 UTC.
#[derive(Drop)]
pub struct Session {
    inner: Inner,
}

impl Model for Session {
    ghost use Rattle.poll_core.specs.Standing.{State};
    ghost use Rattle.poll_core.specs.Inside.{state_of, IsSound};

    ghost Value = { State };

    ghost view = { λ s. state_of s.inner };

    ghost invariant = { λ s. IsSound s.inner };
}

impl Session {
    /// Creates a polling session without events. Polls time out after `timeout` seconds, and at
    /// most `window` polls are pending at the same time.
    pub fn new(timeout: u64, window: usize) -> Self
        requires timeout_low { 1 ≤ timeout }
        requires timeout_high { timeout ≤ MAX_TIMEOUT }
        requires window_low { 1 ≤ window }
        requires window_high { window ≤ MAX_WINDOW }
        ensures stands { Stands result [] }
        ensures timeout { result.timeout ≡ timeout }
        ensures window { result.window ≡ window }
    {
        one_reading();
        Session {
            inner: Inner {
                reader: FrameReader::new(),
                timeout,
                window,
                last: 0,
                next: 0,
                polls: Table::new(),
                ending: None,
                settling: None,
            },
        }
    }

    /// Returns whether the last call of `next`, `tick` or `close` reported an outcome and must be
    /// repeated for further outcomes.
    pub fn settling(&self) -> bool
        ensures { result ≡ is_some self.now.settling }
    {
        self.inner.settling.is_some()
    }

    /// Returns the next transaction identifier, and the number of consecutive starts of polls that
    /// would succeed, at times not before the polling session's latest time.
    pub fn ready(&self) -> Ready
        ensures id { result.id ≡ self.now.next }
        ensures room { HasRoom self.now result.count }
        ensures few { result.count ≤ self.now.window }
        ensures ready { (events : List Event) → Stands self.now events
            → IsReady self.now.timeout self.now.window events result.id result.count }
    {
        Ready {
            id: self.inner.next,
            count: self.inner.room(),
        }
    }

    /// Starts a poll of a unit's registers, to be reported under the number `poll`. Writes the
    /// frame of the request to the front of `out`, and returns its length in bytes. The deadline is
    /// the time plus the timeout.
    pub fn start(
        &mut self,
        moment: u64,
        poll: u64,
        unit: u8,
        span: ReadSpan,
        out: &mut [u8; MAX_ADU],
    ) -> Result<usize, StartFault>
        requires limit { moment ≤ LAST_MOMENT }
        requires rests { self.old.settling ≡ None }
        ensures refused { (events : List Event) → Stands self.old events →
            result_err result ≡ start_fault self.old.timeout self.old.window events moment }
        ensures started { (events : List Event) → Stands self.old events →
            OnOk result (After self.new events (Start moment poll unit (span_view span)) [] None) }
        ensures terms { (self.new.timeout ≡ self.old.timeout)
            × (self.new.window ≡ self.old.window) }
        ensures rests { self.new.settling ≡ None }
        ensures last { OnOk result (self.new.last ≡ moment) }
        ensures size { IfOk result (λ n. n ≡ 12) }
        ensures written { IfOk result (AsksFor self.old.next unit (span_view span) out.new) }
        ensures err { OnErr result ((self.new ≡ self.old) × (out.new ≡ out.old)) }
    {
        self.inner.start(moment, poll, unit, span, out)
    }

    /// Processes received bytes of `piece`, up to the first outcome. Call `next` again with the
    /// remaining bytes until it returns no completed poll.
    pub fn next(&mut self, moment: u64, piece: &[u8]) -> Result<Turn<'_>, ClockBack>
        requires limit { moment ≤ LAST_MOMENT }
        requires call { IsCall Call.Piece self.old moment }
        ensures* after { sem 𝓛 (Rests the_row self.entry
            (TakesPiece self.old moment piece.now result)) }
        ensures back { IsErr result ↔ (moment < self.old.last) }
        ensures taken { IfOk result (λ turn. turn.taken ≤ length piece.now) }
        ensures all { IfOk result
            (λ turn. is_some turn.settled ≡ false → turn.taken ≡ length piece.now) }
        ensures reply { IfOk result (λ turn. IfSome turn.settled LendsReply) }
    {
        let step = self.advance(moment, piece)?;
        Ok(Turn {
            taken: step.taken,
            settled: report_any(step.settled, &self.inner.reader),
        })
    }

    fn advance(&mut self, moment: u64, piece: &[u8]) -> Result<Step, ClockBack>
        ensures err { OnErr result (self.new ≡ self.old) }
        ensures reported { IfOk result (ReportsStep self.old self.new moment piece.now) }
        ensures back { IsErr result ↔ (moment < self.old.last) }
        ensures buffered { IfOk result (λ step. CanTell step.settled self.new.reader.frame) }
        ensures taken { IfOk result (λ step. step.taken ≤ length piece.now) }
        ensures all { IfOk result
            (λ step. is_some step.settled ≡ false → step.taken ≡ length piece.now) }
    {
        if moment < self.inner.last {
            return Err(ClockBack);
        }
        Ok(self.inner.next(moment, piece))
    }

    /// Processes a timer event: no input arrived before the time `moment`. Call `tick` again until
    /// it returns no completed poll.
    pub fn tick(&mut self, moment: u64) -> Result<Option<Settled<'_>>, ClockBack>
        requires limit { moment ≤ LAST_MOMENT }
        requires call { IsCall Call.Tick self.old moment }
        ensures* after { sem 𝓛 (Rests the_row self.entry
            (TakesEvent self.old (Tick moment) result)) }
        ensures back { IsErr result ↔ (moment < self.old.last) }
        ensures reply { IfOk result (λ settled. IfSome settled LendsReply) }
    {
        let taken = self.tick_once(moment)?;
        Ok(report_any(taken, &self.inner.reader))
    }

    fn tick_once(&mut self, moment: u64) -> Result<Option<SettledPoll>, ClockBack>
        ensures err { OnErr result (self.new ≡ self.old) }
        ensures reported { IfOk result (ReportsTaken self.old self.new (Tick moment)) }
        ensures buffered { IfOk result (λ taken. CanTell taken self.new.reader.frame) }
        ensures back { IsErr result ↔ (moment < self.old.last) }
    {
        if moment < self.inner.last {
            return Err(ClockBack);
        }
        Ok(self.inner.tick(moment))
    }

    /// Ends the polling session because its connection ended. Call `close` again until it returns
    /// no completed poll.
    pub fn close(&mut self, moment: u64, closing: Closing) -> Result<Option<Settled<'_>>, ClockBack>
        requires limit { moment ≤ LAST_MOMENT }
        requires call { IsCall (Call.Close closing) self.old moment }
        ensures* after { sem 𝓛 (Rests the_row self.entry
            (TakesEvent self.old (Close moment closing) result)) }
        ensures back { IsErr result ↔ (moment < self.old.last) }
        ensures reply { IfOk result (λ settled. IfSome settled LendsReply) }
    {
        let taken = self.close_once(moment, closing)?;
        Ok(report_any(taken, &self.inner.reader))
    }

    fn close_once(
        &mut self,
        moment: u64,
        closing: Closing,
    ) -> Result<Option<SettledPoll>, ClockBack>
        ensures err { OnErr result (self.new ≡ self.old) }
        ensures reported { IfOk result (ReportsTaken self.old self.new (Close moment closing)) }
        ensures buffered { IfOk result (λ taken. CanTell taken self.new.reader.frame) }
        ensures back { IsErr result ↔ (moment < self.old.last) }
    {
        if moment < self.inner.last {
            return Err(ClockBack);
        }
        Ok(self.inner.close(moment, closing))
    }
}

// Returns the completed poll, if any, with its response, which is decoded from the frame in the
// polling session's frame reader.
fn report_any(taken: Option<SettledPoll>, reader: &FrameReader) -> Option<Settled<'_>>
    requires { CanTell taken reader.now.frame }
    ensures reported { option_map settled_of result ≡ reported_of taken reader.now.frame }
    ensures variant { is_some result ≡ is_some taken }
    ensures reply { IfSome result LendsReply }
{
    match taken {
        None => None,
        Some(taken) => Some(report_settled(taken, reader)),
    }
}

// Returns the completed poll with its response, which is decoded from the frame in the polling
// session's frame reader.
fn report_settled(settled: SettledPoll, reader: &FrameReader) -> Settled<'_>
    requires { HasFrame settled.by reader.now.frame }
    ensures reported { settled_of result ≡ reported_by settled reader.now.frame }
    ensures reply { LendsReply result }
{
    let poll = &settled.poll;
    match settled.by {
        SettledBy::Silence => silent(poll.number()),
        SettledBy::End(cause) => Settled {
            poll: poll.number(),
            outcome: Outcome::Lost(cause),
            reply: None,
        },
        SettledBy::Frame => {
            let Some(frame) = reader.frame() else {
                unreachable!()
            };
            answered(poll, frame)
        }
    }
}

fn silent<'a>(poll: u64) -> Settled<'a>
    ensures reported { settled_of result ≡ (poll, Silent) }
    ensures reply { LendsReply result }
{
    Settled {
        poll,
        outcome: Outcome::Silent,
        reply: None,
    }
}

// Decodes a frame that carries the poll's transaction identifier, and returns the poll with its
// outcome and response.
fn answered<'a>(poll: &PendingPoll, frame: Frame<'a>) -> Settled<'a>
    ensures reported { (bytes : List ℕ) → spelled frame.entry ≡ fields_of bytes
        → settled_of result ≡ (poll.now.number, answer poll.now bytes) }
    ensures reply { LendsReply result }
{
    let number = poll.number();
    if frame.unit != poll.unit() {
        return Settled {
            poll: number,
            outcome: Outcome::Malformed(Malformation::WrongUnit),
            reply: None,
        };
    }
    match decode_reply(&poll.request(), frame.pdu) {
        Ok(Reply::Exception(code)) => Settled {
            poll: number,
            outcome: Outcome::Exception(code),
            reply: None,
        },
        Ok(reply) => Settled {
            poll: number,
            outcome: Outcome::Answered,
            reply: Some(reply),
        },
        Err(fault) => Settled {
            poll: number,
            outcome: Outcome::Malformed(Malformation::from(fault)),
            reply: None,
        },
    }
}
