//! The devices of a run of `sunreg run`, with their connections and polling rounds. A polling round
//! makes one poll for each Modbus read of a device.
ghost use Rattle.std.specs.Prelude.{ℕ, List, Result};
ghost use Rattle.office_events.specs.declared.answers.Answer.{Answer};
ghost use Rattle.office_events.specs.declared.events.Event.TheVariants as event;
ghost use Rattle.office_events.specs.declared.refusals.Refusal.{Refusal};
ghost use Rattle.office_books.specs.Refusals.{with_answer};
ghost use Rattle.office_core.specs.Standing.{After, Stands};
ghost use Rattle.office_running.specs.Runs.{Goes};

use crate::devices::{Seen, Slot};
use crate::http::Now;
use crate::settings::Site;
use crate::voice::{Standing, Voice};
use mio::{Registry, Token};
use office_books::Books;
use office_core::Office;
use office_events::{Answer, Event, Name, Note, Observer, Piece, Refusal};
use office_program::{DeviceEvent, Round, Stage, turn};
use poll_core::Closing;
use run_schedule::Phase;
use std::alloc::{AllocError, Global};
use std::net::Net;

/// The maximum number of chunks that are read from a device at the end of one pass of the event
/// loop. The responses to all Modbus requests in progress always fit in fewer chunks.
const MOST_PIECES: u32 = 64;

// After an event with bytes from a device was processed, passes the event engine's answer to the
// device's polling round. Passes notifications of ended polls and of readings to the polling rounds
// of all devices.
//
// The device's polling round gets the event engine's answer only while the round waits for
// responses. A round that is about to start reads would take this answer for the answer to its
// start command.
fn pass_answer_to_rounds(
    rounds: &mut [Round],
    place: usize,
    answer: Result<Answer, Refusal>,
    notes: &[Note],
) {
    if place < rounds.len() && rounds[place].stage == Stage::Waiting {
        rounds[place].answer(answer);
    }
    for round in rounds.iter_mut() {
        round.apply_notes(notes);
    }
}

/// The devices that one run of the event loop polls: the connection of each device and the state of
/// its polling round.
#[derive(Drop)]
pub(crate) struct Polling {
    every: u64,
    slots: Vec<Slot>,
    rounds: Vec<Round>,
}

impl Polling {
    /// Creates the states of all devices that one run of the event loop polls. Each device waits
    /// for its first polling round until the next multiple of `every` seconds.
    pub(crate) fn new(
        alloc: Global,
        sites: &[Site],
        every: u64,
        time: u64,
    ) -> Result<Polling, AllocError> {
        let mut slots = Vec::new(alloc);
        let mut rounds = Vec::new(alloc);
        for site in sites {
            slots.push(Slot::new(alloc, *site, every, time))?;
            rounds.push(Round::new(site.name))?;
        }
        Ok(Polling {
            every,
            slots,
            rounds,
        })
    }

    /// Returns the number of devices that the run polls.
    pub(crate) fn count(&self) -> usize {
        self.slots.len()
    }

    /// Marks the connection to the device with this index as ready: bytes may have arrived, or the
    /// connection may have been established or ended.
    pub(crate) fn mark(&mut self, place: usize) {
        if place < self.slots.len() {
            self.slots[place].ready = true;
        }
    }

    /// Returns whether any device's connection is marked as ready.
    pub(crate) fn is_ready(&self) -> bool {
        self.slots.iter().any(|slot| slot.ready)
    }

    // Closes the connection to a device after a failure to connect. Prints that the device is
    // unreachable, unless this was already its state.
    fn fail(&mut self, place: usize, voice: &mut Voice, now: Now) {
        if place < self.slots.len() {
            let every = self.every;
            let slot = &mut self.slots[place];
            let before = slot.standing;
            slot.fail(every, now.time);
            slot.standing = Standing::Unreachable;
            let name = slot.site.name;
            voice.report_state(now.moment, &name, before, Standing::Unreachable);
        }
    }

    // Begins to connect to the device with this index, if its next polling round is due.
    fn begin<R: Net>(
        &mut self,
        rt: &R,
        registry: &Registry,
        first: usize,
        place: usize,
        voice: &mut Voice,
        now: Now,
    ) {
        if place < self.slots.len() && self.slots[place].timing.is_due(now.time) {
            let token = Token(first.saturating_add(place));
            let works = self.slots[place].begin(rt, registry, token, now.time);
            if !works {
                self.fail(place, voice, now);
            }
        }
    }

    /// Begins to connect to each device whose next polling round is due. The socket token of the
    /// first device is `first`.
    pub(crate) fn begin_all<R: Net>(
        &mut self,
        rt: &R,
        registry: &Registry,
        first: usize,
        voice: &mut Voice,
        now: Now,
    ) {
        for place in 0..self.slots.len() {
            self.begin(rt, registry, first, place, voice, now);
        }
    }

    // Prints the outcome of the completed polling round of a device, and closes the connection.
    fn finish(&mut self, place: usize, voice: &mut Voice, now: Now) {
        if place < self.slots.len() && place < self.rounds.len() {
            let sum = self.rounds[place].sum;
            let every = self.every;
            let slot = &mut self.slots[place];
            let name = slot.site.name;
            slot.standing = voice.report_round(now.moment, &name, slot.standing, sum);
            slot.rest(every, now.time);
        }
    }

    // Sends the Modbus requests that are queued for a device. If the device's polling round is
    // over, closes the connection instead.
    fn settle(&mut self, place: usize, voice: &mut Voice, now: Now) {
        if place < self.slots.len() && place < self.rounds.len() {
            if self.slots[place].timing.phase != Phase::Polling {
                return;
            }
            if self.rounds[place].stage == Stage::Off {
                self.finish(place, voice, now);
            } else {
                let frames = voice.monitor.take_outgoing(place);
                self.slots[place].send_more(&frames);
            }
        }
    }

    fn settle_all(&mut self, voice: &mut Voice, now: Now) {
        for place in 0..self.slots.len() {
            self.settle(place, voice, now);
        }
    }

    /// Processes a device event, and then each event that the polling rounds generate in
    /// consequence. Sends the resulting Modbus requests to the devices.
    pub(crate) fn feed<B: Books>(
        &mut self,
        device_event: DeviceEvent,
        office: &mut Office<B>,
        voice: &mut Voice,
        now: Now,
    )
        ensures { (names : List (List ℕ))
            → Goes names now.moment B.ledger office.old office.new }
    {
        turn(&mut self.rounds, device_event, office, now.moment, voice);
        self.settle_all(voice, now);
    }

    // Handles the result `seen` of checking a pending connection. Begins the polling round if the
    // connection is established, or closes the connection if it failed. Returns the event to
    // process, if any.
    fn joined(
        &mut self,
        place: usize,
        seen: &Seen,
        voice: &mut Voice,
        now: Now,
    ) -> Option<DeviceEvent> {
        match seen {
            Seen::Nothing => None,
            Seen::Stands => {
                if place < self.slots.len() {
                    let every = self.every;
                    self.slots[place].timing.begin_round(every, now.time);
                }
                Some(DeviceEvent::Connected(place))
            }
            _ => {
                self.fail(place, voice, now);
                None
            }
        }
    }

    // Checks whether the connection to a device has bytes, was established, or has ended. Returns
    // the event to process, if any.
    fn look(&mut self, place: usize, voice: &mut Voice, now: Now) -> Option<DeviceEvent> {
        if place >= self.slots.len() {
            return None;
        }
        let phase = self.slots[place].timing.phase;
        let seen = self.slots[place].look();
        if phase == Phase::Connecting {
            return self.joined(place, &seen, voice, now);
        }
        match seen {
            Seen::Nothing | Seen::Stands => None,
            Seen::Bytes(bytes) => Some(DeviceEvent::Received(place, Piece::new(bytes))),
            Seen::Closed => Some(DeviceEvent::Closed(place, Closing::Gone)),
            Seen::Failed => Some(DeviceEvent::Closed(place, Closing::Failed)),
        }
    }

    // Handles a device that took too long to connect or to complete its polling round. Returns the
    // event to process, if any.
    fn expire(&mut self, place: usize, voice: &mut Voice, now: Now) -> Option<DeviceEvent> {
        if place < self.slots.len() && self.slots[place].timing.phase == Phase::Connecting {
            self.fail(place, voice, now);
            return None;
        }
        Some(DeviceEvent::Closed(place, Closing::Failed))
    }

    // Returns the next event of the device with this index, if any.
    fn device_event(&mut self, place: usize, voice: &mut Voice, now: Now) -> Option<DeviceEvent> {
        if place >= self.slots.len() {
            return None;
        }
        if self.slots[place].timing.is_over(now.time) {
            return self.expire(place, voice, now);
        }
        if self.slots[place].ready {
            return self.look(place, voice, now);
        }
        None
    }

    // Returns the name of the device with this index, if its polling round waits for responses or
    // is about to start more reads. The inner `None` is a device without a valid name.
    fn waiting_at(&self, place: usize) -> Option<Option<Name>> {
        if place >= self.rounds.len() {
            return None;
        }
        match self.rounds[place].stage {
            Stage::Waiting | Stage::Starting => Some(self.rounds[place].device),
            Stage::Off | Stage::Joining | Stage::Leaving(_) => None,
        }
    }

    /// Marks the connection of a device with unanswered requests as ready, even if the system has
    /// not reported that its socket is readable. A response that has just arrived is then read too.
    pub(crate) fn mark_waiting(&mut self, place: usize) {
        if self.waiting_at(place).is_some() {
            self.mark(place);
        }
    }

    // Reads at most one chunk from a device with unanswered requests. Returns the device's name and
    // the bytes.
    fn listen(&mut self, place: usize) -> Option<(Option<Name>, Vec<u8>)> {
        let device = self.waiting_at(place)?;
        if place >= self.slots.len() {
            return None;
        }
        let bytes = self.slots[place].listen()?;
        Some((device, bytes))
    }

    // Processes the bytes of one device, at the end of a pass of the event loop.
    //
    // From these bytes, the device's polling round may generate further events. They are processed
    // only in the next pass of the event loop. A read that started with the timestamp of this pass
    // would have a shorter timeout.
    fn hear<B: Books>(
        &mut self,
        place: usize,
        device: Option<Name>,
        bytes: Vec<u8>,
        office: &mut Office<B>,
        voice: &mut Voice,
        now: Now,
    )
        ensures goes { (names : List (List ℕ))
            → Goes names now.moment B.ledger office.old office.new }
        ensures fed { After B.ledger office.old office.new (λ past. (answer : Result Answer Refusal)
            × Stands B.ledger (with_answer past now.moment (event.Bytes device bytes.items) answer)
            office.new) }
    {
        let event = Event::Bytes(device, Piece::new(bytes));
        let answer = office.feed(now.moment, &event);
        let notes = office.notes();
        pass_answer_to_rounds(&mut self.rounds, place, answer, notes);
        voice.observe(
            Some(place),
            now.moment,
            &event,
            answer,
            notes,
            office.outgoing(),
        );
    }

    // Processes at most one chunk of bytes from a device with unanswered requests. Returns true if
    // there was no chunk.
    #[tactic(auto, using(crate::proofs::Going::goes_none))]
    fn hear_piece<B: Books>(
        &mut self,
        place: usize,
        office: &mut Office<B>,
        voice: &mut Voice,
        now: Now,
    ) -> bool
        ensures { (names : List (List ℕ))
            → Goes names now.moment B.ledger office.old office.new }
    {
        match self.listen(place) {
            Some((device, bytes)) => {
                self.hear(place, device, bytes, office, voice, now);
                false
            }
            None => true,
        }
    }

    /// Processes the bytes that have arrived from a device with unanswered requests, with the
    /// timestamp of the present pass of the event loop. The bytes therefore count as received
    /// before the next timer event.
    pub(crate) fn hear_device<B: Books>(
        &mut self,
        place: usize,
        office: &mut Office<B>,
        voice: &mut Voice,
        now: Now,
    )
        ensures { (names : List (List ℕ))
            → Goes names now.moment B.ledger office.old office.new }
    {
        for _piece in 0..MOST_PIECES {
            let is_over = self.hear_piece(place, office, voice, now);
            if is_over {
                return;
            }
        }
    }

    /// Processes the next event of the device with this index, reading at most one chunk of bytes.
    /// Returns whether the device had an event.
    #[tactic(auto, using(crate::proofs::Going::goes_none, crate::proofs::Going::goes_both))]
    pub(crate) fn attend<B: Books>(
        &mut self,
        place: usize,
        office: &mut Office<B>,
        voice: &mut Voice,
        now: Now,
    ) -> bool
        ensures { (names : List (List ℕ))
            → Goes names now.moment B.ledger office.old office.new }
    {
        match self.device_event(place, voice, now) {
            Some(device_event) => {
                self.feed(device_event, office, voice, now);
                true
            }
            None => false,
        }
    }
}
