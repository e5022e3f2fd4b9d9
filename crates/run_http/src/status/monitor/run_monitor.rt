//! Records the program's events for `/status` and log lines, and queues the Modbus frames to send
//! to devices.
use crate::status::monitor::device_state::{followed, unconnected};
use crate::status::monitor::output::write_frames;
use crate::status::status::{Counts, DeviceState};
use office_events::{Answer, Event, Name, Note, Observer, Refusal};
use std::alloc::{AllocError, Global};
use std::mem;

/// A record of the program's events: counts, the state of each device, and the Modbus frames to
/// send.
#[derive(Drop)]
pub struct RunMonitor {
    alloc: Global,
    pub counts: Counts,
    /// The state of each device, indexed like the list of the devices.
    pub states: Vec<DeviceState>,
    /// The bytes to send to each device, indexed like the list of the devices.
    pub outgoing: Vec<Vec<u8>>,
}

impl RunMonitor {
    ghost use Rattle.std.specs.Prelude.{◌≡◌, [], IfOk, map, slice_set};
    ghost use Rattle.run_http.specs.Status.Status.Counts.{nothing};
    ghost use Rattle.run_http.specs.Status.Monitor.Output.{IsSentTo, queues_of, taken_at};
    ghost use Rattle.run_http.specs.Status.Monitor.Watching.{unconnected};

    /// Makes a record of events for devices with these names. No device is connected, and all
    /// counts are 0.
    pub fn new(alloc: Global, names: &[Option<Name>]) -> Result<RunMonitor, AllocError>
        ensures counts { IfOk result (λ monitor. monitor.counts ≡ nothing) }
        ensures states { IfOk result (λ monitor. monitor.states.items ≡ map unconnected names.now) }
        ensures outgoing { IfOk result (λ monitor. queues_of monitor ≡ map (λ name. []) names.now) }
    {
        let mut states = Vec::new(alloc);
        let mut outgoing = Vec::new(alloc);
        for name in names {
            states.push(unconnected(*name))?;
            outgoing.push(Vec::new(alloc))?;
        }
        Ok(RunMonitor {
            alloc,
            counts: Counts::new(),
            states,
            outgoing,
        })
    }

    /// Removes and returns the bytes to send to the device with this index, in order. Frames for
    /// which memory ran out are missing, and their polls time out.
    #[tactic(auto, using(crate::proofs::StatusLemmas::MonitorLemmas::Queues::taken_there, crate::proofs::StatusLemmas::MonitorLemmas::Queues::taken_nowhere))]
    pub fn take_outgoing(&mut self, place: usize) -> Vec<u8>
        ensures taken { result.items ≡ taken_at place (queues_of self.old) }
        ensures left { queues_of self.new ≡ slice_set (queues_of self.old) place [] }
        ensures counts { self.new.counts ≡ self.old.counts }
        ensures states { self.new.states ≡ self.old.states }
    {
        if place < self.outgoing.len() {
            return mem::replace(&mut self.outgoing[place], Vec::new(self.alloc));
        }
        Vec::new(self.alloc)
    }

    // Queues the Modbus frames of an event for the device with this index.
    #[tactic(auto, using(crate::proofs::StatusLemmas::MonitorLemmas::Queues::sent_at, crate::proofs::StatusLemmas::MonitorLemmas::Queues::sent_nowhere))]
    fn send(&mut self, place: usize, event: &Event, frames: &[u8])
        ensures counts { self.new.counts ≡ self.old.counts }
        ensures states { self.new.states ≡ self.old.states }
        ensures outgoing { IsSentTo place event.now frames.now (queues_of self.old)
            (queues_of self.new) }
    {
        if place < self.outgoing.len() {
            write_frames(&mut self.outgoing[place], event, frames);
        }
    }
}

impl RunMonitor {
    ghost use Rattle.std.specs.Prelude.{◌≡◌};
    ghost use Rattle.run_http.specs.Status.Monitor.Watching.{counted, followed_at};

    // Counts the event if the program refused it, and counts the event's notifications: ended
    // polls, and accepted and rejected readings.
    fn count(&mut self, answer: Result<Answer, Refusal>, notes: &[Note])
        ensures counts { self.new.counts ≡ counted answer notes.now self.old.counts }
        ensures states { self.new.states ≡ self.old.states }
        ensures outgoing { self.new.outgoing ≡ self.old.outgoing }
    {
        if answer.is_err() {
            self.counts.refuse();
        }
        self.counts.note_all(notes);
    }

    // Updates what `/status` reports of the device with index `place` after one of its events:
    // whether it is connected, and the time of its latest accepted reading.
    fn follow(
        &mut self,
        place: usize,
        at: u64,
        event: &Event,
        answer: Result<Answer, Refusal>,
        notes: &[Note],
    )
        ensures counts { self.new.counts ≡ self.old.counts }
        ensures states { self.new.states.items
            ≡ followed_at place at event.now answer notes.now self.old.states.items }
        ensures outgoing { self.new.outgoing ≡ self.old.outgoing }
    {
        if place < self.states.len() {
            self.states[place] = followed(self.states[place], at, event, answer, notes);
        }
    }
}

impl Observer for RunMonitor {
    ghost use Rattle.run_http.specs.Status.Monitor.Watching.{Keeps};

    ghost sees = { λ old shown new. Keeps old shown new };

    fn observe(
        &mut self,
        place: Option<usize>,
        at: u64,
        event: &Event,
        answer: Result<Answer, Refusal>,
        notes: &[Note],
        frames: &[u8],
    ) {
        self.count(answer, notes);
        if let Some(place) = place {
            self.follow(place, at, event, answer, notes);
            self.send(place, event, frames);
        }
    }
}
