//! Reports the events of a run of `sunreg run` as lines on standard output and messages on standard
//! error. It remembers which messages it has printed, so it does not repeat them.
use crate::descriptors::FewClients;
use crate::leftovers::Left;
use office_events::{Answer, Event, Name, Note, Observer, Refusal};
use office_program::Sum;
use poll_core::Closing;
use run_http::status::{
    DeviceLack, Lack, Reported, ReportedNumber, RunMonitor, Topic, append_bytes, append_refusal,
    write_head, write_held, write_lack, write_lines, write_number, write_sum,
};
use run_schedule::FileLoss;
use script_text::write_note;
use std::alloc::{AllocError, Global};
use std::{io, mem};

/// The state of a device after its last polling round (one poll for each of its Modbus reads).
#[derive(Clone, Copy, PartialEq, Eq)]
pub(crate) enum Standing {
    Unknown,
    /// The device answered at least one poll of its last polling round.
    Answers,
    /// The device was connected, but answered no poll of its last polling round.
    Silent,
    /// No connection to the device was established.
    Unreachable,
}

/// The recorder of the program's events. It collects the figures of the HTTP page `/status`, the
/// lines for standard output, and the messages for standard error.
///
/// If memory runs out, a line of output or a message is omitted or cut off.
#[derive(Drop)]
pub(crate) struct Voice {
    pub(crate) monitor: RunMonitor,
    /// Whether `sunreg run` must end early, because the program refuses everything until a restart,
    /// or because an open file of the store is lost.
    pub(crate) stopped: bool,
    /// What the store lacked for the polled devices when the command `run` began, such as a point
    /// list.
    pub(crate) lacks: Vec<DeviceLack>,
    alloc: Global,
    names: Vec<Option<Name>>,
    verbose: bool,
    lines: Vec<u8>,
    said: Vec<u8>,
    reported: Reported,
    /// Whether `sunreg run` has already reported that the stored commands reached the limit
    /// `--most-kept`.
    is_full: bool,
}

// Returns the state of a device after a polling round (one poll for each of its Modbus reads), by
// the outcomes of the round's polls.
fn standing_by(sum: Sum) -> Standing {
    if sum.answered > 0 {
        Standing::Answers
    } else {
        Standing::Silent
    }
}

fn is_empty(sum: Sum) -> bool {
    sum.answered == 0 && sum.silent == 0 && sum.failed == 0
}

fn word_of(standing: Standing) -> &'static [u8] {
    match standing {
        Standing::Unknown => b" unknown\n",
        Standing::Answers => b" answers\n",
        Standing::Silent => b" silent\n",
        Standing::Unreachable => b" unreachable\n",
    }
}

// Returns the part of a message that says how an open file of the store was lost. In the message,
// it follows the file's path.
fn how_lost(loss: FileLoss) -> &'static [u8] {
    match loss {
        FileLoss::Missing => b"removed or renamed while in use",
        FileLoss::Replaced => b"another file replaced it while in use",
        FileLoss::Shortened => b"cut short while in use",
    }
}

// Returns whether an event is routine and is therefore printed only by `--verbose`. Each polling
// round has two routine events: its connection, and the end of the connection after its last poll.
fn is_usual(event: &Event, answer: Result<Answer, Refusal>) -> bool {
    match event {
        Event::Connected(_) => answer.is_ok(),
        Event::Gone(_, Closing::Gone) => answer.is_ok(),
        _ => false,
    }
}

// Appends a line for a notification: the outcome of a poll, or an accepted reading. Appends nothing
// for a rejected reading, which is printed even without `--verbose`.
fn append_poll(text: &mut Vec<u8>, at: u64, name: &Option<Name>, note: &Note) -> io::Result<()> {
    if matches!(note, Note::Held { .. }) {
        return Ok(());
    }
    write_head(text, at, name)?;
    append_bytes(text, b" ")?;
    write_note(note, text)
}

impl Voice {
    pub(crate) fn new(
        alloc: Global,
        names: Vec<Option<Name>>,
        lacks: Vec<DeviceLack>,
        verbose: bool,
    ) -> Result<Voice, AllocError> {
        Ok(Voice {
            monitor: RunMonitor::new(alloc, &names)?,
            stopped: false,
            lacks,
            alloc,
            names,
            verbose,
            lines: Vec::new(alloc),
            said: Vec::new(alloc),
            reported: Reported::new(alloc),
            is_full: false,
        })
    }

    // Reports on standard error what a device lacks, such as a point list. Later refusals for the
    // same reason are not reported again.
    fn say_lack(&mut self, lack: &DeviceLack) {
        let _done = write_lack(&mut self.said, lack);
        let topic = match lack.lack {
            Lack::NoDevice => Topic::Connection,
            Lack::NoList => Topic::Round,
            _ => return,
        };
        let _reported = self.reported.report_once(ReportedNumber {
            topic,
            name: lack.device,
            number: Refusal::NotFound.number(),
        });
    }

    /// Reports on standard error what is missing in the store for each device, such as a point list
    /// or an open meter.
    pub(crate) fn say_lacks(&mut self) {
        for place in 0..self.lacks.len() {
            if place < self.lacks.len() {
                let lack = self.lacks[place];
                self.say_lack(&lack);
            }
        }
    }

    // Returns the name of the device with this index; `None` if there is no such device, or if the
    // device's name is not valid.
    fn name(&self, place: Option<usize>) -> Option<Name> {
        let place = place?;
        if place < self.names.len() {
            return self.names[place];
        }
        None
    }

    /// Returns the queued lines for standard output, and empties their queue.
    pub(crate) fn take_lines(&mut self) -> Vec<u8> {
        mem::replace(&mut self.lines, Vec::new(self.alloc))
    }

    /// Returns the queued messages for standard error, and empties their queue.
    pub(crate) fn take_said(&mut self) -> Vec<u8> {
        mem::replace(&mut self.said, Vec::new(self.alloc))
    }

    /// Prints the timestamp of the latest record before the run, the number of polls recorded as
    /// lost at the start, and the HTTP port.
    pub(crate) fn report_opened(&mut self, left: Option<Left>, port: u16) {
        if let Some(left) = left {
            let _done = write_number(&mut self.lines, b"books to ", left.latest);
            let _done = write_number(&mut self.lines, b" lost ", left.waiting as u64);
            let _done = append_bytes(&mut self.lines, b"\n");
        }
        let _done = write_number(&mut self.lines, b"listening ", u64::from(port));
        let _done = append_bytes(&mut self.lines, b"\n");
    }

    /// Reports that the clock is `seconds` seconds before `moment`, the timestamp of the latest
    /// record. New records get this timestamp until the clock has caught up.
    pub(crate) fn report_set_back(&mut self, moment: u64, seconds: u64) {
        let _done = write_number(&mut self.lines, b"", moment);
        let _done = write_number(&mut self.lines, b" clock set back ", seconds);
        let _done = append_bytes(&mut self.lines, b"\n");
        let _done = write_number(&mut self.said, b"sunreg: the clock is ", seconds);
        let _done = write_number(&mut self.said, b" seconds behind the last record, ", moment);
        let _done = write_number(
            &mut self.said,
            b"; until the clock catches up, new records get the time ",
            moment,
        );
        let _done = append_bytes(&mut self.said, b"\n");
    }

    /// Reports that the clock jumped ahead, from timestamp `before` to the much later timestamp
    /// `moment`. Such a jump may be an error of the clock.
    pub(crate) fn report_ahead(&mut self, before: u64, moment: u64) {
        let _done = write_number(&mut self.said, b"sunreg: the clock jumped from ", before);
        let _done = write_number(&mut self.said, b" to ", moment);
        let _done = append_bytes(
            &mut self.said,
            b"; if the new time is wrong, set the clock and restart run: records keep the time at which they are made\n",
        );
    }

    /// Reports, only once in a run of `sunreg run`, that HTTP commands get status 503 because the
    /// stored commands have reached the limit `--most-kept`.
    pub(crate) fn say_full(&mut self) {
        if !self.is_full {
            self.is_full = true;
            let _done = append_bytes(
                &mut self.said,
                b"sunreg: HTTP commands are answered with 503, because the stored commands have reached the limit of --most-kept; restart run with a larger limit or a new file\n",
            );
        }
    }

    /// Reports that the run serves fewer HTTP clients at once than it could, because the limit on
    /// open file descriptors is too low.
    pub(crate) fn say_few(&mut self, few: FewClients) {
        let _done = write_number(
            &mut self.said,
            b"sunreg: few file descriptors: run serves only ",
            few.clients as u64,
        );
        let _done = write_number(
            &mut self.said,
            b" HTTP clients at a time, because devices come first; for 64 devices and 64 clients, set ulimit -n ",
            few.limit as u64,
        );
        let _done = append_bytes(&mut self.said, b"\n");
    }

    /// Reports that an open file of the store was removed, replaced or cut short. Control bytes in
    /// the file's path are printed as `?`, so that the report is one line.
    pub(crate) fn say_lost(&mut self, path: &str, loss: FileLoss) {
        let _done = append_bytes(&mut self.said, b"sunreg: ");
        for byte in path.as_bytes() {
            let shown = if *byte < 32 || *byte == 127 {
                b'?'
            } else {
                *byte
            };
            let _done = self.said.push(shown);
        }
        let _done = append_bytes(&mut self.said, b": ");
        let _done = append_bytes(&mut self.said, how_lost(loss));
        let _done = append_bytes(
            &mut self.said,
            b"; new records would be lost, so run answers commands with 503 and stops; move the file back, or restore a backup\n",
        );
    }

    /// Reports that an open file of the store was missing when a command was committed, and that
    /// `sunreg run` therefore stops.
    pub(crate) fn say_gone(&mut self) {
        let _done = append_bytes(
            &mut self.said,
            b"sunreg: a file of the office was missing when a command was committed, so run stops; put the files back, then start run again\n",
        );
    }

    /// Prints the state `now` of a device, if it differs from the previous state `before`.
    pub(crate) fn report_state(
        &mut self,
        at: u64,
        name: &Option<Name>,
        before: Standing,
        now: Standing,
    ) {
        if before != now {
            let _done = write_head(&mut self.lines, at, name);
            let _done = append_bytes(&mut self.lines, word_of(now));
        }
    }

    /// Prints how many polls of a polling round were answered, timed out or failed. Returns the
    /// state of the device after the round. A round without a completed poll does not change the
    /// state.
    pub(crate) fn report_round(
        &mut self,
        at: u64,
        name: &Option<Name>,
        before: Standing,
        sum: Sum,
    ) -> Standing {
        if is_empty(sum) {
            return before;
        }
        let now = standing_by(sum);
        self.report_state(at, name, before, now);
        let _done = write_sum(
            &mut self.lines,
            at,
            name,
            sum.answered,
            sum.silent,
            sum.failed,
        );
        now
    }

    // Prints a line for each notification of a poll's outcome or an accepted reading.
    fn report_polls(&mut self, at: u64, name: &Option<Name>, notes: &[Note]) {
        for note in notes {
            let _done = append_poll(&mut self.lines, at, name, note);
        }
    }
}

// Returns the topic of a refusal of this event, under which the refusal is reported: the device's
// connection, or its polling round.
fn topic_of(event: &Event) -> Topic {
    match event {
        Event::Connected(_) => Topic::Connection,
        _ => Topic::Round,
    }
}

impl Voice {
    // Reports why the program refused an event of a device, unless the previous report on the same
    // device and topic (connection or polling round) gave the same reason.
    fn say_refusal(&mut self, device: &Option<Name>, event: &Event, why: Refusal) {
        let is_new = self.reported.report_once(ReportedNumber {
            topic: topic_of(event),
            name: *device,
            number: why.number(),
        });
        if is_new {
            let _done = append_refusal(&mut self.said, device, event, why);
        }
    }

    // Reports a refusal of a device event. If the event was an accepted connection or an accepted
    // start of reads instead, clears the earlier report, so that the next refusal is reported even
    // for the same reason.
    fn say_answer(
        &mut self,
        device: &Option<Name>,
        event: &Event,
        answer: Result<Answer, Refusal>,
    ) {
        match answer {
            Ok(Answer::Started { .. }) => self.reported.forget(Topic::Round, *device),
            Ok(_) => {
                if matches!(event, Event::Connected(_)) {
                    self.reported.forget(Topic::Connection, *device);
                }
            }
            Err(why) => self.say_refusal(device, event, why),
        }
    }

    // Reports why a reading of a meter was rejected, unless the previous report on the meter gave
    // the same reason. An accepted reading clears the previous report.
    fn say_note(&mut self, note: &Note) {
        match note {
            Note::Outcome { .. } => {}
            Note::Reading { meter, .. } => self.reported.forget(Topic::Meter, Some(*meter)),
            Note::Held { meter, cause, .. } => {
                let is_new = self.reported.report_once(ReportedNumber {
                    topic: Topic::Meter,
                    name: Some(*meter),
                    number: cause.number(),
                });
                if is_new {
                    let _done = write_held(&mut self.said, meter, *cause);
                }
            }
        }
    }

    // Reports on standard error why the program refused a device event, and why it rejected
    // readings of meters.
    fn say(
        &mut self,
        device: &Option<Name>,
        event: &Event,
        answer: Result<Answer, Refusal>,
        notes: &[Note],
    ) {
        self.say_answer(device, event, answer);
        for note in notes {
            self.say_note(note);
        }
    }
}

impl Observer for Voice {
    ghost sees = { λ _ _ _. Unit {0} };

    fn observe(
        &mut self,
        place: Option<usize>,
        at: u64,
        event: &Event,
        answer: Result<Answer, Refusal>,
        notes: &[Note],
        frames: &[u8],
    ) {
        let name = self.name(place);
        if self.verbose || !is_usual(event, answer) {
            let _done = write_lines(&mut self.lines, at, &name, event, answer, notes);
        }
        if self.verbose {
            self.report_polls(at, &name, notes);
        }
        self.say(&name, event, answer, notes);
        if matches!(answer, Err(Refusal::Stopped)) {
            self.stopped = true;
        }
        self.monitor
            .observe(place, at, event, answer, notes, frames);
    }
}
