//! The state of the polling round of one device: its stage (such as waiting for responses), its
//! pending polls, and the counts of its ended polls.
use crate::device_rounds::polls::{MOST_WAITING, Polls, Sum, add, waiting_after};
use crate::device_rounds::stage::Stage;
use office_events::{Answer, Command, Event, Name, Note, Refusal, StartRound};
use poll_core::Closing;

/// The state of a device's polling round (one poll for each Modbus read of its plan). The event
/// engine's answers and notifications determine this state.
#[derive(Drop)]
pub struct Round {
    pub device: Option<Name>,
    pub stage: Stage,
    /// The numbers of the polling round's pending polls.
    pub polls: Polls,
    /// The number of Modbus reads that the polling round has started. The device's plan lists the
    /// Modbus reads of a round.
    pub started: u64,
    /// The number of Modbus reads in the device's plan, the list of the reads of one polling round.
    pub planned: u64,
    /// The counts of the polling round's ended polls by outcome. These counts are kept until the
    /// device connects again.
    pub sum: Sum,
}

impl Round {
    ghost use Rattle.std.specs.Prelude.{◌≡◌, Result};
    ghost use Rattle.office_events.specs.declared.answers.Answer.{Answer};
    ghost use Rattle.office_program.specs.DeviceRounds.Rounds as rounds;

    /// Creates the polling round of a device that is not connected.
    pub fn new(device: Option<Name>) -> Round
        ensures { result ≡ rounds.unconnected device }
    {
        Round {
            device,
            stage: Stage::Off,
            polls: Polls::new(),
            started: 0,
            planned: 0,
            sum: Sum::none(),
        }
    }

    /// Returns the event that the polling round generates next for the event engine. Returns `None`
    /// if the round waits for responses, or its device is not connected.
    pub fn requested_event(&self) -> Option<Event>
        ensures { result ≡ rounds.wish_of self.now }
    {
        match self.stage {
            Stage::Off => None,
            Stage::Joining => Some(Event::Connected(self.device)),
            Stage::Starting => Some(Event::Command(Command::StartRound(StartRound {
                device: self.device,
                from: self.started,
            }))),
            Stage::Waiting => None,
            Stage::Leaving(closing) => Some(Event::Gone(self.device, closing)),
        }
    }

    /// Begins a polling round after a new connection of the device, unless a round is already
    /// running.
    pub fn join(&mut self)
        ensures { self.new ≡ rounds.joined self.old }
    {
        if matches!(self.stage, Stage::Off) {
            self.stage = Stage::Joining;
            self.polls = Polls::new();
            self.started = 0;
            self.planned = 0;
            self.sum = Sum::none();
        }
    }

    /// Ends the polling round, because the connection to its device ended. If the office (the event
    /// engine) processed the event `Connected` before, the round generates the event `Gone` next.
    pub fn leave(&mut self, closing: Closing)
        ensures { self.new ≡ rounds.leaving closing self.old }
    {
        self.stage = self.stage.left(closing);
    }

    // Adds the polls that the event engine's answer reports as started. If the answer is not
    // `Started`, or more than 16 polls would be pending, the round ends early.
    fn start(&mut self, answer: Answer)
        ensures { self.new ≡ rounds.started_by answer self.old }
    {
        match answer {
            Answer::Started { first, count, of } => {
                if count > 16 || self.polls.len() + count as usize > MOST_WAITING {
                    self.stage = Stage::Leaving(Closing::Failed);
                } else {
                    self.begin(first, count, of);
                }
            }
            Answer::Noted => self.stage = Stage::Leaving(Closing::Failed),
            Answer::Done(_) => self.stage = Stage::Leaving(Closing::Failed),
            Answer::Again(_) => self.stage = Stage::Leaving(Closing::Failed),
        }
    }

    /// Changes the stage of the polling round (such as `Starting` or `Waiting`) according to the
    /// event engine's answer to an event of the round.
    pub fn answer(&mut self, answer: Result<Answer, Refusal>)
        ensures { self.new ≡ rounds.answered answer self.old }
    {
        match (self.stage, answer) {
            (Stage::Off, _) => {}
            (Stage::Joining, Ok(_)) => self.stage = Stage::Starting,
            (Stage::Joining, Err(_)) => self.stage = Stage::Off,
            (Stage::Starting, Ok(given)) => self.start(given),
            (Stage::Starting, Err(_)) => self.stage = Stage::Leaving(Closing::Failed),
            (Stage::Waiting, Ok(_)) => {}
            (Stage::Waiting, Err(_)) => self.stage = Stage::Leaving(Closing::Failed),
            (Stage::Leaving(_), _) => self.stage = Stage::Off,
        }
    }

    // After a poll has ended, selects the stage that starts the next Modbus reads. If no read
    // remains and no poll is pending, the round disconnects from its device.
    fn request_next_reads(&mut self)
        ensures { self.new ≡ rounds.gone_on self.old }
    {
        if self.started < self.planned {
            self.stage = Stage::Starting;
        } else if self.polls.is_empty() {
            self.stage = Stage::Leaving(Closing::Gone);
        }
    }

    /// Updates the polling round by the event engine's notifications, which report the outcomes of
    /// polls.
    pub fn apply_notes(&mut self, notes: &[Note])
        ensures { self.new ≡ rounds.heard notes.now self.old }
    {
        let before = self.polls.len();
        self.sum.note_all(&self.polls, notes);
        self.polls = waiting_after(&self.polls, notes);
        if matches!(self.stage, Stage::Waiting) && self.polls.len() < before {
            self.request_next_reads();
        }
    }
}

impl Round {
    ghost use Rattle.std.specs.Prelude.{◌≡◌, ◌+◌, ◌≤◌};
    ghost use Rattle.arrayvec.specs.ArrayVec.{array_vec_len};
    ghost use Rattle.office_program.specs.DeviceRounds.Rounds.{begun};

    // Adds `count` pending polls to the polling round, with consecutive numbers from `first`. The
    // device's plan has `of` Modbus reads.
    fn begin(&mut self, first: u64, count: u64, of: u64)
        requires { array_vec_len self.old.polls + count ≤ 16 }
        ensures { self.new ≡ begun first count of self.old }
    {
        add(&mut self.polls, first, count);
        self.started = self.started.saturating_add(count);
        self.planned = of;
        if self.polls.is_empty() {
            self.stage = Stage::Leaving(Closing::Gone);
        } else {
            self.stage = Stage::Waiting;
        }
    }
}
