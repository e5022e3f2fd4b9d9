//! Remembers, for each device and meter, the last error number that a message to the operator
//! explained. A message is repeated only if the number changes.
ghost use Rattle.std.specs.Prelude.{◌≡◌};
ghost use Rattle.run_http.specs.Status.Advice.Reported as specs;

use office_events::Name;
use std::alloc::{AllocError, Global};

/// The maximum number of devices and meters whose last reported error number is remembered.
pub const MOST_REPORTED: usize = 512;

/// What a message with an error number is about: a device's connection, its polling round, or a
/// meter.
#[derive(Clone, Copy, PartialEq, Eq)]
pub enum Topic {
    /// The error number says why the program refused a device's connection.
    Connection,
    /// The error number says why the program refused a device's event that is not a connection.
    Round,
    /// The error number says why the program rejected a meter's reading.
    Meter,
}

impl Topic {
    ghost use Rattle.std.specs.Prelude.{◌≡◌};
    ghost use Rattle.run_http.specs.Status.Advice.Reported.{topic_number};

    // Returns the numeric code of a message's topic (a connection, a polling round or a meter). Two
    // topics are equal if their codes are equal.
    fn number(self) -> u8
        ensures { result ≡ topic_number self }
    {
        match self {
            Topic::Connection => 1,
            Topic::Round => 2,
            Topic::Meter => 3,
        }
    }
}

/// The error number in the latest message about a device or a meter; 0 if the device or meter has
/// worked since that message.
#[derive(Clone, Copy, PartialEq, Eq)]
pub struct ReportedNumber {
    pub topic: Topic,
    pub name: Option<Name>,
    pub number: u8,
}

// Returns whether two optional names are equal. Two missing names are equal.
fn is_same_name(a: &Option<Name>, b: &Option<Name>) -> bool
    ensures { result ≡ specs.is_same_name a.now b.now }
{
    match (a, b) {
        (None, None) => true,
        (None, Some(_)) => false,
        (Some(_), None) => false,
        (Some(a), Some(b)) => a.is(b),
    }
}

impl ReportedNumber {
    ghost use Rattle.std.specs.Prelude.{◌≡◌};
    ghost use Rattle.run_http.specs.Status.Advice.Reported as specs;

    // Returns whether two entries of the list of reported error numbers have the same topic and the
    // same device or meter.
    fn is_of_same(&self, other: &ReportedNumber) -> bool
        ensures { result ≡ specs.are_of_same self.now other.now }
    {
        self.topic.number() == other.topic.number() && is_same_name(&self.name, &other.name)
    }
}

/// The last reported error number of each device and meter. A number is reported only if it differs
/// from the last reported number.
#[derive(Drop)]
pub struct Reported {
    pub numbers: Vec<ReportedNumber>,
}

impl Reported {
    ghost use Rattle.std.specs.Prelude.{◌≡◌, [], is_ok};
    ghost use Rattle.run_http.specs.Status.Advice.Reported as specs;

    /// Makes a list without any reported error number.
    pub fn new(alloc: Global) -> Reported
        ensures { result.numbers.items ≡ [] }
    {
        Reported {
            numbers: Vec::new(alloc),
        }
    }

    // Returns the index of the entry in the list of reported error numbers that has the topic and
    // the device or meter of `reported`.
    fn place_of(&self, reported: &ReportedNumber) -> Option<usize>
        ensures { result ≡ specs.place_of reported.now self.now.numbers.items }
    {
        self.numbers.iter().position(|one| one.is_of_same(reported))
    }

    // Adds an error number of a device or meter to the list of those that messages to the operator
    // already explained. Fails if memory runs out.
    fn push(&mut self, topic: Topic, name: Option<Name>, number: u8) -> Result<(), AllocError>
        ensures { self.new.numbers.items
            ≡ specs.pushed (is_ok result) (specs.reported_number topic name number)
            self.old.numbers.items }
    {
        self.numbers.push(ReportedNumber {
            topic,
            name,
            number,
        })?;
        Ok(())
    }

    // Adds an entry for a device or meter to the list of reported error numbers, and returns
    // whether room and memory sufficed for it.
    fn add(&mut self, reported: ReportedNumber) -> bool
        ensures { specs.Adds reported self.old.numbers.items self.new.numbers.items result }
    {
        self.numbers.len() < MOST_REPORTED
            && self
                .push(reported.topic, reported.name, reported.number)
                .is_ok()
    }

    // Replaces the error number that was last reported for a device or meter (the list entry
    // `place`), and returns whether the new number differs from the old one.
    fn change(&mut self, place: usize, reported: ReportedNumber) -> bool
        ensures { specs.Changes place reported self.old.numbers.items self.new.numbers.items result }
    {
        if place >= self.numbers.len() {
            return false;
        }
        if self.numbers[place].number == reported.number {
            return false;
        }
        self.numbers[place] = reported;
        true
    }

    /// Records the error number (such as the cause of a meter's rejected readings) of a device or
    /// meter. Returns whether to report the number, which is so if it differs from the last
    /// reported one.
    ///
    /// An error number is reported if it differs from the last number that was reported for the
    /// same device or meter on the same topic. If the list of reported numbers is full, no number
    /// of a further device or meter is reported.
    pub fn report_once(&mut self, reported: ReportedNumber) -> bool
        ensures { specs.ReportsNumber reported self.old.numbers.items self.new.numbers.items result }
    {
        match self.place_of(&reported) {
            Some(place) => self.change(place, reported),
            None => self.add(reported),
        }
    }

    /// Records that a device or meter works. Its next problem is then reported even if the problem
    /// has the same error number as the last one.
    pub fn forget(&mut self, topic: Topic, name: Option<Name>)
        ensures { specs.Forgets topic name self.old.numbers.items self.new.numbers.items }
    {
        let none = ReportedNumber {
            topic,
            name,
            number: 0,
        };
        if let Some(place) = self.place_of(&none) {
            let _changed = self.change(place, none);
        }
    }
}
