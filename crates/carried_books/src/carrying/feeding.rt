//! Feeds the commands that set up a new database file to its office (the event engine), in order.
ghost use Rattle.carried_books.specs.Carrying.Feeding.{Feeds, FeedsOne, Passes};

use crate::carrying::commands::TimedCommand;
use office_books::Books;
use office_core::Office;
use office_events::{Event, Refusal};

// Feeds a command to an office (the event engine), at the command's timestamp.
fn feed_one<B: Books>(office: &mut Office<B>, timed: TimedCommand) -> Result<(), Refusal>
    ensures feeds { FeedsOne B.ledger timed office.old office.new result }
    ensures passes { Passes B.ledger office.old office.new }
{
    let event = Event::Command(timed.command);
    match office.feed(timed.at, &event) {
        Ok(_) => Ok(()),
        Err(why) => Err(why),
    }
}

/// Feeds commands to an office (the event engine), each at its timestamp, up to the first command
/// that the office refuses.
pub fn feed_all<B: Books>(
    office: &mut Office<B>,
    commands: Vec<TimedCommand>,
) -> Result<(), Refusal>
    ensures feeds { Feeds B.ledger commands.items office.old office.new result }
    ensures passes { Passes B.ledger office.old office.new }
{
    for timed in commands {
        match feed_one(office, timed) {
            Ok(()) => {}
            Err(why) => return Err(why),
        }
    }
    Ok(())
}
