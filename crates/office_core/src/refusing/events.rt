//! Finds the reason to refuse an event.
ghost use Rattle.std.specs.Prelude.{◌≡◌, IfOk, IfSome, IsOk, None};
ghost use Rattle.office_books.specs.Ledgers.{OnlyReads};
ghost use Rattle.office_core.specs.Refusing.Asking.{AsksNoBooks, IsOfDevice, IsOfEvent};
ghost use Rattle.office_books.specs.Sessions.{command_in};
ghost use Rattle.office_core.specs.Sessions.Places.{AsksOnSlot};
ghost use Rattle.office_core.specs.Sessions.Ranges.{IsInRange};
ghost use Rattle.office_core.specs.Refusing.Reporting.{ReportsAlone, ReportsWhy};

use crate::refusing::arrivals::Arrival;
use crate::refusing::commands::refusal_of_command;
use crate::refusing::sessions::refusal_of_session;
use crate::{Slot, has_device, is_connected};
use office_books::{Books, BooksFault};
use office_events::{Event, Refusal};

/// Returns the first reason to refuse an event, or `None` if no reason applies.
///
/// `latest` is the timestamp of the latest accepted event, in seconds since 1970-01-01 UTC. The
/// function makes each query of the store at most once, and stops at the first reason for a
/// refusal. If a query fails, the function returns the store's failure.
pub fn refusal<B: Books>(
    books: &mut B,
    slots: &[Slot],
    latest: u64,
    moment: u64,
    event: &Event,
) -> Result<Option<Refusal>, BooksFault>
    ensures found { ReportsWhy (B.ledger books.old) (B.ledger books.new) slots.now latest moment
        event.now result }
    ensures reads { OnlyReads (B.ledger books.old) (B.ledger books.new) result }
    ensures of_event { IfOk result (λ r. IfSome r IsOfEvent) }
    ensures in_range { IfOk result (λ r. r ≡ None → IsInRange latest moment event.now) }
    ensures there { IfOk result (λ r. r ≡ None → AsksOnSlot slots.now (command_in event.now)) }
    ensures quiet { AsksNoBooks event.now → (books.new ≡ books.old) × IsOk result }
    ensures alone { IsOfDevice event.now → ReportsAlone slots.now latest moment event.now result }
{
    let arrival = Arrival::new(latest, moment);
    match event {
        Event::Connected(given) => Ok(refusal_of_session(
            &arrival,
            !has_device(slots, given),
            is_connected(slots, given),
        )),
        Event::Bytes(given, _) => Ok(refusal_of_session(
            &arrival,
            !has_device(slots, given),
            !is_connected(slots, given),
        )),
        Event::Tick => Ok(refusal_of_session(&arrival, false, false)),
        Event::Gone(given, _) => Ok(refusal_of_session(
            &arrival,
            !has_device(slots, given),
            !is_connected(slots, given),
        )),
        Event::Command(c) => refusal_of_command(books, slots, &arrival, c),
        Event::Asked(asked) => {
            let arrival = Arrival::of_request(latest, moment, asked);
            refusal_of_command(books, slots, &arrival, &asked.command)
        }
    }
}
