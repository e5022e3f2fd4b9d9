//! Executes polling rounds over links (connections to devices) in memory for tests, and looks up
//! the outcomes of their polls.
use crate::offices::{assert_list_accepted, inv, office_after};
use mb_wire::Link;
use mb_wire::sockets::FixedClock;
use office_books::Books;
use office_core::Office;
use office_program::{RoundFault, round_over};
use poll_core::{LostCause, Outcome};
use std::alloc::Global;
use std::process::Abort;

/// The script line of a device that may have one pending poll.
pub(crate) const ONE_BY_ONE: &str = "1000 device inv 1 5 1";

/// The script line of a device that may have two pending polls.
pub(crate) const BOTH_AT_ONCE: &str = "1000 device inv 1 5 2";

/// Opens an `Office` (the core of `sunreg`), and adds the device of the script line `device` with
/// the point list `LIST`.
pub(crate) fn listed<B: Books>(
    rt: &impl Abort,
    alloc: Global,
    books: B,
    device: &str,
) -> Office<B> {
    let mut office = office_after(rt, alloc, books, &[device]);
    assert_list_accepted(rt, alloc, &mut office, inv());
    office
}

/// The result of a polling round, and the text that it printed.
#[derive(Drop)]
pub(crate) struct Done {
    pub(crate) done: Result<(), RoundFault>,
    pub(crate) printed: Vec<u8>,
}

/// Executes a polling round of the device `inv`. The clock returns the times `times`.
pub(crate) fn round<B: Books, L: Link>(
    alloc: Global,
    office: &mut Office<B>,
    link: &mut L,
    times: &[u64],
) -> Done {
    let mut clock = FixedClock::new(times);
    let mut printed = Vec::new(alloc);
    let done = round_over(alloc, link, office, inv(), &mut clock, &mut printed);
    Done { done, printed }
}

/// The outcomes of the first three polls. `None` means that the poll does not exist, and
/// `Some(None)` that it is pending.
pub(crate) type Ends = [Option<Option<Outcome>>; 3];

pub(crate) const ANSWERED: Option<Option<Outcome>> = Some(Some(Outcome::Answered));

/// The outcome of a poll that was pending when the link (the connection to the device) failed.
pub(crate) const LOST: Option<Option<Outcome>> = Some(Some(Outcome::Lost(LostCause::Failed)));

/// The outcome of a poll that was pending at a restart.
pub(crate) const RESTARTED: Option<Option<Outcome>> = Some(Some(Outcome::Lost(LostCause::Restart)));

fn end_of<B: Books>(office: &mut Office<B>, number: u64) -> Option<Option<Outcome>> {
    let row = office.poll(number).ok()?;
    match row.ended {
        Some(ended) => Some(Some(ended.outcome)),
        None => Some(None),
    }
}

pub(crate) fn ends<B: Books>(office: &mut Office<B>) -> Ends {
    [end_of(office, 1), end_of(office, 2), end_of(office, 3)]
}
