//! Functions that return a record's content if the record is of a given kind, such as a device, and
//! the timestamp of a record.
ghost use Rattle.std.specs.Prelude.{◌≡◌, ◌∷◌, [], length};
ghost use Rattle.office_books.specs.Facts.{as_device, as_hold, openings_in, moment_in};

use energy_core::Entry;
use office_events::{Device, Fact, HeldReading};

pub(crate) fn device_in(fact: &Fact) -> Option<Device>
    ensures { result ≡ as_device fact.now }
{
    match fact {
        Fact::Device(device) => Some(*device),
        _ => None,
    }
}

pub(crate) fn hold_in(fact: &Fact) -> Option<HeldReading>
    ensures { result ≡ as_hold fact.now }
{
    match fact {
        Fact::Hold(held) => Some(*held),
        _ => None,
    }
}

/// Returns the number of meters that a record installs, 0 or 1.
pub(crate) fn openings(fact: &Fact) -> usize
    ensures { result ≡ length (openings_in (fact.now ∷ [])) }
{
    match fact {
        Fact::Opening(_) => 1,
        _ => 0,
    }
}

/// Returns the timestamp of a record, or 0 if records of its kind have no timestamp.
pub(crate) fn moment(fact: &Fact) -> u64
    ensures { result ≡ moment_in fact.now }
{
    match fact {
        Fact::Device(_) | Fact::List(_) | Fact::Register(_) => 0,
        Fact::Opening(opening) => opening.at,
        Fact::Entry(booked) => match booked.entry {
            Entry::Step { at, .. } | Entry::Change { at, .. } => at,
        },
        Fact::Hold(held) => held.at,
        Fact::Void(voided) => voided.at,
        Fact::Poll(poll) => poll.at,
        Fact::Outcome(ended) => ended.at,
        Fact::Reply(reply) => reply.at,
    }
}
