//! Finds the state of a meter after the records of a pending write (records not yet stored).
ghost use Rattle.std.specs.Prelude.{◌≡◌};
ghost use Rattle.office_books.specs.Meters.{open_at};
ghost use Rattle.office_books.specs.Ranges.{IsSound};
ghost use Rattle.office_books.specs.Sound.{ReadsInstallation};
ghost use Rattle.office_core.specs.Settling.Drafts.{FindsAfter};
ghost use Rattle.office_core.specs.Settling.Following.{installation_with, IsAfterFacts};

use crate::settling::drafts::PendingWrite;
use energy_core::{accepted_is_entered, accounts_go_on, entered_is_booked};
use office_books::{Books, BooksFault, after_entry, meters_are_kept, names_are_distinct};
use office_events::{Fact, Installation, Name};

/// Returns the state of a meter after one more record. The state changes only if the record is an
/// entry of this meter.
fn with_fact(row: &Installation, fact: &Fact) -> Installation
    requires { IsSound row.now }
    ensures sound { IsSound result }
    ensures with_it { result ≡ installation_with fact.now row.now }
{
    match fact {
        Fact::Entry(booked) if booked.meter.is(&row.opening.meter) => after_entry(
            row,
            &booked.entry,
        ),
        _ => *row,
    }
}

/// Returns the state of a meter after all of the given records, in order.
fn with_facts(row: &Installation, facts: &[Fact]) -> Installation
    requires { IsSound row.now }
    ensures sound { IsSound result }
    ensures following { IsAfterFacts row.now facts.now result }
{
    names_are_distinct();
    meters_are_kept();
    accepted_is_entered();
    entered_is_booked();
    accounts_go_on();
    let mut following = *row;
    for fact in facts {
        following = with_fact(&following, fact);
    }
    following
}

/// Returns the open meter at an accounting register (a named energy counter), with its state after
/// the pending write's records (not yet stored). Returns `None` if no meter is open at the
/// register.
pub fn open_installation<B: Books>(
    books: &mut B,
    draft: &PendingWrite,
    register: &Name,
) -> Result<Option<Installation>, BooksFault>
    ensures found { FindsAfter (B.ledger books.old) (B.ledger books.new) draft.now result
        (λ facts row. row ≡ open_at facts register.now) }
    ensures reads { ReadsInstallation (B.ledger books.old) (B.ledger books.new) result }
{
    let Some(booked) = books.installation(register)? else {
        return Ok(None);
    };
    let row = with_facts(&booked, &draft.facts);
    if row.ended {
        return Ok(None);
    }
    Ok(Some(row))
}
