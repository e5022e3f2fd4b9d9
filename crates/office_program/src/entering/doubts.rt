//! Decides whether a manual entry needs a confirmation. The entry needs one if its energy exceeds
//! what the meter's ceiling (its greatest power) allows in the time since the last entry.
ghost use Rattle.std.specs.Prelude.{◌≡◌, ◌≤◌, ◌+◌, ◌*◌, ◌^◌};
ghost use Rattle.std.specs.Option.{option_and_then};
ghost use Rattle.office_books.specs.History as history;
ghost use Rattle.office_books.specs.Meters.{if_open};
ghost use Rattle.office_books.specs.Ranges.{IsSound};
ghost use Rattle.office_program.specs.Passing.{Lasts};
ghost use Rattle.office_program.specs.Entering.Doubts as spec;
ghost use Rattle.office_program.specs.Entering.Doubts.{ReportsDoubt, doubt_of, doubted_in};

use crate::entering::marks::is_marked;
use energy_core::energy_up_to;
use office_books::{Books, facts_are_lawful, installations_are_in_range, is_sound};
use office_core::Office;
use office_events::{Asked, Command, Installation, Name, Refusal};

// Returns the value that a counter without rollovers would have: the count `raw` plus one full
// counter range for each of `rolls` rollovers.
fn turned(row: &Installation, raw: u64, rolls: u64) -> u128
    requires { IsSound row.now }
    ensures value { result ≡ raw + rolls * row.now.opening.range }
    ensures small { result ≤ 2 ^ 97 }
{
    u128::from(raw) + u128::from(rolls) * u128::from(row.opening.range)
}

// Returns true if an entry is later than the meter's last entry and does not decrease the counter.
// Any other entry needs no confirmation, because the office (the event engine) refuses it.
fn goes_on(row: &Installation, moment: u64, up_to: u128) -> bool
    ensures { result ≡ spec.goes_on row.now moment up_to }
{
    row.last.at < moment && u128::from(row.last.raw) <= up_to
}

// Returns true if a load at the meter's ceiling (its greatest power) can advance the counter to
// `up_to` in the time since the last entry. One count is subtracted from `up_to`, because the
// counter may have been about to advance at the last entry.
fn is_within_ceiling(row: &Installation, moment: u64, up_to: u128) -> bool
    requires sound { IsSound row.now }
    requires small { up_to ≤ 2 ^ 97 }
    ensures { result ≡ spec.is_within_ceiling row.now moment up_to }
{
    let energy = energy_up_to(&row.last, up_to.saturating_sub(1));
    let seconds = moment.saturating_sub(row.last.at);
    energy * 18 <= u128::from(row.opening.ceiling) * u128::from(seconds) * 5
}

// Returns the energy of an entry, in mWh, if this energy is more than the meter's ceiling (its
// greatest power) allows since the last entry. Otherwise returns `None`.
fn doubted_up_to(row: &Installation, moment: u64, up_to: u128) -> Option<u128>
    requires sound { IsSound row.now }
    requires small { up_to ≤ 2 ^ 97 }
    ensures { result ≡ spec.doubted_up_to row.now moment up_to }
{
    if goes_on(row, moment, up_to) && !is_within_ceiling(row, moment, up_to) {
        Some(energy_up_to(&row.last, up_to))
    } else {
        None
    }
}

// Returns the energy, in mWh, that the command's manual entry would record for the meter `row`, if
// the entry needs a confirmation. Otherwise returns `None`.
fn doubted_at(at: u64, command: &Command, row: &Installation) -> Option<u128>
    requires { IsSound row.now }
    ensures { result ≡ spec.doubted_at at command.now row.now }
{
    match command {
        Command::AddDevice(_) => None,
        Command::PutList(_) => None,
        Command::AddRegister(_) => None,
        Command::Install(_) => None,
        Command::Exchange(c) => doubted_up_to(row, at, turned(row, c.last, c.rolls)),
        Command::Reset(c) => doubted_up_to(row, at, u128::from(c.before)),
        Command::Rescale(c) => doubted_up_to(row, at, u128::from(c.before)),
        Command::Manual(c) => {
            doubted_up_to(row, c.at.unwrap_or(at), turned(row, c.raw, c.rolls))
        }
        Command::Close(c) => doubted_up_to(row, at, turned(row, c.raw, c.rolls)),
        Command::Void(_) => None,
        Command::StartPoll(_) => None,
        Command::StartRound(_) => None,
    }
}

// For an open meter, returns what `doubted_at` returns: the energy of a manual entry that needs a
// confirmation. Returns `None` for a closed meter, or for numbers out of range, which the store
// never returns.
fn doubted_if_open(at: u64, command: &Command, row: &Installation) -> Option<u128>
    ensures { IsSound row.now
        → result ≡ option_and_then (spec.doubted_at at command.now) (if_open row.now) }
{
    if row.ended || !is_sound(row) {
        None
    } else {
        doubted_at(at, command, row)
    }
}

// Returns the accounting register (a named counter) of the manual entry that a command makes.
// Returns `None` if the command makes no such entry, or the register's name is invalid.
fn corrected_at(command: &Command) -> Option<Name>
    ensures { result ≡ history.corrected_at command.now }
{
    match command {
        Command::AddDevice(_) => None,
        Command::PutList(_) => None,
        Command::AddRegister(_) => None,
        Command::Install(_) => None,
        Command::Exchange(c) => c.register,
        Command::Reset(c) => c.register,
        Command::Rescale(c) => c.register,
        Command::Manual(c) => c.register,
        Command::Close(c) => c.register,
        Command::Void(_) => None,
        Command::StartPoll(_) => None,
        Command::StartRound(_) => None,
    }
}

// Returns the energy, in mWh, that the command's manual entry would record for the accounting
// register's open meter, if the entry needs a confirmation. Otherwise returns `None`.
fn doubted_in<B: Books>(
    office: &mut Office<B>,
    at: u64,
    command: &Command,
    register: &Option<Name>,
) -> Result<Option<u128>, Refusal>
    ensures reports { ReportsDoubt B.ledger office.old office.new result
        (λ facts. doubted_in facts at command.now register.now) }
    ensures lasts { Lasts B.ledger office.old office.new }
{
    facts_are_lawful();
    installations_are_in_range();
    match office.installation(register) {
        Ok(row) => Ok(doubted_if_open(at, command, &row)),
        Err(why) => match why {
            Refusal::NotFound => Ok(None),
            _ => Err(why),
        },
    }
}

/// Returns the energy, in mWh, that a request's manual entry would record, if the entry needs a
/// confirmation. It needs one if the energy is above what the meter's ceiling (its greatest power)
/// allows. Otherwise returns `None`. The event engine is only queried.
pub(crate) fn doubt_of<B: Books>(
    office: &mut Office<B>,
    at: u64,
    asked: &Asked,
) -> Result<Option<u128>, Refusal>
    ensures reports { ReportsDoubt B.ledger office.old office.new result
        (λ facts. doubt_of facts at asked.now) }
    ensures lasts { Lasts B.ledger office.old office.new }
{
    if is_marked(asked.request.as_slice()) {
        return Ok(None);
    }
    let register = corrected_at(&asked.command);
    if register.is_none() {
        return Ok(None);
    }
    match office.repeat(&asked.caller, asked.number, asked.request.as_slice()) {
        Ok(_) => Ok(None),
        Err(why) => match why {
            Refusal::NotFound => doubted_in(office, at, &asked.command, &register),
            _ => Err(why),
        },
    }
}
