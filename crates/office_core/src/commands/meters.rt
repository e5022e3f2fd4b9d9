//! Builds the records of a meter's installation, corrections and closing.
ghost use Rattle.std.specs.Prelude.{◌≡◌, ◌≤◌, false, None, Some, Option};
ghost use Rattle.std.specs.Option.{option_and_then, option_to_list};
ghost use Rattle.energy_core.specs.declared.entries.Entry.TheVariants as entry;
ghost use Rattle.office_events.specs.declared.facts.Fact.{Fact};
ghost use Rattle.office_events.specs.declared.facts.Fact.TheVariants as fact;
ghost use Rattle.office_events.specs.declared.commands.Command.TheVariants as command;
ghost use Rattle.office_books.specs.Meters.{open_at};
ghost use Rattle.office_books.specs.History as history;
ghost use Rattle.office_books.specs.Refusals.{asks_bad_field, asks_bad_scale};
ghost use Rattle.office_core.specs.Sessions.Ranges.{FitsCounter};
ghost use Rattle.office_books.specs.Ledgers.{Finds, OnlyReads};
ghost use Rattle.office_core.specs.Commands.Adding as adding;

use energy_core::{Entry, MAX_SHOWN};
use office_books::{Books, BooksFault, meter_at};
use office_events::{
    BookedEntry, Close, Command, EntryKind, Exchange, Fact, Install, Installation, MAX_ROLLS,
    Manual, Name, Opening, Rescale, Reset, VoidEntry, VoidedEntry,
};

/// Returns the record that opens a new meter, or `None` if a name in the command is invalid.
pub fn opening_by(moment: u64, install: &Install) -> Option<Fact>
    requires field { asks_bad_field moment (command.Install install.now) ≡ false }
    requires scale { asks_bad_scale (command.Install install.now) ≡ false }
    ensures { option_to_list result ≡ history.openings_by moment install.now }
{
    Some(Fact::Opening(Opening {
        meter: install.meter?,
        register: install.register?,
        ceiling: install.ceiling,
        range: install.range,
        at: moment,
        raw: install.raw as u32,
        sf: install.sf as i16,
    }))
}

/// Returns the installation command for the new meter of an exchange of meters.
pub fn installed_by(exchange: &Exchange) -> Install
    ensures { result ≡ history.installed_by exchange.now }
{
    Install {
        register: exchange.register,
        meter: exchange.meter,
        raw: exchange.raw,
        sf: exchange.sf,
        ceiling: exchange.ceiling,
        range: exchange.range,
    }
}

/// Returns the record of a meter entry: the counter advanced to `raw`, with `rolls` rollovers.
fn step_on(row: &Installation, kind: EntryKind, at: u64, raw: u64, rolls: u64) -> Fact
    requires raw { raw ≤ MAX_SHOWN }
    requires rolls { rolls ≤ MAX_ROLLS }
    ensures { let made = entry.Step at raw rolls in
        result ≡ fact.Entry (record { meter = row.now.opening.meter; kind = kind; entry = made }) }
{
    Fact::Entry(BookedEntry {
        meter: row.opening.meter,
        kind,
        entry: Entry::Step {
            at,
            raw: raw as u32,
            rolls: rolls as u8,
        },
    })
}

/// Returns the record of a meter entry that sets the counter. The counter advanced to `before` and
/// was then set to `after`, at the scale factor `sf`.
fn change_on(row: &Installation, kind: EntryKind, at: u64, before: u64, after: u64, sf: i16) -> Fact
    requires before { before ≤ MAX_SHOWN }
    requires after { after ≤ MAX_SHOWN }
    ensures { let made = entry.Change at before after sf in
        result ≡ fact.Entry (record { meter = row.now.opening.meter; kind = kind; entry = made }) }
{
    Fact::Entry(BookedEntry {
        meter: row.opening.meter,
        kind,
        entry: Entry::Change {
            at,
            before: before as u32,
            after: after as u32,
            sf,
        },
    })
}

/// Returns the closing entry of the old meter in an exchange of meters.
pub fn closing_by(moment: u64, row: &Installation, exchange: &Exchange) -> Fact
    requires field { asks_bad_field moment (command.Exchange exchange.now) ≡ false }
    requires counter { FitsCounter (command.Exchange exchange.now) }
    ensures { Some result ≡ history.made_on moment (command.Exchange exchange.now) row.now }
{
    step_on(
        row,
        EntryKind::Closing,
        moment,
        exchange.last,
        exchange.rolls,
    )
}

/// Returns the meter entry that records a reset of the meter's counter.
pub fn reset_by(moment: u64, row: &Installation, reset: &Reset) -> Fact
    requires counter { FitsCounter (command.Reset reset.now) }
    ensures { Some result ≡ history.made_on moment (command.Reset reset.now) row.now }
{
    let sf = row.last.sf;
    change_on(row, EntryKind::Reset, moment, reset.before, reset.after, sf)
}

/// Returns the meter entry that records a change of the scale factor of the meter's counter.
pub fn rescale_by(moment: u64, row: &Installation, rescale: &Rescale) -> Fact
    requires scale { asks_bad_scale (command.Rescale rescale.now) ≡ false }
    requires counter { FitsCounter (command.Rescale rescale.now) }
    ensures { Some result ≡ history.made_on moment (command.Rescale rescale.now) row.now }
{
    let sf = rescale.sf as i16;
    change_on(
        row,
        EntryKind::Rescale,
        moment,
        rescale.before,
        rescale.after,
        sf,
    )
}

/// Returns the meter entry that records a manual reading of the meter.
pub fn manual_by(moment: u64, row: &Installation, manual: &Manual) -> Fact
    requires field { asks_bad_field moment (command.Manual manual.now) ≡ false }
    requires counter { FitsCounter (command.Manual manual.now) }
    ensures { Some result ≡ history.made_on moment (command.Manual manual.now) row.now }
{
    let at = manual.at.unwrap_or(moment);
    step_on(row, EntryKind::Manual, at, manual.raw, manual.rolls)
}

/// Returns the closing entry of a meter.
pub fn close_by(moment: u64, row: &Installation, close: &Close) -> Fact
    requires field { asks_bad_field moment (command.Close close.now) ≡ false }
    requires counter { FitsCounter (command.Close close.now) }
    ensures { Some result ≡ history.made_on moment (command.Close close.now) row.now }
{
    step_on(row, EntryKind::Closing, moment, close.raw, close.rolls)
}

/// Returns the record that voids (cancels) a meter entry, or `None` if the meter's name is invalid.
pub fn void_by(moment: u64, void: &VoidEntry) -> Option<Fact>
    ensures { result ≡ adding.void_by moment void.now }
{
    Some(Fact::Void(VoidedEntry {
        meter: void.meter?,
        place: void.place,
        at: moment,
    }))
}

/// Returns the open meter at the named accounting register (a named energy counter), or `None` if
/// no meter is open at the register.
pub fn open_meter<B: Books>(
    books: &mut B,
    register: &Option<Name>,
) -> Result<Option<Installation>, BooksFault>
    ensures found { Finds (B.ledger books.old) (B.ledger books.new) result
        (λ known row. row ≡ option_and_then (open_at known) register.now) }
    ensures reads { OnlyReads (B.ledger books.old) (B.ledger books.new) result }
{
    let row = meter_at(books, register)?;
    Ok(row.filter(|row| !row.ended))
}
