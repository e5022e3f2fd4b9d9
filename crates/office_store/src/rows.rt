//! Conversions from stored records to the rows of the tables.
ghost use Rattle.std.specs.Prelude.{◌≡◌, ◌≤◌, true, IsTrue};
ghost use Rattle.energy_core.specs.Account.{IsScale, moment_of};
ghost use Rattle.store_tables.specs.Columns.{is_within};
ghost use Rattle.store_tables.specs.Limits.{IsPlace, latest_moment};
ghost use Rattle.store_tables.specs.Devices.Rows.{IsSoundDevice};
ghost use Rattle.store_tables.specs.Meters.Rows.{IsSoundInstallation};
ghost use Rattle.store_tables.specs.Entries.Rows.{IsSoundEntry};
ghost use Rattle.store_tables.specs.Polls.Rows.{IsSoundPoll};
ghost use Rattle.office_store.specs.Rows.{IsSoundOpening};
ghost use Rattle.office_store.specs.Rows as rows;

use energy_core::{Entry, Last, MAX_CEILING, MAX_RANGE, MAX_SCALE, MIN_RANGE, MIN_SCALE};
use meter_journal::EntryKind;
use office_events::{Device, EndedPoll, HeldReading, Opening, Poll, Register, ScaleSource};
use store_tables::{
    DeviceRow, EntryRow, InstallationRow, LATEST_MOMENT, LastRow, OutcomeRow, PollRow, RegisterRow,
    RegisterScale, RejectedRow,
};

/// Returns the row of `devices` for a device at index `place`.
pub fn device_row(device: Device, place: u64) -> DeviceRow
    ensures row { result ≡ (rows.added place device).row }
    ensures sound { IsPlace place → IsSoundDevice result }
{
    DeviceRow {
        place,
        unit: device.unit,
        timeout: device.timeout.seconds() as u8,
        window: device.window.polls() as u8,
    }
}

fn scale(source: ScaleSource) -> RegisterScale
    ensures { result ≡ rows.scale_as source }
{
    match source {
        ScaleSource::Fixed(sf) => RegisterScale::Fixed(sf),
        ScaleSource::Register(address) => RegisterScale::At(address),
    }
}

/// Returns the row of `registers` for an accounting register (a named energy counter) at index
/// `place`.
pub fn register_row(register: Register, place: u64) -> RegisterRow
    ensures row { result ≡ (rows.registered place register).row }
    ensures sound { rows.GivesSoundRow place register result }
{
    RegisterRow {
        place,
        function: register.function,
        address: register.address,
        scale: scale(register.scale),
    }
}

/// Returns the columns of `installations` for a meter's last entry. `total` is the meter's energy
/// since its installation, in mWh.
pub fn last_row(last: Last, total: u64) -> LastRow
    ensures { result ≡ record { moment = last.at; raw = last.raw; sf = last.sf; total = total } }
{
    LastRow {
        moment: last.at,
        raw: last.raw,
        sf: last.sf,
        total,
    }
}

/// Returns the state of a counter after a meter entry. After a reset or a rescale (a change of the
/// scale factor), the state has the value that the counter was set to.
pub fn counter_after(entry: &EntryRow) -> Last
    ensures { result ≡ rows.counter_after entry.now }
{
    let raw = match entry.kind {
        store_tables::EntryKind::Opening
        | store_tables::EntryKind::Reading
        | store_tables::EntryKind::Manual
        | store_tables::EntryKind::Closing => entry.raw,
        store_tables::EntryKind::Reset | store_tables::EntryKind::Rescale => entry.after,
    };
    Last {
        at: entry.moment,
        raw,
        sf: entry.sf,
    }
}

fn kind(kind: EntryKind) -> store_tables::EntryKind
    ensures { result ≡ rows.kind_as kind }
{
    match kind {
        EntryKind::Reading => store_tables::EntryKind::Reading,
        EntryKind::Manual => store_tables::EntryKind::Manual,
        EntryKind::Closing => store_tables::EntryKind::Closing,
        EntryKind::Reset => store_tables::EntryKind::Reset,
        EntryKind::Rescale => store_tables::EntryKind::Rescale,
    }
}

/// Returns the row of `entries` for a meter entry at index `place`. `sf` is the counter's scale
/// factor after the entry.
pub fn entry_row(of: EntryKind, entry: Entry, place: u64, sf: &i16) -> EntryRow
    ensures row { result ≡ rows.entry_row sf.now
        (record { place = place; kind = of; entry = entry; stands = true }) }
    ensures sound { IsPlace place → moment_of entry ≤ latest_moment → IsTrue (is_within 3 sf.now)
        → IsSoundEntry result }
{
    match entry {
        Entry::Step { at, raw, rolls } => EntryRow {
            place,
            kind: kind(of),
            moment: at,
            raw,
            rolls,
            after: 0,
            sf: *sf,
        },
        Entry::Change {
            at,
            before,
            after,
            ..
        } => EntryRow {
            place,
            kind: kind(of),
            moment: at,
            raw: before,
            rolls: 0,
            after,
            sf: *sf,
        },
    }
}

/// Returns true if a scale factor is from -3 to 3, the range that counters and the tables allow.
pub fn is_scale(sf: i16) -> bool
    ensures within { result ≡ is_within 3 sf }
    ensures lawful { IsTrue result → IsScale sf }
{
    MIN_SCALE <= sf && sf <= MAX_SCALE
}

/// Returns true if every number in an opening, the record that installs a meter, is in the range of
/// its column.
pub fn is_sound_opening(opening: &Opening) -> bool
    ensures { result ≡ true → IsSoundOpening opening.now }
{
    1 <= opening.ceiling
        && opening.ceiling <= MAX_CEILING
        && MIN_RANGE <= opening.range
        && opening.range <= MAX_RANGE
        && opening.at <= LATEST_MOMENT
        && is_scale(opening.sf)
}

/// Returns the row of `installations` for a new meter at index `place`.
pub fn begun_row(opening: &Opening, place: u64) -> InstallationRow
    ensures row { result ≡ (rows.installed_as place (rows.begun opening.now)).row }
    ensures sound { IsPlace place → IsSoundOpening opening.now → IsSoundInstallation result }
{
    let opening = *opening;
    InstallationRow {
        place,
        ceiling: opening.ceiling,
        is_ended: false,
        last: LastRow {
            moment: opening.at,
            raw: opening.raw,
            sf: opening.sf,
            total: 0,
        },
    }
}

/// Returns the row of `entries` for an opening, the record that installs a meter. This row is the
/// meter's first entry, at index 1.
pub fn opening_row(opening: &Opening) -> EntryRow
    ensures row { result ≡ rows.opening_row opening.now }
    ensures sound { IsSoundOpening opening.now → IsSoundEntry result }
{
    let opening = *opening;
    EntryRow {
        place: 1,
        kind: store_tables::EntryKind::Opening,
        moment: opening.at,
        raw: opening.raw,
        rolls: 0,
        after: 0,
        sf: opening.sf,
    }
}

/// Returns the row of `polls` for a poll.
pub fn poll_row(poll: Poll) -> PollRow
    ensures row { result ≡ (rows.started poll).row }
    ensures sound { IsPlace poll.number → poll.at ≤ latest_moment → IsSoundPoll result }
{
    PollRow {
        number: poll.number,
        unit: poll.unit,
        started: poll.at,
        id: poll.id,
        function: poll.span.function,
        address: poll.span.address,
        count: poll.span.count,
    }
}

/// Returns the row of `outcomes` for the outcome of a poll.
pub fn outcome_row(ended: EndedPoll) -> OutcomeRow
    ensures { result ≡ rows.outcome_row ended }
{
    OutcomeRow {
        poll: ended.poll,
        moment: ended.at,
        outcome: ended.outcome,
    }
}

/// Returns the row of `holds` for a rejected reading at index `place`.
pub fn hold_row(held: HeldReading, place: u64) -> RejectedRow
    ensures { result ≡ (rows.held_row place held).row }
{
    RejectedRow {
        place,
        poll: held.poll,
        moment: held.at,
        raw: held.raw,
        sf: held.sf,
        cause: held.cause,
    }
}
