//! Builds an entry of a meter from its row and the nearest rows before and after it that are not
//! voided (cancelled), instead of reading all rows of the meter.
ghost use Rattle.std.specs.Prelude.{◌≡◌, ◌≤◌, false, IfOk, IfSome, IsUtf8};
ghost use Rattle.office_books.specs.Lawful.{AreLawful};
ghost use Rattle.office_books.specs.Ranges.{IsSound};
ghost use Rattle.office_books.specs.Near.{ReportsNear};
ghost use Rattle.store_tables.specs.Limits.{greatest_place};
ghost use Rattle.office_store.specs.Finding.Finding.{Finds};
ghost use Rattle.office_store.specs.Metering.Sound.{HasReadableMeters, HasReadableJournals};
ghost use Rattle.office_store.specs.Metering.Entries.{ReportsVoided};
ghost use Rattle.office_store.specs.Metering.Around.{IsBefore, IsAfter, AreSides, ByVoids};
ghost use Rattle.office_store.specs.Metering.Around.{FindsAt, FindsAround, next_from, IsSeen};
ghost use Rattle.office_store.specs.Metering.Around.{stood, ReportsOf, ReportsRightly};

use crate::metering::entries::{entry, voids};
use crate::metering::journal::{entry_row, is_voided};
use crate::metering::meters::meter;
use crate::{counter_after, text};
use meter_journal::{journals_are_kept, places_were_kept, rows_are_kept, voids_change_two_rows};
use office_books::{is_sound, journals_fit, with_whole_energy};
use office_events::{EntryContext, Installation, Name};
use sqlite::{Alter, Connection, Row};
use std::alloc::Global;
use store_tables::{EntryRow, GREATEST_PLACE, RowFault, check_open, entry_at};

/// The indices of the nearest entries before and after a meter entry that are not voided
/// (cancelled), and whether the meter entry itself is not voided.
#[derive(Clone, Copy)]
pub(crate) struct Sides {
    pub before: u64,
    pub after: u64,
    pub stands: bool,
}

/// The row of a meter entry, and the rows of the nearest entries before and after it that are not
/// voided (cancelled). `before` may be the meter's first entry, made at its installation.
#[derive(Clone, Copy)]
pub(crate) struct Around {
    pub entry: EntryRow,
    pub before: EntryRow,
    pub next: Option<EntryRow>,
}

/// Returns true if one of `voids`, the rows that cancel readings, cancels the entry at index
/// `place`. Returns None if a row of `voids` can't be parsed.
fn is_named(voids: &[Row], place: u64) -> Option<bool>
    ensures { IfSome result (ReportsVoided voids.now place) }
{
    match is_voided(voids, place) {
        Ok(is) => Some(is),
        Err(_) => None,
    }
}

/// Returns the index of the last entry before `place` that no row of `voids` cancels, or 1 for the
/// meter's first entry. Returns None if a row of `voids` can't be parsed.
fn place_before(voids: &[Row], place: u64) -> Option<u64>
    requires following { 2 ≤ place }
    ensures before { IfSome result (λ n. ByVoids (λ vs. IsBefore vs place n) voids.now) }
    ensures low { IfSome result (λ n. n ≤ place) }
{
    for passed in 1..place - 1 {
        let before = place - passed;
        if !is_named(voids, before)? {
            return Some(before);
        }
    }
    Some(1)
}

/// Returns the first index after `place` that no row of `voids` cancels. Returns None if a row of
/// `voids` can't be parsed, or if every later index is cancelled.
fn place_after(voids: &[Row], place: u64) -> Option<u64>
    requires place { place ≤ greatest_place }
    ensures after { IfSome result (λ n. ByVoids (λ vs. IsAfter vs place n) voids.now) }
    ensures small { IfSome result (λ n. n ≤ greatest_place) }
{
    for after in place + 1..GREATEST_PLACE + 1 {
        if !is_named(voids, after)? {
            return Some(after);
        }
    }
    None
}

/// Returns the indices of the nearest entries before and after `place` that are not voided
/// (cancelled), and whether the entry at `place` is not voided. Returns None if a row of `voids`
/// can't be parsed, or if `place` is 1 or less, or above the greatest index.
fn sides_of(voids: &[Row], place: u64) -> Option<Sides>
    ensures following { IfSome result (λ sides. 2 ≤ place) }
    ensures place { IfSome result (λ sides. place ≤ greatest_place) }
    ensures sides { IfSome result (λ sides. ByVoids (λ vs. AreSides vs place sides) voids.now) }
    ensures before { IfSome result (λ sides. sides.before ≤ greatest_place) }
    ensures after { IfSome result (λ sides. sides.after ≤ greatest_place) }
{
    if place < 2 || GREATEST_PLACE < place {
        return None;
    }
    let before = place_before(voids, place)?;
    let after = place_after(voids, place)?;
    let stands = !is_named(voids, place)?;
    Some(Sides {
        before,
        after,
        stands,
    })
}

/// Queries the row of a meter's entry at index `place`.
fn row_there<S: Alter>(
    conn: &mut Connection<S>,
    meter: &str,
    place: u64,
) -> Result<Option<EntryRow>, RowFault>
    requires idle { conn.old.in_transaction ≡ false }
    requires place { place ≤ greatest_place }
    ensures { Finds S.Store conn.old conn.new result (FindsAt meter.now place)
        HasReadableMeters }
{
    check_open(conn)?;
    entry_at(conn, meter, place)
}

/// Queries the row of the meter entry at `place`, and the rows of the entries before and after it
/// at the indices in `sides`. Returns None if the row of the entry, or the row before it, is
/// missing.
fn rows_around<S: Alter>(
    conn: &mut Connection<S>,
    meter: &str,
    place: u64,
    sides: Sides,
) -> Result<Option<Around>, RowFault>
    requires idle { conn.old.in_transaction ≡ false }
    requires place { place ≤ greatest_place }
    requires before { sides.before ≤ greatest_place }
    requires after { sides.after ≤ greatest_place }
    ensures { Finds S.Store conn.old conn.new result
        (λ facts found. IfSome found (FindsAround meter.now place sides.before sides.after facts))
        HasReadableMeters }
{
    let Some(entry) = row_there(conn, meter, place)? else {
        return Ok(None);
    };
    let Some(before) = row_there(conn, meter, sides.before)? else {
        return Ok(None);
    };
    let next = row_there(conn, meter, sides.after)?;
    Ok(Some(Around {
        entry,
        before,
        next,
    }))
}

/// Converts the row of the next entry that is not voided (cancelled) to a row of the meter's
/// journal, its history.
fn next_row(next: &Option<EntryRow>) -> Option<meter_journal::EntryRow>
    ensures { result ≡ next_from next.now }
{
    match next {
        None => None,
        Some(next) => entry_row(*next, true),
    }
}

/// Returns the state of a meter with the counter's state after the entry `before`. The energy in
/// this state is the meter's total energy, because the energy up to `before` is not known.
fn stood_after(whole: &Installation, before: &EntryRow) -> Installation
    ensures { result ≡ stood whole.now before.now }
{
    Installation {
        opening: whole.opening,
        last: counter_after(before),
        total: whole.total,
        ended: whole.ended,
    }
}

/// Builds a meter entry from its row and the rows before and after it. Returns None if the row is a
/// meter's first entry, or if a number is out of its range.
fn seen(whole: &Installation, around: &Around, stands: bool) -> Option<EntryContext>
    ensures seen { IfSome result (IsSeen whole.now around.now stands) }
    ensures sound { IfSome result (λ found. IsSound found.before) }
{
    let row = entry_row(around.entry, stands)?;
    let next = next_row(&around.next);
    let before = stood_after(whole, &around.before);
    if !is_sound(&before) {
        return None;
    }
    Some(EntryContext { before, row, next })
}

/// Returns the meter entry at index `place` from its row and the nearest rows before and after it.
/// Returns None if these rows don't determine the entry.
fn entry_from_neighbours<S: Alter>(
    conn: &mut Connection<S>,
    meter: &str,
    whole: &Installation,
    place: u64,
) -> Result<Option<EntryContext>, RowFault>
    requires { conn.old.in_transaction ≡ false }
    ensures finds { Finds S.Store conn.old conn.new result
        (ReportsRightly meter.now place whole.now) HasReadableJournals }
    ensures sound { IfOk result (λ found. IfSome found (λ p. IsSound p.before)) }
{
    journals_fit();
    rows_are_kept();
    voids_change_two_rows();
    journals_are_kept();
    places_were_kept();
    let voids = voids(conn, meter)?;
    let Some(sides) = sides_of(&voids, place) else {
        return Ok(None);
    };
    let Some(around) = rows_around(conn, meter, place, sides)? else {
        return Ok(None);
    };
    Ok(seen(whole, &around, sides.stands))
}

/// Returns the meter entry at index `place` from all rows of the meter in `entries`.
fn entry_from_all_rows<S: Alter>(
    alloc: Global,
    conn: &mut Connection<S>,
    name: &Name,
    whole: &Installation,
    place: u64,
) -> Result<Option<EntryContext>, RowFault>
    requires idle { conn.old.in_transaction ≡ false }
    requires sound { IsSound whole.now }
    ensures finds { Finds S.Store conn.old conn.new result
        (λ facts found. AreLawful facts → ReportsOf name.now place whole.now facts found)
        (λ facts. IsUtf8 name.now × HasReadableJournals facts) }
    ensures sound { IfOk result (λ found. IfSome found (λ p. IsSound p.before)) }
{
    journals_are_kept();
    places_were_kept();
    match entry(alloc, conn, name, place)? {
        None => Ok(None),
        Some(found) => Ok(Some(with_whole_energy(&found, whole))),
    }
}

/// Returns the meter entry at index `place`, with the meter's total energy instead of the energy
/// before the entry. Reads the meter's voids (cancellations of entries), the entry's row, and the
/// nearest rows before and after it. If these rows don't determine the entry, reads all entries of
/// the meter.
pub fn entry_near<S: Alter>(
    alloc: Global,
    conn: &mut Connection<S>,
    name: &Name,
    place: u64,
) -> Result<Option<EntryContext>, RowFault>
    requires { conn.old.in_transaction ≡ false }
    ensures finds { Finds S.Store conn.old conn.new result
        (λ facts found. ReportsNear facts name.now place found)
        (λ facts. IsUtf8 name.now × HasReadableJournals facts) }
    ensures sound { IfOk result (λ found. IfSome found (λ p. IsSound p.before)) }
{
    journals_are_kept();
    places_were_kept();
    let text = text(name)?;
    let Some(whole) = meter(conn, name)? else {
        return Ok(None);
    };
    match entry_from_neighbours(conn, text, &whole, place)? {
        Some(found) => Ok(Some(found)),
        None => entry_from_all_rows(alloc, conn, name, &whole, place),
    }
}
