//! Finds the state of a meter's counter at its last valid (not voided) entry up to a timestamp. A
//! new database file continues the meter from this state.
ghost use Rattle.std.specs.Prelude.{◌≡◌, ◌++◌, ◌∷◌, [], List};
ghost use Rattle.office_books.specs.Entries.{all_entries};
ghost use Rattle.office_books.specs.Ledgers.{Consults, Finds};
ghost use Rattle.office_books.specs.declared.entries.MeterEntry.{MeterEntry as Listed};
ghost use Rattle.carried_books.specs.Carrying.Standings as standings;

use energy_core::{Entry, Last};
use office_books::{Books, BooksFault, MeterEntry};
use office_events::Name;

// The number of entries in one database query. `MOST_PIECES` is the largest number of queries whose
// entry indexes all fit in 64 bits.
const PIECE: u32 = 65536;

const MOST_PIECES: u64 = 281_474_976_710_655;

// Returns whether the timestamp `at` is not later than `until`. If `until` is `None`, the result is
// true.
fn is_until(until: Option<u64>, at: u64) -> bool
    ensures { result ≡ standings.is_until until at }
{
    match until {
        Some(until) => at <= until,
        None => true,
    }
}

// Returns the state of a meter's counter after an entry of the meter.
fn shown(entry: &MeterEntry) -> Last
    ensures { result ≡ standings.shown_by entry.now }
{
    match entry {
        MeterEntry::Opening(last) => *last,
        MeterEntry::Later { row, sf } => match row.entry {
            Entry::Step { at, raw, .. } => Last { at, raw, sf: *sf },
            Entry::Change { at, after, .. } => Last {
                at,
                raw: after,
                sf: *sf,
            },
        },
    }
}

fn is_valid(entry: &MeterEntry) -> bool
    ensures { result ≡ standings.stands entry.now }
{
    match entry {
        MeterEntry::Opening(_) => true,
        MeterEntry::Later { row, .. } => row.stands,
    }
}

// Returns whether a meter entry is valid (not voided) and not later than `until`.
fn counts(until: Option<u64>, entry: &MeterEntry) -> bool
    ensures { result ≡ standings.counts until entry.now }
{
    is_valid(entry) && is_until(until, shown(entry).at)
}

// Returns the last state of a meter's counter after one more entry. If the entry is voided
// (cancelled) or later than `until`, returns `found`, the state before this entry.
fn last_with(found: Option<Last>, until: Option<u64>, entry: &MeterEntry) -> Option<Last>
    ensures { (before : List Listed) → found ≡ standings.last_among until before
        → result ≡ standings.last_among until (before ++ entry.now ∷ []) }
{
    if counts(until, entry) {
        Some(shown(entry))
    } else {
        found
    }
}

// Returns the last state of a meter's counter after further entries. If each of these entries is
// voided (cancelled) or later than `until`, returns `found`, the state before these entries.
fn last_after(found: Option<Last>, until: Option<u64>, entries: &[MeterEntry]) -> Option<Last>
    ensures { (before : List Listed) → found ≡ standings.last_among until before
        → result ≡ standings.last_among until (before ++ entries.now) }
{
    let mut last = found;
    for entry in entries {
        last = last_with(last, until, entry);
    }
    last
}

// Returns the state of a meter's counter at its last valid (not voided) entry up to `until`; `None`
// if the meter has no such entry. The entries are queried in chunks.
fn last_in_pieces<B: Books>(
    books: &mut B,
    meter: &Name,
    until: Option<u64>,
) -> Result<Option<Last>, BooksFault>
    ensures found { Finds (B.ledger books.old) (B.ledger books.new) result
        (λ known last. last ≡ standings.last_until known until meter.now) }
    ensures reads { Consults (B.ledger books.old) (B.ledger books.new) result }
{
    let mut last = None;
    for turn in 0..MOST_PIECES {
        let piece = books.entries(meter, turn * 65536 + 1, PIECE)?;
        last = last_after(last, until, &piece);
        if piece.len() < 65536 {
            return Ok(last);
        }
    }
    Err(BooksFault::Memory)
}

/// Returns the state of a meter's counter at its last valid (not voided) entry up to `until`;
/// `None` if the meter has no such entry.
pub fn last_until<B: Books>(
    books: &mut B,
    meter: &Name,
    until: Option<u64>,
) -> Result<Option<Last>, BooksFault>
    ensures found { Finds (B.ledger books.old) (B.ledger books.new) result
        (λ known last. last ≡ standings.last_until known until meter.now) }
    ensures reads { Consults (B.ledger books.old) (B.ledger books.new) result }
{
    match books.meter(meter)? {
        None => Ok(None),
        Some(row) => {
            if is_until(until, row.last.at) {
                Ok(Some(row.last))
            } else {
                last_in_pieces(books, meter, until)
            }
        }
    }
}
