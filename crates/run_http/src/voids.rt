//! The response to a query for the voided entries of a meter, which were withdrawn as false.
ghost use Rattle.std.specs.Prelude.{◌≡◌, ◌++◌, ◌∷◌, [], OnOk};
ghost use Rattle.run_http.specs.MeterReplies.{AsksRows, RepliesRows, with_rows_reply};
ghost use Rattle.run_http.specs.Texts.MeterLines.{voids_text};
ghost use Rattle.run_http.specs.Voids as voids;
ghost use Rattle.run_http.specs.Voids.{voids_of};

use crate::route::append_reply;
use crate::site::append_refusal;
use crate::texts::write_voids;
use office_books::{Books, MeterEntry};
use office_core::Office;
use office_events::{Name, Refusal};
use office_http::messages::Status;
use std::alloc::{AllocError, Global};

// One query returns at most 65,536 entries, and one response uses at most 2^48 - 1 queries: nearly
// 2^64 entries in all.
const PIECE: u32 = 65536;

const MOST_PIECES: u64 = 281_474_976_710_655;

fn is_voided(entry: &MeterEntry) -> bool
    ensures { result ≡ voids.is_voided entry.now }
{
    match entry {
        MeterEntry::Opening(_) => false,
        MeterEntry::Later { row, .. } => !row.stands,
    }
}

fn keep_if_voided(kept: &mut Vec<MeterEntry>, entry: &MeterEntry) -> Result<(), AllocError>
    ensures { OnOk result (kept.new.items
        ≡ kept.old.items ++ voids.voided_in (entry.now ∷ [])) }
{
    if is_voided(entry) {
        kept.push(*entry)?;
    }
    Ok(())
}

// Appends the voided (withdrawn) entries among the entries in `piece` to the list `kept`.
fn keep_voided(kept: &mut Vec<MeterEntry>, piece: &[MeterEntry]) -> Result<(), AllocError>
    ensures { OnOk result (kept.new.items ≡ kept.old.items ++ voids.voided_in piece.now) }
{
    for entry in piece {
        keep_if_voided(kept, entry)?;
    }
    Ok(())
}

// Queries all entries of a meter in chunks of 65,536, and collects the voided (withdrawn) entries.
fn ask_voids<B: Books>(
    alloc: Global,
    office: &mut Office<B>,
    meter: &Option<Name>,
) -> Result<Result<Vec<MeterEntry>, Refusal>, AllocError>
    ensures { AsksRows B.ledger office.old office.new (λ facts. voids_of facts meter.now) result }
{
    let mut kept = Vec::new(alloc);
    for turn in 0..MOST_PIECES {
        match office.entries(meter, turn * 65536 + 1, PIECE) {
            Err(why) => return Ok(Err(why)),
            Ok(piece) => {
                keep_voided(&mut kept, &piece)?;
                if piece.len() < 65536 {
                    return Ok(Ok(kept));
                }
            }
        }
    }
    Err(AllocError)
}

// Appends the response with the voided entries of a meter, or an error response if the program
// refused the query.
fn write_reported_voids(
    alloc: Global,
    text: &mut Vec<u8>,
    answer: &Result<Vec<MeterEntry>, Refusal>,
) -> Result<(), AllocError>
    ensures { OnOk result (text.new.items
        ≡ with_rows_reply voids_text answer.now text.old.items) }
{
    match answer {
        Ok(entries) => {
            let mut body = Vec::new(alloc);
            write_voids(&mut body, entries)?;
            append_reply(text, Status::Fine, b"text/plain", &body)
        }
        Err(why) => append_refusal(text, *why),
    }
}

/// Collects the voided (withdrawn) entries of a meter, and appends the response. Each query of the
/// store returns up to 65,536 entries. If memory runs out, only a part of the response was
/// appended.
pub fn reply_voids<B: Books>(
    alloc: Global,
    text: &mut Vec<u8>,
    office: &mut Office<B>,
    meter: &Option<Name>,
) -> Result<(), AllocError>
    ensures { RepliesRows B.ledger office.old office.new (λ facts. voids_of facts meter.now)
        voids_text text.old.items text.new.items result }
{
    let answer = ask_voids(alloc, office, meter)?;
    write_reported_voids(alloc, text, &answer)
}
