//! Writes messages about missing parts of a device's setup, such as its point list, after a round
//! of polls.
ghost use Rattle.std.specs.Prelude.{◌≡◌, OnOk, false};
ghost use Rattle.run_http.specs.Status.Advice.Lacks.{LooksUp};
ghost use Rattle.stored_office.specs.Advice.Ends.{has_messages};
ghost use Rattle.stored_office.specs.Advice.Lacking.{PutsLacks, with_lacks};

use crate::advice::ends::has_messages;
use office_books::{Books, BooksFault};
use office_events::Name;
use office_program::PollEnd;
use run_http::status::{DeviceLack, add_lacks, write_lack};
use std::alloc::{AllocError, Global};
use std::io::Write;

// Appends a line to a text for each missing part of a device's setup.
fn write_lacks(text: &mut Vec<u8>, lacks: &[DeviceLack]) -> Result<(), AllocError>
    ensures { OnOk result (text.new.items ≡ with_lacks lacks.now text.old.items) }
{
    for lack in lacks {
        write_lack(text, lack)?;
    }
    Ok(())
}

// Queries the store for missing parts of a device's setup, and appends a line to a text for each
// missing part.
fn write_lacks_of<B: Books>(
    alloc: Global,
    text: &mut Vec<u8>,
    books: &mut B,
    device: &Option<Name>,
) -> Result<(), BooksFault>
    ensures puts { PutsLacks (B.ledger books.old) (B.ledger books.new) device.now
        text.old.items text.new.items result }
    ensures looks { LooksUp (B.ledger books.old) (B.ledger books.new) }
{
    let mut lacks = Vec::new(alloc);
    add_lacks(&mut lacks, books, device)?;
    write_lacks(text, &lacks)?;
    Ok(())
}

/// Writes a line for each part of the device's setup that is missing in the store. Writes nothing
/// if the round of polls failed without a refusal. A device name that is not valid counts as an
/// unknown device. If the store, memory or the writer fails, some lines may be missing.
pub fn say_lacks<B: Books, E: Write>(
    alloc: Global,
    books: &mut B,
    device: &str,
    end: PollEnd,
    errors: &mut E,
)
    ensures looks { LooksUp (B.ledger books.old) (B.ledger books.new) }
    ensures silent { has_messages end ≡ false → (errors.new ≡ errors.old) × (books.new ≡ books.old) }
{
    if !has_messages(end) {
        return;
    }
    let mut text = Vec::new(alloc);
    let _found = write_lacks_of(alloc, &mut text, books, &Name::new(device.as_bytes()));
    let _said = errors.write_all(&text);
}
