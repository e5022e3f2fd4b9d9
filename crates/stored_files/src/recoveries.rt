//! Reports on metering records that were recovered from a damaged write-ahead log.
ghost use Rattle.std.specs.Prelude.{◌≡◌, ◌++◌, ℕ, List, [], OnOk, IfOk, codes, decimal, string_bytes};
ghost use Rattle.std.specs.Io.KnownBytes.{Appends};
ghost use Rattle.office_events.specs.declared.facts.Fact.{Fact};
ghost use Rattle.office_store.specs.Database.{HasFile};
ghost use Rattle.stored_files.specs.Recoveries.{HasLatest, IsLatestIn, with_last_entry, with_open_meter, with_open_meters, with_recovered};

use crate::audits::AuditFault;
use itoa::Buffer;
use office_books::Books;
use office_store::{OpenFault, SqlBooks};
use sqlite::{Alter, Connection};
use std::alloc::{AllocError, Global};
use std::io::Write;
use sun_points::Sink;
use table_seals::FiledMeter;

// Maps a fault of opening the store of metering records to an `AuditFault`.
fn opening_fault(fault: OpenFault) -> AuditFault {
    match fault {
        OpenFault::NotOurs => AuditFault::NotOurs,
        OpenFault::Zone => AuditFault::NoText,
        OpenFault::Store => AuditFault::Store,
        OpenFault::Memory => AuditFault::Memory,
    }
}

/// Returns the latest timestamp of the records in a store, in seconds since 1970-01-01 UTC.
pub(crate) fn latest_in_books<S: Alter + Drop>(books: &mut SqlBooks<S>) -> Result<u64, AuditFault>
    ensures { IfOk result (IsLatestIn S.Store books.old) }
{
    match books.latest() {
        Ok(latest) => Ok(latest),
        Err(_) => Err(AuditFault::Store),
    }
}

/// Returns the latest timestamp of the records in a database, in seconds since 1970-01-01 UTC.
pub fn latest_stored<S: Alter + Drop>(
    alloc: Global,
    connection: Connection<S>,
) -> Result<u64, AuditFault>
    ensures { (zone : List ℕ) (facts : List Fact) → HasFile S.Store zone connection facts
        → IfOk result (HasLatest S.Store connection facts) }
{
    match SqlBooks::open(alloc, connection) {
        Ok(books) => {
            let mut books = books;
            latest_in_books(&mut books)
        }
        Err(unopened) => Err(opening_fault(unopened.fault)),
    }
}

fn append_bytes(text: &mut Vec<u8>, bytes: &[u8]) -> Result<(), AllocError>
    ensures { OnOk result (text.new.items ≡ text.old.items ++ bytes.now) }
{
    text.extend_from_slice(bytes)
}

fn write_number(text: &mut Vec<u8>, number: u64) -> Result<(), AllocError>
    ensures { OnOk result (text.new.items ≡ text.old.items ++ decimal number) }
{
    let mut buffer = Buffer::new();
    append_bytes(text, buffer.format(number).as_bytes())
}

// Appends a line with the timestamp of a meter's last recovered entry to the report on recovered
// records.
fn write_last_entry(text: &mut Vec<u8>, meter: &str, at: u64) -> Result<(), AllocError>
    ensures { OnOk result (text.new.items ≡ with_last_entry text.old.items meter.now at) }
{
    append_bytes(text, meter.as_bytes())?;
    append_bytes(text, b" last entry ")?;
    write_number(text, at)?;
    append_bytes(text, b", later ones may be lost\n")
}

// Appends a line with the timestamp of a meter's last recovered entry to the report. Appends
// nothing if the meter is closed, because a closed meter can have no later entries.
fn write_open_meter(text: &mut Vec<u8>, meter: &FiledMeter<'_>) -> Result<(), AllocError>
    ensures { OnOk result (text.new.items ≡ with_open_meter text.old.items meter.now) }
{
    if meter.standing.is_ended {
        Ok(())
    } else {
        write_last_entry(text, meter.meter.as_str(), meter.standing.last.at)
    }
}

fn write_open_meters(text: &mut Vec<u8>, meters: &[FiledMeter<'_>]) -> Result<(), AllocError>
    ensures { OnOk result (text.new.items ≡ with_open_meters text.old.items meters.now) }
{
    for meter in meters {
        write_open_meter(text, meter)?;
    }
    Ok(())
}

// Appends the report on recovered records to a text: the latest timestamp of the records, and a
// line for each open meter. Later entries of an open meter may be missing.
fn append_recovered(
    text: &mut Vec<u8>,
    latest: u64,
    meters: &[FiledMeter<'_>],
) -> Result<(), AllocError>
    ensures { OnOk result (text.new.items ≡ with_recovered text.old.items latest meters.now) }
{
    append_bytes(text, b"latest ")?;
    write_number(text, latest)?;
    append_bytes(text, b"\n")?;
    write_open_meters(text, meters)
}

/// Writes the report on recovered records: the latest timestamp of the records, and a line for each
/// open meter. Later entries of an open meter may be missing.
pub fn write_recovered<W: Write>(
    alloc: Global,
    latest: u64,
    meters: &[FiledMeter<'_>],
    output: &mut W,
) -> Result<(), AuditFault>
    ensures { OnOk result (Appends (W.contents output.old) (W.contents output.new)
        (with_recovered [] latest meters.now)) }
{
    let mut text = Vec::new(alloc);
    if append_recovered(&mut text, latest, meters).is_err() {
        return Err(AuditFault::Memory);
    }
    match output.take_text(text.as_slice()) {
        Ok(()) => Ok(()),
        Err(_) => Err(AuditFault::Output),
    }
}
