//! Lookups by a name that is `None` if the caller's text was not a valid name.
ghost use Rattle.std.specs.Prelude.{◌≡◌};
ghost use Rattle.std.specs.Option.{option_and_then};
ghost use Rattle.office_books.specs.Facts.{list_of};
ghost use Rattle.office_books.specs.Meters.{installation_at};
ghost use Rattle.office_books.specs.Ledgers.{Finds, OnlyReads};
ghost use Rattle.office_books.specs.Sound.{ReadsInstallation};
ghost use Rattle.office_books.specs.Plans.{read_count_of, reads_from};

use crate::books::Books;
use crate::faults::BooksFault;
use mb_wire::ReadSpan;
use office_events::{Installation, Name, PlannedList};
use std::alloc::Global;

/// Returns the point list (the Modbus registers to read) of the named device, or `None` if the name
/// is invalid or the device has no point list.
pub fn list_at<B: Books>(
    books: &mut B,
    given: &Option<Name>,
) -> Result<Option<PlannedList>, BooksFault>
    ensures found { Finds (B.ledger books.old) (B.ledger books.new) result
        (λ known list. list ≡ option_and_then (list_of known) given.now) }
    ensures reads { OnlyReads (B.ledger books.old) (B.ledger books.new) result }
{
    match given {
        None => Ok(None),
        Some(device) => books.list(device),
    }
}

/// Returns the number of reads in the named device's plan (the Modbus reads that cover its point
/// list). Returns `None` if the name is invalid or the device has no point list.
pub fn read_count_at<B: Books>(
    books: &mut B,
    given: &Option<Name>,
) -> Result<Option<usize>, BooksFault>
    ensures found { Finds (B.ledger books.old) (B.ledger books.new) result
        (λ known n. n ≡ read_count_of (option_and_then (list_of known) given.now)) }
    ensures reads { OnlyReads (B.ledger books.old) (B.ledger books.new) result }
{
    match given {
        None => Ok(None),
        Some(device) => books.read_count(device),
    }
}

/// Returns at most `most` reads of the named device's plan (the Modbus reads that cover its point
/// list) from index `from` on.
pub fn reads_at<B: Books>(
    alloc: Global,
    books: &mut B,
    given: &Option<Name>,
    from: u64,
    most: usize,
) -> Result<Vec<ReadSpan>, BooksFault>
    ensures found { Finds (B.ledger books.old) (B.ledger books.new) result
        (λ known v. v.items ≡ reads_from from most (option_and_then (list_of known) given.now)) }
    ensures reads { OnlyReads (B.ledger books.old) (B.ledger books.new) result }
{
    match given {
        None => Ok(Vec::new(alloc)),
        Some(device) => books.reads(device, from, most),
    }
}

/// Returns the latest meter that was installed at the named accounting register (an energy
/// counter), with its state. Returns `None` if the name is invalid or no meter was installed there.
pub fn meter_at<B: Books>(
    books: &mut B,
    given: &Option<Name>,
) -> Result<Option<Installation>, BooksFault>
    ensures found { Finds (B.ledger books.old) (B.ledger books.new) result
        (λ known row. row ≡ option_and_then (installation_at known) given.now) }
    ensures reads { ReadsInstallation (B.ledger books.old) (B.ledger books.new) result }
{
    match given {
        None => Ok(None),
        Some(register) => books.installation(register),
    }
}
