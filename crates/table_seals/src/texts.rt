//! Writes the text of a seal, which has digests of earlier records. Also writes the text of a
//! meter's entries from which a seal's digest is computed.
ghost use Rattle.std.specs.Prelude.{◌≡◌, ◌++◌, OnOk, IfOk, flat_map, decimal};
ghost use Rattle.std.specs.Fmt.{signed_decimal};
ghost use Rattle.hex.specs.Hex.{encode_lower};
ghost use Rattle.sha2.specs.Sha256.{sha256};
ghost use Rattle.table_seals.specs.Sealed.{sealed_of, sealed_polls_of, sealed_tables_of};
ghost use Rattle.table_seals.specs.Texts as say;

use crate::seals::{MeterSeal, MonthSeal, PollSeal, Seal};
use itoa::Buffer;
use meter_journal::audit::{RowKind, TableRow};
use sha2::{Digest, Sha256};
use std::alloc::{AllocError, Global};
use table_audit::VoidRow;

// The following functions append parts of a seal's text. If memory runs out, the text is
// incomplete.

pub(crate) fn append_bytes(text: &mut Vec<u8>, bytes: &[u8]) -> Result<(), AllocError>
    ensures { OnOk result (text.new.items ≡ text.old.items ++ bytes.now) }
{
    text.extend_from_slice(bytes)
}

pub(crate) fn write_word(text: &mut Vec<u8>, before: &[u8], word: &[u8]) -> Result<(), AllocError>
    ensures { OnOk result (text.new.items ≡ text.old.items ++ before.now ++ word.now) }
{
    append_bytes(text, before)?;
    append_bytes(text, word)
}

pub(crate) fn write_number(text: &mut Vec<u8>, before: &[u8], number: u64) -> Result<(), AllocError>
    ensures { OnOk result (text.new.items ≡ text.old.items ++ before.now ++ decimal number) }
{
    append_bytes(text, before)?;
    let mut buffer = Buffer::new();
    append_bytes(text, buffer.format(number).as_bytes())
}

pub(crate) fn write_scale(text: &mut Vec<u8>, before: &[u8], sf: i16) -> Result<(), AllocError>
    ensures { OnOk result (text.new.items ≡ text.old.items ++ before.now ++ signed_decimal sf) }
{
    let mut buffer = Buffer::new();
    write_word(text, before, buffer.format(sf).as_bytes())
}

fn write_digest(alloc: Global, text: &mut Vec<u8>, digest: &[u8]) -> Result<(), AllocError>
    ensures { OnOk result (text.new.items ≡ text.old.items ++ encode_lower digest.now) }
{
    let hex = hex::encode(alloc, digest)?;
    append_bytes(text, hex.as_bytes())
}

// The following functions append the text of a meter's entries that a seal digests.

fn kind_word(kind: RowKind) -> &'static [u8]
    ensures { result.now ≡ say.kind_word kind }
{
    match kind {
        RowKind::Opening => b" opening ",
        RowKind::Reading => b" reading ",
        RowKind::Manual => b" manual ",
        RowKind::Closing => b" closing ",
        RowKind::Reset => b" reset ",
        RowKind::Rescale => b" rescale ",
    }
}

fn write_rolls(text: &mut Vec<u8>, kind: RowKind, rolls: u8) -> Result<(), AllocError>
    ensures { OnOk result (text.new.items ≡ text.old.items ++ say.own_rolls kind rolls) }
{
    match kind {
        RowKind::Reading => Ok(()),
        RowKind::Opening | RowKind::Manual | RowKind::Closing | RowKind::Reset | RowKind::Rescale =>
            write_number(text, b" ", u64::from(rolls)),
    }
}

fn write_entry(text: &mut Vec<u8>, entry: &TableRow) -> Result<(), AllocError>
    ensures { OnOk result (text.new.items ≡ text.old.items ++ say.entry_line entry.now) }
{
    write_number(text, b"", entry.place)?;
    write_number(text, kind_word(entry.kind), entry.moment)?;
    write_number(text, b" ", u64::from(entry.raw))?;
    write_number(text, b" ", u64::from(entry.after))?;
    write_scale(text, b" ", entry.sf)?;
    write_rolls(text, entry.kind, entry.rolls)?;
    append_bytes(text, b"\n")
}

fn write_entries(text: &mut Vec<u8>, entries: &[TableRow]) -> Result<(), AllocError>
    ensures { OnOk result (text.new.items ≡ text.old.items ++ say.entries_text entries.now) }
{
    for entry in entries {
        write_entry(text, entry)?;
    }
    Ok(())
}

/// Returns the SHA-256 digest of the text of a meter's entries.
pub(crate) fn digest_of(alloc: Global, entries: &[TableRow]) -> Result<[u8; 32], AllocError>
    ensures { IfOk result (λ digest. digest ≡ sha256 (say.entries_text entries.now)) }
{
    let mut text = Vec::new(alloc);
    write_entries(&mut text, entries)?;
    Ok(Sha256::digest(text.as_slice()))
}

// The following functions append the text of a seal, which has digests of a file's records.

fn write_setup_line(text: &mut Vec<u8>, line: &[u8]) -> Result<(), AllocError>
    ensures { OnOk result (text.new.items ≡ text.old.items ++ say.setup_line line.now) }
{
    append_bytes(text, line)?;
    append_bytes(text, b"\n")
}

fn write_setup(text: &mut Vec<u8>, setup: &[Vec<u8>]) -> Result<(), AllocError>
    ensures { OnOk result
        (text.new.items ≡ text.old.items ++ flat_map say.setup_line_of setup.now) }
{
    for line in setup {
        write_setup_line(text, line.as_slice())?;
    }
    Ok(())
}

fn write_meter_line(alloc: Global, text: &mut Vec<u8>, seal: &MeterSeal) -> Result<(), AllocError>
    ensures { OnOk result (text.new.items ≡ text.old.items ++ say.meter_line (sealed_of seal.now)) }
{
    write_word(text, b"meter ", seal.meter.as_bytes())?;
    write_number(text, b" number ", seal.place)?;
    write_word(text, b" at ", seal.register.as_bytes())?;
    write_number(text, b" range ", seal.range)?;
    write_number(text, b" ceiling ", seal.ceiling)?;
    write_number(text, b" entries ", seal.entries)?;
    append_bytes(text, b" sha256 ")?;
    write_digest(alloc, text, &seal.digest)?;
    append_bytes(text, b"\n")
}

fn write_void(text: &mut Vec<u8>, meter: &[u8], void: VoidRow) -> Result<(), AllocError>
    ensures { OnOk result (text.new.items ≡ text.old.items ++ say.void_line meter.now void) }
{
    write_word(text, b"void ", meter)?;
    write_number(text, b" ", void.place)?;
    write_number(text, b" at ", void.moment)?;
    append_bytes(text, b"\n")
}

fn write_voids(text: &mut Vec<u8>, meter: &[u8], voids: &[VoidRow]) -> Result<(), AllocError>
    ensures { OnOk result
        (text.new.items ≡ text.old.items ++ flat_map (say.void_line meter.now) voids.now) }
{
    for void in voids {
        write_void(text, meter, *void)?;
    }
    Ok(())
}

fn write_month(text: &mut Vec<u8>, meter: &[u8], month: &MonthSeal) -> Result<(), AllocError>
    ensures { OnOk result
        (text.new.items ≡ text.old.items ++ say.month_line_of meter.now month.now) }
{
    write_word(text, b"month ", meter)?;
    write_word(text, b" ", month.month.as_slice())?;
    write_number(text, b" ", month.mwh)?;
    append_bytes(text, b"\n")
}

fn write_months(text: &mut Vec<u8>, meter: &[u8], months: &[MonthSeal]) -> Result<(), AllocError>
    ensures { OnOk result
        (text.new.items ≡ text.old.items ++ flat_map (say.month_line_of meter.now) months.now) }
{
    for month in months {
        write_month(text, meter, month)?;
    }
    Ok(())
}

fn append_meter(alloc: Global, text: &mut Vec<u8>, seal: &MeterSeal) -> Result<(), AllocError>
    ensures { OnOk result (text.new.items ≡ text.old.items ++ say.text_of seal.now) }
{
    write_meter_line(alloc, text, seal)?;
    write_voids(text, seal.meter.as_bytes(), seal.voids.as_slice())?;
    write_months(text, seal.meter.as_bytes(), seal.months.as_slice())?;
    Ok(())
}

fn write_meters(alloc: Global, text: &mut Vec<u8>, seals: &[MeterSeal]) -> Result<(), AllocError>
    ensures { OnOk result
        (text.new.items ≡ text.old.items ++ flat_map say.text_of seals.now) }
{
    for seal in seals {
        append_meter(alloc, text, seal)?;
    }
    Ok(())
}

fn write_polls_line(alloc: Global, text: &mut Vec<u8>, seal: &PollSeal) -> Result<(), AllocError>
    ensures { OnOk result
        (text.new.items ≡ text.old.items ++ say.polls_line (sealed_polls_of seal.now)) }
{
    write_number(text, b"polls ", seal.count)?;
    append_bytes(text, b" sha256 ")?;
    write_digest(alloc, text, &seal.digest)?;
    append_bytes(text, b"\n")
}

fn write_pending_line(text: &mut Vec<u8>, poll: u64) -> Result<(), AllocError>
    ensures { OnOk result (text.new.items ≡ text.old.items ++ say.pending_line poll) }
{
    write_number(text, b"pending ", poll)?;
    append_bytes(text, b"\n")
}

fn write_pending(text: &mut Vec<u8>, polls: &[u64]) -> Result<(), AllocError>
    ensures { OnOk result
        (text.new.items ≡ text.old.items ++ flat_map say.pending_line polls.now) }
{
    for poll in polls {
        write_pending_line(text, *poll)?;
    }
    Ok(())
}

fn write_polls_part(alloc: Global, text: &mut Vec<u8>, seal: &PollSeal) -> Result<(), AllocError>
    ensures { OnOk result
        (text.new.items ≡ text.old.items ++ say.polls_part (sealed_polls_of seal.now)) }
{
    write_polls_line(alloc, text, seal)?;
    write_pending(text, seal.pending.as_slice())
}

/// Returns the text of a seal (digests of earlier records) without its last line. The last line has
/// the digest of this text.
fn body(alloc: Global, seal: &Seal) -> Result<Vec<u8>, AllocError>
    ensures { IfOk result (λ text. text.items ≡ say.body_text (sealed_tables_of seal.now)) }
{
    let mut text = Vec::new(alloc);
    append_bytes(&mut text, b"seal 3\n")?;
    write_setup(&mut text, seal.setup.as_slice())?;
    write_meters(alloc, &mut text, seal.meters.as_slice())?;
    write_polls_part(alloc, &mut text, &seal.polls)?;
    Ok(text)
}

/// Returns the complete text of a seal. It has the lines of the time zone, the devices and the
/// registers, and those of the meters and the polls. The last line has the digest of all these.
pub fn append_seal(alloc: Global, seal: &Seal) -> Result<Vec<u8>, AllocError>
    ensures { IfOk result (λ text. text.items ≡ say.seal_text (sealed_tables_of seal.now)) }
{
    let mut text = body(alloc, seal)?;
    let digest = Sha256::digest(text.as_slice());
    append_bytes(&mut text, b"sha256 ")?;
    write_digest(alloc, &mut text, &digest)?;
    append_bytes(&mut text, b"\n")?;
    Ok(text)
}
