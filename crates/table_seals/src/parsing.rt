//! Parses the text of a seal, which has digests of a database's records.
ghost use Rattle.std.specs.Prelude.{◌≡◌, ◌≤◌, ◌<◌, ◌^◌, ◌++◌, ◌∷◌, ◌↔◌, ℕ, List, Err, true, map};
ghost use Rattle.std.specs.Prelude.{codes, length, decimal, IfSome, IfOk, IsSomeAnd, IsTrue};
ghost use Rattle.std.specs.Prelude.{IsUtf8, MatchResult};
ghost use Rattle.hex.specs.Hex.{encode_lower, IsBytes};
ghost use Rattle.table_audit.specs.declared.rows.VoidRow.{VoidRow as TheVoid};
ghost use Rattle.table_seals.specs.Lines.{IsLineOf, IsMonthLineOf, IsPollsLineOf, AreSetup};
ghost use Rattle.table_seals.specs.Lines.{AreVoids, AreMonthLines, AreMeters, ArePending, ArePolls};
ghost use Rattle.table_seals.specs.Lines.{AreTables};
ghost use Rattle.table_seals.specs.Reading.{Begins, BeginsSetup, IsEarlier, IsSetupLine, VoidFits};
ghost use Rattle.table_seals.specs.Reading.{MonthFits, IsSealable, ArePollsSealable, IsSealText};
ghost use Rattle.table_seals.specs.Reading.{AreTablesSealable};
ghost use Rattle.table_seals.specs.Sealed.{Sealed, SealedMonth, SealedPolls, SealedTables};
ghost use Rattle.table_seals.specs.Sealed.{line_bytes, sealed_month_of, sealed_of};
ghost use Rattle.table_seals.specs.Sealed.{sealed_polls_of, sealed_tables_of};
ghost use Rattle.table_seals.specs.Tables as values;
ghost use Rattle.table_seals.specs.Texts as say;

use crate::once::has_each_line_once;
use crate::seals::{MeterSeal, MonthSeal, PollSeal, Seal};
use crate::texts::append_seal;
use std::alloc::{AllocError, Global};
use table_audit::VoidRow;

/// A reason why a text can't be parsed as a seal (digests of earlier records).
#[derive(Clone, Copy, PartialEq, Eq)]
pub enum NoSeal {
    /// The text is a seal of an earlier version of the program. A new seal has to be made.
    Earlier,
    /// The text does not have the format of a seal, the digest in its last line is not that of the
    /// other lines, or a line occurs twice.
    Other,
    Memory,
}

/// The values in the line `meter` of a seal (digests of earlier records).
#[derive(Clone, Copy)]
struct MeterLine<'a> {
    meter: &'a str,
    place: u64,
    register: &'a str,
    range: u64,
    ceiling: u64,
    entries: u64,
    digest: [u8; 32],
}

/// The values in a line `month` of a seal (digests of earlier records): a calendar month and the
/// energy of a meter in it, in mWh.
#[derive(Clone, Copy)]
struct MonthLine<'a> {
    month: &'a str,
    mwh: u64,
}

/// The values in the line `polls` of a seal (digests of earlier records): the number of polls and
/// their digest.
#[derive(Clone, Copy)]
struct PollsLine {
    count: u64,
    digest: [u8; 32],
}

/// Parses a word between the prefix `before` and the character `end`. Returns the word, and the
/// text after `end`.
fn field<'a>(text: &'a str, before: &str, end: char) -> Option<(&'a str, &'a str)>
    requires { end ≤ 32 }
    ensures reads { (word rest : List ℕ) → values.is_word word ≡ true
        → text.now ≡ before.now ++ word ++ end ∷ rest
        → IsSomeAnd result (λ found. (found.0.now ≡ word) × (found.1.now ≡ rest)) }
    ensures parts { IfSome result (λ found.
        text.now ≡ before.now ++ found.0.now ++ end ∷ found.1.now) }
    ensures shorter { IfSome result (λ found. length found.1.now < length text.now) }
    ensures utf8 { IfSome result (λ found. IsUtf8 found.1.now) }
{
    let rest = match text.strip_prefix(before) {
        Some(rest) => rest,
        None => return None,
    };
    rest.split_once(end)
}

/// Parses a decimal number between the prefix `before` and the character `end`. Returns the number,
/// and the text after `end`.
fn number<'a>(text: &'a str, before: &str, end: char) -> Option<(u64, &'a str)>
    requires { end ≤ 32 }
    ensures reads { (n : ℕ) (rest : List ℕ) → n < 2 ^ 64
        → text.now ≡ before.now ++ decimal n ++ end ∷ rest
        → IsSomeAnd result (λ found. (found.0 ≡ n) × (found.1.now ≡ rest)) }
    ensures begins { IfSome result (λ found. Begins before.now text.now) }
    ensures shorter { IfSome result (λ found. length found.1.now < length text.now) }
    ensures utf8 { IfSome result (λ found. IsUtf8 found.1.now) }
{
    match field(text, before, end) {
        Some((word, rest)) => match word.parse::<u64>() {
            Ok(number) => Some((number, rest)),
            Err(_) => None,
        },
        None => None,
    }
}

/// Parses a hexadecimal digest between the prefix `before` and the character `end` into `bytes`.
/// Returns the text after `end`.
fn digest<'a>(text: &'a str, before: &str, end: char, bytes: &mut [u8]) -> Option<&'a str>
    requires ends { end ≤ 32 }
    requires long { length bytes.old ≡ 32 }
    ensures reads { (all rest : List ℕ) → length all ≡ 32 → IsBytes all
        → text.now ≡ before.now ++ encode_lower all ++ end ∷ rest
        → IsSomeAnd result (λ found. (bytes.new ≡ all) × (found.now ≡ rest)) }
    ensures shorter { IfSome result (λ found. length found.now < length text.now) }
    ensures utf8 { IfSome result (λ found. IsUtf8 found.now) }
{
    match field(text, before, end) {
        Some((word, rest)) => match hex::decode_to_slice(word, bytes) {
            Ok(()) => Some(rest),
            Err(_) => None,
        },
        None => None,
    }
}

/// Returns whether a text begins as the line of a time zone, a device or a register.
fn begins_setup(text: &str) -> bool
    ensures { IsTrue result ↔ BeginsSetup text.now }
{
    text.starts_with("zone ") || text.starts_with("device ") || text.starts_with("register ")
}

/// Parses a line of a time zone, a device or a register. Returns the line, and the text after its
/// line end.
fn setup_line<'a>(text: &'a str) -> Option<(&'a str, &'a str)>
    ensures reads { (line rest : List ℕ) → IsSetupLine line
        → text.now ≡ say.setup_line line ++ rest
        → IsSomeAnd result (λ found. (found.0.now ≡ line) × (found.1.now ≡ rest)) }
    ensures begins { IfSome result (λ found. BeginsSetup text.now) }
    ensures shorter { IfSome result (λ found. length found.1.now < length text.now) }
    ensures utf8 { IfSome result (λ found. IsUtf8 found.1.now) }
{
    if !begins_setup(text) {
        return None;
    }
    text.split_once('\n')
}

/// Parses the lines of a time zone, devices and registers. Returns the lines, and the text after
/// them.
fn setup<'a>(alloc: Global, text: &'a str) -> Result<(Vec<Vec<u8>>, &'a str), AllocError>
    ensures reads { (lines : List (List ℕ)) (rest : List ℕ) → AreSetup lines rest text.now
        → IfOk result (λ read.
        (map line_bytes read.0.items ≡ lines) × (read.1.now ≡ rest)) }
    ensures utf8 { IfOk result (λ read. IsUtf8 read.1.now) }
{
    let mut lines = Vec::new(alloc);
    let mut rest = text;
    while let Some((line, after)) = setup_line(rest) {
        let bytes = line.as_bytes().to_vec(alloc)?;
        lines.push(bytes)?;
        rest = after;
    }
    Ok((lines, rest))
}

/// Parses the line `meter` of a seal (digests of earlier records). Returns its values, and the text
/// after the line.
fn meter_line<'a>(text: &'a str) -> Option<(MeterLine<'a>, &'a str)>
    ensures reads { (seal : Sealed) (rest : List ℕ) → IsSealable seal
        → text.now ≡ say.meter_line seal ++ rest
        → IsSomeAnd result (λ found. IsLineOf seal found.0 × (found.1.now ≡ rest)) }
    ensures begins { IfSome result (λ found. Begins (codes "meter ") text.now) }
    ensures shorter { IfSome result (λ found. length found.1.now < length text.now) }
    ensures utf8 { IfSome result (λ found. IsUtf8 found.1.now) }
{
    let (meter, rest) = match field(text, "meter ", ' ') {
        Some(found) => found,
        None => return None,
    };
    let (place, rest) = match number(rest, "number ", ' ') {
        Some(found) => found,
        None => return None,
    };
    let (register, rest) = match field(rest, "at ", ' ') {
        Some(found) => found,
        None => return None,
    };
    let (range, rest) = match number(rest, "range ", ' ') {
        Some(found) => found,
        None => return None,
    };
    let (ceiling, rest) = match number(rest, "ceiling ", ' ') {
        Some(found) => found,
        None => return None,
    };
    let (entries, rest) = match number(rest, "entries ", ' ') {
        Some(found) => found,
        None => return None,
    };
    let mut bytes = [0u8; 32];
    let rest = match digest(rest, "sha256 ", '\n', &mut bytes) {
        Some(rest) => rest,
        None => return None,
    };
    let line = MeterLine {
        meter,
        place,
        register,
        range,
        ceiling,
        entries,
        digest: bytes,
    };
    Some((line, rest))
}

/// Parses a line `void` of a seal (digests of earlier records). Returns the void (cancellation of
/// an entry), and the text after the line.
fn void_line<'a>(text: &'a str) -> Option<(VoidRow, &'a str)>
    ensures reads { (meter : List ℕ) (void : TheVoid) (rest : List ℕ)
        → values.is_word meter ≡ true → VoidFits void → text.now ≡ say.void_line meter void ++ rest
        → IsSomeAnd result (λ found. (found.0 ≡ void) × (found.1.now ≡ rest)) }
    ensures begins { IfSome result (λ found. Begins (codes "void ") text.now) }
    ensures shorter { IfSome result (λ found. length found.1.now < length text.now) }
    ensures utf8 { IfSome result (λ found. IsUtf8 found.1.now) }
{
    let (_, rest) = match field(text, "void ", ' ') {
        Some(found) => found,
        None => return None,
    };
    let (place, rest) = match number(rest, "", ' ') {
        Some(found) => found,
        None => return None,
    };
    let (moment, rest) = match number(rest, "at ", '\n') {
        Some(found) => found,
        None => return None,
    };
    Some((VoidRow { place, moment }, rest))
}

/// Parses the `void` lines of a meter's seal (digests of earlier records). Returns the voids
/// (cancellations of entries), and the text after the lines.
fn voids<'a>(alloc: Global, text: &'a str) -> Result<(Vec<VoidRow>, &'a str), AllocError>
    ensures reads { (meter : List ℕ) (voids : List TheVoid) (rest : List ℕ)
        → AreVoids meter voids rest text.now
        → IfOk result (λ read. (read.0.items ≡ voids) × (read.1.now ≡ rest)) }
    ensures shorter { IfOk result (λ read. length read.1.now ≤ length text.now) }
    ensures utf8 { IfOk result (λ read. IsUtf8 read.1.now) }
{
    let mut voids = Vec::new(alloc);
    let mut rest = text;
    while let Some((void, after)) = void_line(rest) {
        voids.push(void)?;
        rest = after;
    }
    Ok((voids, rest))
}

/// Parses a line `month` of a seal (digests of earlier records). Returns its values, and the text
/// after the line.
fn month_line<'a>(text: &'a str) -> Option<(MonthLine<'a>, &'a str)>
    ensures reads { (meter : List ℕ) (month : SealedMonth) (rest : List ℕ)
        → values.is_word meter ≡ true → MonthFits month
        → text.now ≡ say.month_line meter month ++ rest
        → IsSomeAnd result (λ found. IsMonthLineOf month found.0 × (found.1.now ≡ rest)) }
    ensures begins { IfSome result (λ found. Begins (codes "month ") text.now) }
    ensures shorter { IfSome result (λ found. length found.1.now < length text.now) }
    ensures utf8 { IfSome result (λ found. IsUtf8 found.1.now) }
{
    let (_, rest) = match field(text, "month ", ' ') {
        Some(found) => found,
        None => return None,
    };
    let (month, rest) = match field(rest, "", ' ') {
        Some(found) => found,
        None => return None,
    };
    let (mwh, rest) = match number(rest, "", '\n') {
        Some(found) => found,
        None => return None,
    };
    Some((MonthLine { month, mwh }, rest))
}

/// Builds the `MonthSeal` (the energy of a calendar month) of a parsed line.
fn month_in(alloc: Global, line: &MonthLine<'_>) -> Result<MonthSeal, AllocError>
    ensures { (month : SealedMonth) → IsMonthLineOf month line.now
        → IfOk result (λ found. sealed_month_of found ≡ month) }
{
    let month = line.month.as_bytes().to_vec(alloc)?;
    Ok(MonthSeal {
        month,
        mwh: line.mwh,
    })
}

/// Parses the `month` lines of a meter's seal (digests of earlier records). Returns the months, and
/// the text after the lines.
fn months<'a>(alloc: Global, text: &'a str) -> Result<(Vec<MonthSeal>, &'a str), AllocError>
    ensures reads { (meter : List ℕ) (months : List SealedMonth) (rest : List ℕ)
        → AreMonthLines meter months rest text.now
        → IfOk result (λ read.
        (map sealed_month_of read.0.items ≡ months) × (read.1.now ≡ rest)) }
    ensures shorter { IfOk result (λ read. length read.1.now ≤ length text.now) }
    ensures utf8 { IfOk result (λ read. IsUtf8 read.1.now) }
{
    let mut months = Vec::new(alloc);
    let mut rest = text;
    while let Some((line, after)) = month_line(rest) {
        let month = month_in(alloc, &line)?;
        months.push(month)?;
        rest = after;
    }
    Ok((months, rest))
}

/// Builds the seal (digests of earlier records) of a meter from its parsed line, its voids
/// (cancellations of entries) and its months.
fn seal_in(
    alloc: Global,
    line: &MeterLine<'_>,
    voids: Vec<VoidRow>,
    months: Vec<MonthSeal>,
) -> Result<MeterSeal, AllocError>
    ensures { (seal : Sealed) → IsLineOf seal line.now → voids.items ≡ seal.voids
        → map sealed_month_of months.items ≡ seal.months
        → IfOk result (λ found. sealed_of found ≡ seal) }
{
    let meter = String::from_str(alloc, line.meter)?;
    let register = String::from_str(alloc, line.register)?;
    let digest = line.digest;
    Ok(MeterSeal {
        place: line.place,
        meter,
        register,
        range: line.range,
        ceiling: line.ceiling,
        entries: line.entries,
        digest,
        voids,
        months,
    })
}

/// Parses the seals (digests of earlier records) of all meters in the text of a file's seal.
/// Returns the meters' seals, and the text after the last of them.
fn meters<'a>(alloc: Global, text: &'a str) -> Result<(Vec<MeterSeal>, &'a str), AllocError>
    ensures reads { (seals : List Sealed) (rest : List ℕ) → AreMeters seals rest text.now
        → IfOk result (λ read. (map sealed_of read.0.items ≡ seals) × (read.1.now ≡ rest)) }
    ensures utf8 { IfOk result (λ read. IsUtf8 read.1.now) }
{
    let mut seals = Vec::new(alloc);
    let mut rest = text;
    while let Some((line, after)) = meter_line(rest) {
        let (voids, after) = voids(alloc, after)?;
        let (months, after) = months(alloc, after)?;
        let seal = seal_in(alloc, &line, voids, months)?;
        seals.push(seal)?;
        rest = after;
    }
    Ok((seals, rest))
}

/// Parses the line `polls` of a seal (digests of earlier records). Returns its values, and the text
/// after the line.
fn polls_line<'a>(text: &'a str) -> Option<(PollsLine, &'a str)>
    ensures reads { (seal : SealedPolls) (rest : List ℕ) → ArePollsSealable seal
        → text.now ≡ say.polls_line seal ++ rest
        → IsSomeAnd result (λ found. IsPollsLineOf seal found.0 × (found.1.now ≡ rest)) }
    ensures utf8 { IfSome result (λ found. IsUtf8 found.1.now) }
{
    let (count, rest) = match number(text, "polls ", ' ') {
        Some(found) => found,
        None => return None,
    };
    let mut bytes = [0u8; 32];
    let rest = match digest(rest, "sha256 ", '\n', &mut bytes) {
        Some(rest) => rest,
        None => return None,
    };
    let line = PollsLine {
        count,
        digest: bytes,
    };
    Some((line, rest))
}

/// Parses the `pending` lines of a seal (digests of earlier records). Returns the numbers of the
/// pending polls.
fn pending(alloc: Global, text: &str) -> Result<Vec<u64>, AllocError>
    ensures { (polls rest : List ℕ) → ArePending polls rest text.now
        → IfOk result (λ read. read.items ≡ polls) }
{
    let mut polls = Vec::new(alloc);
    let mut rest = text;
    while let Some((poll, after)) = number(rest, "pending ", '\n') {
        polls.push(poll)?;
        rest = after;
    }
    Ok(polls)
}

/// Parses the seal (digests of earlier records) of the polls in a seal's text: the line `polls`,
/// and the `pending` lines.
fn polls(alloc: Global, text: &str) -> Result<Option<PollSeal>, AllocError>
    ensures { (seal : SealedPolls) (rest : List ℕ) → ArePolls seal rest text.now
        → IfOk result (λ found. IsSomeAnd found (λ read. sealed_polls_of read ≡ seal)) }
{
    let (line, rest) = match polls_line(text) {
        Some(found) => found,
        None => return Ok(None),
    };
    let pending = pending(alloc, rest)?;
    let digest = line.digest;
    Ok(Some(PollSeal {
        count: line.count,
        digest,
        pending,
    }))
}

/// Parses the lines of a time zone, devices and registers, the seals (digests of earlier records)
/// of all meters, and then the seal of the polls.
fn tables(alloc: Global, text: &str) -> Result<Option<Seal>, AllocError>
    ensures { (seal : SealedTables) (rest : List ℕ) → AreTables seal rest text.now
        → IfOk result (λ found. IsSomeAnd found (λ read. sealed_tables_of read ≡ seal)) }
{
    let (setup, rest) = setup(alloc, text)?;
    let (meters, rest) = meters(alloc, rest)?;
    let polls = match polls(alloc, rest)? {
        Some(polls) => polls,
        None => return Ok(None),
    };
    Ok(Some(Seal {
        setup,
        meters,
        polls,
    }))
}

/// Returns why a text that doesn't begin as a seal (digests of earlier records) is none.
fn other_text(text: &str) -> NoSeal
    ensures earlier { result ≡ NoSeal.Earlier ↔ IsEarlier text.now }
{
    if text.starts_with("seal 1\n") || text.starts_with("seal 2\n") {
        return NoSeal::Earlier;
    }
    NoSeal::Other
}

/// Parses a seal (digests of earlier records). Fails unless the text is exactly the text that
/// `append_seal` writes for the seal, and no line occurs twice in it.
pub fn read_seal(alloc: Global, text: &str) -> Result<Seal, NoSeal>
    ensures is { IfOk result (λ seal. IsSealText (sealed_tables_of seal) text.now) }
    ensures reads { (seal : SealedTables) → AreTablesSealable seal
        → text.now ≡ say.seal_text seal
        → MatchResult result (λ found. sealed_tables_of found ≡ seal)
        (λ why. why ≡ NoSeal.Memory) }
    ensures earlier { result ≡ Err NoSeal.Earlier ↔ IsEarlier text.now }
{
    let rest = match text.strip_prefix("seal 3\n") {
        Some(rest) => rest,
        None => return Err(other_text(text)),
    };
    let seal = match tables(alloc, rest) {
        Ok(Some(seal)) => seal,
        Ok(None) => return Err(NoSeal::Other),
        Err(_) => return Err(NoSeal::Memory),
    };
    if !has_each_line_once(&seal) {
        return Err(NoSeal::Other);
    }
    match append_seal(alloc, &seal) {
        Ok(again) => {
            if again.as_slice() == text.as_bytes() {
                Ok(seal)
            } else {
                Err(NoSeal::Other)
            }
        }
        Err(_) => Err(NoSeal::Memory),
    }
}
