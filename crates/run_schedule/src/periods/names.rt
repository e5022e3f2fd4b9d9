//! Builds and parses the names of the store's files, one file for each calendar period.
ghost use Rattle.std.specs.Prelude.{◌≡◌, ◌≢◌, ◌++◌, ℕ, List, codes, IfOk};
ghost use Rattle.std.specs.Option.{MatchOption};
ghost use Rattle.run_schedule.specs.Periods.Names as named;
ghost use Rattle.run_schedule.specs.Periods.Names.{IsPeriodIn, file_of, stem_of, suffix_of};

use energy_report::Period;
use std::alloc::{AllocError, Global};

/// The extension of a store file, which stays at the end of the name.
const SUFFIX: &[u8] = b".db";

// Splits a file name into its stem and the extension `.db`. Without that extension, the second part
// is empty.
fn parts_of(file: &[u8]) -> (&[u8], &[u8])
    ensures stem { result.0.now ≡ stem_of file.now }
    ensures suffix { result.1.now ≡ suffix_of file.now }
{
    let cut = file.len().saturating_sub(3);
    if &file[cut..] == SUFFIX {
        (&file[..cut], SUFFIX)
    } else {
        (file, b"")
    }
}

fn joined(alloc: Global, stem: &[u8], text: &[u8], suffix: &[u8]) -> Result<Vec<u8>, AllocError>
    ensures { IfOk result
        (λ name. name.items ≡ stem.now ++ codes "-" ++ text.now ++ suffix.now) }
{
    let mut name = Vec::new(alloc);
    name.extend_from_slice(stem)?;
    name.extend_from_slice(b"-")?;
    name.extend_from_slice(text)?;
    name.extend_from_slice(suffix)?;
    Ok(name)
}

/// Returns the name of a period's file: `office.db` and `2026-11` give `office-2026-11.db`. If the
/// name has no `.db`, the period follows at its end.
pub fn file_of_period(alloc: Global, file: &[u8], text: &[u8]) -> Result<Vec<u8>, AllocError>
    ensures { IfOk result (λ name. name.items ≡ file_of file.now text.now) }
{
    let (stem, suffix) = parts_of(file);
    joined(alloc, stem, text, suffix)
}

fn is_digit(byte: u8) -> bool
    ensures { result ≡ named.is_digit byte }
{
    48 <= byte && byte <= 57
}

fn is_month(tens: u8, ones: u8) -> bool
    ensures { result ≡ named.is_month tens ones }
{
    (tens == 48 && 49 <= ones && ones <= 57) || (tens == 49 && 48 <= ones && ones <= 50)
}

fn is_day(tens: u8, ones: u8) -> bool
    ensures { result ≡ named.is_day tens ones }
{
    (tens == 48 && 49 <= ones && ones <= 57)
        || (49 <= tens && tens <= 50 && is_digit(ones))
        || (tens == 51 && 48 <= ones && ones <= 49)
}

fn is_year(a: u8, b: u8, c: u8, d: u8) -> bool
    ensures { result ≡ named.is_year a b c d }
{
    is_digit(a) && is_digit(b) && is_digit(c) && is_digit(d)
}

// Returns whether a text has the form of a calendar period of the length `length`, such as
// `2026-11` for a month.
pub(crate) fn spells(period: Period, text: &[u8]) -> bool
    ensures { result ≡ named.spells period text.now }
{
    match (period, text) {
        (Period::Year, [a, b, c, d]) => is_year(*a, *b, *c, *d),
        (Period::Month, [a, b, c, d, hyphen, m, n]) => {
            is_year(*a, *b, *c, *d) && *hyphen == 45 && is_month(*m, *n)
        }
        (Period::Day, [a, b, c, d, hyphen, m, n, second, e, f]) => {
            is_year(*a, *b, *c, *d)
                && *hyphen == 45
                && is_month(*m, *n)
                && *second == 45
                && is_day(*e, *f)
        }
        _ => false,
    }
}

fn after<'a>(text: &'a [u8], front: &[u8]) -> Option<&'a [u8]>
    ensures { MatchOption result ((rest : List ℕ) → text.now ≢ front.now ++ rest)
        (λ rest. text.now ≡ front.now ++ rest.now) }
{
    text.strip_prefix(front)
}

fn before<'a>(text: &'a [u8], end: &[u8]) -> Option<&'a [u8]>
    ensures { MatchOption result ((front : List ℕ) → text.now ≢ front ++ end.now)
        (λ front. text.now ≡ front.now ++ end.now) }
{
    text.strip_suffix(end)
}

// Returns the part of `name` after `stem` and a hyphen, and before the extension `suffix`.
fn between<'a>(name: &'a [u8], stem: &[u8], suffix: &[u8]) -> Option<&'a [u8]>
    ensures { MatchOption result
        ((text : List ℕ) → stem.now ++ codes "-" ++ text ++ suffix.now ≢ name.now)
        (λ text. stem.now ++ codes "-" ++ text.now ++ suffix.now ≡ name.now) }
{
    match after(name, stem) {
        None => None,
        Some(hyphened) => match after(hyphened, b"-") {
            None => None,
            Some(rest) => before(rest, suffix),
        },
    }
}

/// Returns the period in a file name, if the period has the length `period` and the name without
/// the period is `file`. For example, `office-2026-11.db` contains the month `2026-11` for the file
/// `office.db`.
pub fn period_of_file<'a>(file: &[u8], period: Period, name: &'a [u8]) -> Option<&'a [u8]>
    ensures { IsPeriodIn file.now period name.now result }
{
    let (stem, suffix) = parts_of(file);
    match between(name, stem, suffix) {
        None => None,
        Some(text) => {
            if spells(period, text) {
                Some(text)
            } else {
                None
            }
        }
    }
}
