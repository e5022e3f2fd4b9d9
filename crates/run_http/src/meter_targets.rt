//! Parses the request targets for quarter hours, entries and voided (withdrawn) entries of a meter.
ghost use Rattle.std.specs.Prelude.{◌≡◌, option_map};
ghost use Rattle.run_http.specs.MeterTargets as targets;

use crate::route::{RunRoute, StatusRoute};
use office_books::Span;
use office_events::Name;
use office_http::messages::{Status, digits};

/// Returns the part of a text after the prefix `word`, or `None` if the text does not begin with
/// `word`.
pub(crate) fn after<'t>(word: &[u8], text: &'t [u8]) -> Option<&'t [u8]>
    ensures { option_map (λ rest. rest.now) result ≡ targets.after word.now text.now }
{
    text.strip_prefix(word)
}

/// Returns the index of the first slash in a text.
pub(crate) fn slash_in(text: &[u8]) -> Option<usize>
    ensures { result ≡ targets.slash_in text.now }
{
    text.iter().position(|byte| *byte == b'/')
}

fn span_of(from: &[u8], till: &[u8]) -> Option<Span>
    ensures { result ≡ targets.span_of from.now till.now }
{
    let from = digits(from)?;
    let till = digits(till)?;
    Some(Span::Between { from, till })
}

// Returns the route to the quarter hours of a meter in a time span, or status 400 if the target has
// no valid span.
fn intervals_asked(name: &[u8], span: Option<Span>) -> RunRoute
    ensures { result ≡ targets.intervals_asked name.now span }
{
    match span {
        Some(span) => RunRoute::Intervals {
            meter: Name::new(name),
            span,
        },
        None => RunRoute::Own(StatusRoute::Rejected(Status::BadRequest)),
    }
}

// Parses the two timestamps of a target for quarter hours. A target with another segment after them
// has no route.
fn intervals_till(name: &[u8], from: &[u8], till: &[u8]) -> Option<RunRoute>
    ensures { result ≡ targets.intervals_till name.now from.now till.now }
{
    if slash_in(till).is_some() {
        return None;
    }
    Some(intervals_asked(name, span_of(from, till)))
}

// Parses the part of a target after `/meters/NAME/intervals/`.
fn intervals_in(name: &[u8], text: &[u8]) -> Option<RunRoute>
    ensures { result ≡ targets.intervals_in name.now text.now }
{
    let at = slash_in(text)?;
    intervals_till(name, &text[..at], &text[at + 1..])
}

// Returns the route to the entries of a meter from a sequence number on, or status 400 if the
// target has no valid number.
fn entries_asked(name: &[u8], place: Option<u64>) -> RunRoute
    ensures { result ≡ targets.entries_asked name.now place }
{
    match place {
        Some(from) => RunRoute::Entries {
            meter: Name::new(name),
            from,
        },
        None => RunRoute::Own(StatusRoute::Rejected(Status::BadRequest)),
    }
}

// Parses the sequence number in a target for entries. A target with another segment after the
// number has no route.
fn entries_at(name: &[u8], place: &[u8]) -> Option<RunRoute>
    ensures { result ≡ targets.entries_at name.now place.now }
{
    if slash_in(place).is_some() {
        return None;
    }
    Some(entries_asked(name, digits(place)))
}

fn rows_in(name: &[u8], text: &[u8]) -> Option<RunRoute>
    ensures { result ≡ targets.rows_in name.now text.now }
{
    if text == b"voids".as_slice() {
        return Some(RunRoute::Voids {
            meter: Name::new(name),
        });
    }
    match after(b"intervals/", text) {
        Some(text) => intervals_in(name, text),
        None => match after(b"entries/", text) {
            Some(text) => entries_at(name, text),
            None => None,
        },
    }
}

fn meter_in(text: &[u8]) -> Option<RunRoute>
    ensures { result ≡ targets.meter_in text.now }
{
    let at = slash_in(text)?;
    rows_in(&text[..at], &text[at + 1..])
}

/// Parses a request target for quarter hours, entries or voided (withdrawn) entries of a meter.
pub(crate) fn meter_target(target: &[u8]) -> Option<RunRoute>
    ensures { result ≡ targets.meter_target target.now }
{
    match after(b"/meters/", target) {
        Some(text) => meter_in(text),
        None => None,
    }
}
