//! Lookups that read the complete list of records, the earliest first.
ghost use Rattle.std.specs.Prelude.{◌≡◌, ◌∷◌, ◌&&◌, [], reverse, IfOk};
ghost use Rattle.std.specs.List.{filter_map};
ghost use Rattle.office_books.specs.Facts.{as_device, devices_in, same};
ghost use Rattle.office_books.specs.Holds.{holds_of, holds_within};
ghost use Rattle.office_books.specs.Rows.{TakesAll};
ghost use Rattle.office_books.specs.Spans.{is_within};
ghost use Rattle.memory_books.specs.Looking.{latest_first};

use crate::kinds::{device_in, hold_in};
use office_books::{RowSink, Span};
use office_events::{Device, Fact, HeldReading, Name};
use std::alloc::{AllocError, Global};

fn all_devices(alloc: Global, facts: &[Fact]) -> Result<Vec<Device>, AllocError>
    ensures { IfOk result (λ v. v.items ≡ filter_map as_device facts.now) }
{
    facts
        .iter()
        .filter_map(|fact| device_in(fact))
        .collect(alloc)
}

/// Returns the devices in a list of records, in the order in which they were added.
pub(crate) fn devices(alloc: Global, facts: &[Fact]) -> Result<Vec<Device>, AllocError>
    ensures { IfOk result (λ v. v.items ≡ reverse (devices_in (latest_first facts.now))) }
{
    let devices = all_devices(alloc, facts)?;
    Ok(devices)
}

fn is_asked(held: &HeldReading, meter: &Name, span: Span) -> bool
    ensures { result ≡ (same held.now.meter meter.now && is_within span held.now.at) }
{
    held.meter.is(meter) && span.contains(held.at)
}

fn hand_hold<K: RowSink<HeldReading>>(fact: &Fact, meter: &Name, span: Span, sink: &mut K)
    ensures { TakesAll K.takes sink.old (holds_within span (holds_of (fact.now ∷ []) meter.now))
        sink.new }
{
    match hold_in(fact) {
        Some(held) => {
            if is_asked(&held, meter, span) {
                sink.put(held);
            }
        }
        None => {}
    }
}

/// Passes the rejected readings of a meter in the given time span to the sink (a consumer of rows),
/// in the order in which they were recorded. Allocates no memory.
pub(crate) fn hand_holds<K: RowSink<HeldReading>>(
    facts: &[Fact],
    meter: &Name,
    span: Span,
    sink: &mut K,
)
    ensures { TakesAll K.takes sink.old
        (holds_within span (holds_of (latest_first facts.now) meter.now)) sink.new }
{
    for fact in facts {
        hand_hold(fact, meter, span, sink);
    }
}
