//! Corrections of a counter: manual readings, readings at closing, resets and rescales.
ghost use Rattle.std.specs.Prelude.{◌≡◌, ◌≤◌, ◌<◌, ◌≤ℤ◌};
ghost use Rattle.energy_core.specs.declared.entries.Entry.TheVariants as entry;
ghost use Rattle.energy_core.specs.Admission.{entered};

use crate::admission::{TermFault, enter};
use crate::counters::Counter;
use crate::entries::{Entry, Last, Step};
use crate::limits::{MAX_SCALE, MAX_TOTAL, MIN_SCALE};
use crate::verdicts::Terms;

/// Records a manual reading, or a reading at closing, after `rolls` full turns of the counter. The
/// ceiling (the meter's greatest power) is not checked.
pub fn manual<C: Counter>(
    counter: &C,
    terms: &Terms,
    last: &Last,
    at: u64,
    raw: u32,
    rolls: u8,
) -> Result<(Last, Step), TermFault>
    requires total { terms.now.total ≤ MAX_TOTAL }
    requires raw { last.now.raw < C.range counter.now }
    requires scale_low { MIN_SCALE ≤ℤ last.now.sf }
    requires scale_high { last.now.sf ≤ℤ MAX_SCALE }
    ensures { let reading = entry.Step at raw rolls in
        result ≡ entered (C.range counter.now) terms.now.total last.now reading }
{
    enter(counter, terms, last, &Entry::Step { at, raw, rolls })
}

/// Records a reset: the counter showed `before` and was set to `after`. The ceiling (the meter's
/// greatest power) is not checked.
pub fn reset<C: Counter>(
    counter: &C,
    terms: &Terms,
    last: &Last,
    at: u64,
    before: u32,
    after: u32,
) -> Result<(Last, Step), TermFault>
    requires total { terms.now.total ≤ MAX_TOTAL }
    requires raw { last.now.raw < C.range counter.now }
    requires scale_low { MIN_SCALE ≤ℤ last.now.sf }
    requires scale_high { last.now.sf ≤ℤ MAX_SCALE }
    ensures { let change = entry.Change at before after last.now.sf in
        result ≡ entered (C.range counter.now) terms.now.total last.now change }
{
    rescale(counter, terms, last, at, before, after, last.sf)
}

/// Records a rescale: a reset that also sets the scale factor. `after` is counted at the new scale
/// factor `sf`. The ceiling (the meter's greatest power) is not checked.
pub fn rescale<C: Counter>(
    counter: &C,
    terms: &Terms,
    last: &Last,
    at: u64,
    before: u32,
    after: u32,
    sf: i16,
) -> Result<(Last, Step), TermFault>
    requires total { terms.now.total ≤ MAX_TOTAL }
    requires raw { last.now.raw < C.range counter.now }
    requires scale_low { MIN_SCALE ≤ℤ last.now.sf }
    requires scale_high { last.now.sf ≤ℤ MAX_SCALE }
    ensures { let change = entry.Change at before after sf in
        result ≡ entered (C.range counter.now) terms.now.total last.now change }
{
    let change = Entry::Change {
        at,
        before,
        after,
        sf,
    };
    enter(counter, terms, last, &change)
}
