//! Finds the first and the last register of each Modbus read in a plan.
ghost use Rattle.std.specs.Prelude.{◌≡◌, ◌+◌, ◌-◌, ◌<◌, ◌≤◌, ◌↔◌, IfOk, IsTrue, length};
ghost use Rattle.std.specs.Prelude.{slice_index_or};
ghost use Rattle.std.specs.Bool.{OnTrue, OnFalse};
ghost use Rattle.std.specs.List.{All, AllPairs, Any, Contains};
ghost use Rattle.read_plan.specs.declared.run.Run.{Run};
ghost use Rattle.read_plan.specs.Beginnings.{AreBeginnings, IsGreatestEnd, ends_by};
ghost use Rattle.read_plan.specs.Plans.{ComesBefore, EndsBefore, IsReadable, LiesWithinReach};

use crate::run::{READ_LIMIT, Run};
use mb_wire::ADDRESSES;
use std::alloc::{AllocError, Global};

fn lies_within_reach(begin: &Run, item: &Run) -> bool
    ensures { IsTrue result ↔ LiesWithinReach begin.now item.now }
{
    begin.function == item.function
        && begin.area == item.area
        && begin.first <= item.first
        && item.end.saturating_sub(READ_LIMIT) <= begin.first
}

// Returns whether a register range lies within 125 registers from the start of a range in `found`.
// The ranges are in order of function, area number and first register, so that it is enough to
// compare the last range of `found`. No read has registers of two areas.
fn is_reached(found: &[Run], item: &Run) -> bool
    ensures reached { OnTrue result (Any (λ begin. LiesWithinReach begin item.now) found.now) }
    ensures beyond { OnFalse result ((d : Run) → 0 < length found.now
        → ¬ LiesWithinReach (slice_index_or found.now (length found.now - 1) d) item.now) }
{
    match found.last() {
        Some(begin) => lies_within_reach(begin, item),
        None => false,
    }
}

/// Returns the items (ranges that one read must contain) at which reads start. Each is the first
/// item that does not lie within 125 registers from the start of the previous read.
pub fn beginnings(alloc: Global, items: &[Run]) -> Result<Vec<Run>, AllocError>
    requires ordered { AllPairs (λ a b. ¬ ComesBefore b a) items.now }
    requires readable { All IsReadable items.now }
    ensures { IfOk result (λ v. AreBeginnings items.now v.items) }
{
    let mut found: Vec<Run> = Vec::new(alloc);
    for item in items {
        if !is_reached(&found, item) {
            found.push(*item)?;
        }
    }
    Ok(found)
}

/// Returns whether a register range ends at or before a limit. The order is by function, then by
/// area number (no Modbus read has registers of two areas), then by last register.
pub fn ends_by_limit(run: &Run, limit: &Run) -> bool
    ensures { result ≡ ends_by run.now limit.now }
{
    let function = run.function.code();
    let last = limit.function.code();
    function < last
        || function == last
            && (run.area < limit.area || run.area == limit.area && run.end <= limit.end)
}

/// Returns the greatest end of those items (register ranges) of `begin`'s area that end within 125
/// registers from the start of `begin`. The items must be in order of function, area number (no
/// read has registers of two areas) and last register.
pub fn end_within_reach(items: &[Run], begin: &Run) -> u32
    requires ordered { AllPairs (λ a b. ¬ EndsBefore b a) items.now }
    requires among { Contains items.now begin.now }
    requires few { begin.now.end ≤ begin.now.first + READ_LIMIT }
    requires fits { begin.now.first < ADDRESSES }
    ensures { IsGreatestEnd items.now begin.now result }
{
    let limit = Run {
        end: begin.first + READ_LIMIT,
        ..*begin
    };
    let count = items.partition_point(|item| ends_by_limit(item, &limit));
    items[count - 1].end
}
