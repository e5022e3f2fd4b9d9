//! Selects Modbus reads from the plan of a device's point list. A plan is the fewest reads that
//! cover the points.
ghost use Rattle.std.specs.Prelude.{◌≡◌, IfOk, Some, map};
ghost use Rattle.office_books.specs.Plans.{read_count_of, reads_from};

use mb_wire::ReadSpan;
use office_events::PlannedList;
use read_plan::PlannedRead;
use std::alloc::{AllocError, Global};

fn spans_of(alloc: Global, reads: &[PlannedRead]) -> Result<Vec<ReadSpan>, AllocError>
    ensures { IfOk result (λ spans. spans.items ≡ map (λ read. read.span) reads.now) }
{
    reads.iter().map(|read| read.span).collect(alloc)
}

/// Returns the number of reads in the plan of a point list (the fewest Modbus reads that cover its
/// points).
pub fn read_count(list: &PlannedList) -> usize
    ensures { Some result ≡ read_count_of (Some list.now) }
{
    list.reads().len()
}

/// Returns at most `most` Modbus reads of a point list's plan from index `from` on, without copying
/// the points.
pub fn reads_from(
    alloc: Global,
    list: &PlannedList,
    from: u64,
    most: usize,
) -> Result<Vec<ReadSpan>, AllocError>
    ensures { IfOk result (λ spans. spans.items ≡ reads_from from most (Some list.now)) }
{
    let reads = list.reads();
    let left = &reads[(from as usize).min(reads.len())..];
    spans_of(alloc, &left[..most.min(left.len())])
}
