//! Plans the reads of a point list.
ghost use Rattle.std.specs.Prelude.{◌≡◌, IfOk, length, map};
ghost use Rattle.read_plan.specs.Items.{items_of, runs_of};
ghost use Rattle.read_plan.specs.PlannedReads.{read_runs};
ghost use Rattle.read_plan.specs.Plans.{AreFewest, FollowsRule, IsLawful};

use crate::items::items;
use crate::places::Plan;
use crate::planned_reads::PlannedRead;
use crate::reads::rule_reads;
use point_list::{ListedPoint, PointList};
use std::alloc::{AllocError, Global};

fn starts(alloc: Global, points: &[ListedPoint]) -> Result<Vec<u16>, AllocError>
    ensures { IfOk result (λ v. v.items ≡ map (λ point. point.address) points.now) }
{
    points.iter().map(|point| point.address).collect(alloc)
}

/// Returns the plan of a point list with the fewest reads. An item is the smallest range of
/// registers that contains a point and its scale point. In each area (function and area number; no
/// read has points of two areas), a read begins at the first register of the first item that no
/// earlier read contains. The read ends at the greatest last register of those items that lie
/// within 125 registers from the read's beginning.
pub fn plan(alloc: Global, list: &PointList) -> Result<Plan, AllocError>
    ensures starts { IfOk result (λ plan. plan.starts ≡ map (λ point. point.address) list.now) }
    ensures items { IfOk result (λ plan. plan.items ≡ items_of list.now) }
    ensures placed { IfOk result (λ plan. length plan.items ≡ length list.now) }
    ensures rule { IfOk result (λ plan. FollowsRule (items_of list.now) (read_runs plan.reads)) }
    ensures lawful { IfOk result
        (λ plan. IsLawful (runs_of list.now) (items_of list.now) (read_runs plan.reads)) }
    ensures fewest { IfOk result
        (λ plan. AreFewest (runs_of list.now) (items_of list.now) (length plan.reads)) }
{
    let points = list.points();
    let starts = starts(alloc, points)?;
    let items = items(alloc, points)?;
    let runs = rule_reads(alloc, &items)?;
    let reads = PlannedRead::of_runs(alloc, &runs)?;
    Ok(Plan::new(starts, items, reads))
}
