//! Finds the items of a point list. An item is a range that one read must contain: the registers of
//! a point and its scale factor.
ghost use Rattle.std.specs.Prelude.{◌≡◌, IfOk, List};
ghost use Rattle.point_list.specs.Points.{is_sunssf};
ghost use Rattle.point_list.specs.declared.point.ListedPoint.{ListedPoint};
ghost use Rattle.read_plan.specs.Items.{AreScaleRuns, item_of, items_of, joined, point_run};

use crate::run::Run;
use point_list::{ListedPoint, PointScale};
use std::alloc::{AllocError, Global};
use std::collections::BTreeMap;
use sun_points::PointType;

type ScaleRuns<'a> = BTreeMap<&'a [u8], Run>;

fn run_of_point(point: &ListedPoint) -> Run
    ensures { result ≡ point_run point.now }
{
    let first = u32::from(point.address);
    Run {
        function: point.function,
        area: point.area,
        first,
        end: first + u32::from(point.kind.registers()),
    }
}

// Returns the smallest range that contains two ranges of the same area (function and area number;
// no read has registers of two areas).
fn join(a: Run, b: Run) -> Run
    ensures { result ≡ joined a b }
{
    Run {
        first: a.first.min(b.first),
        end: a.end.max(b.end),
        ..a
    }
}

fn is_scale(point: &ListedPoint) -> bool
    ensures { result ≡ is_sunssf point.now.kind }
{
    matches!(point.kind, PointType::Sunssf)
}

// Returns the register ranges of the scale factors in a list, by name. If two sunssf points have
// the same name, the map has the first.
fn scale_runs<'a>(alloc: Global, points: &'a [ListedPoint]) -> Result<ScaleRuns<'a>, AllocError>
    ensures { IfOk result (λ runs. AreScaleRuns points.now runs) }
{
    let mut runs = BTreeMap::new(alloc);
    for point in points.iter().rev() {
        if is_scale(point) {
            runs.insert(point.name.as_bytes(), run_of_point(point))?;
        }
    }
    Ok(runs)
}

/// Returns the smallest range that contains a point and its scale point. `runs` has the scale
/// points of the point's list.
pub fn item(runs: &ScaleRuns<'_>, point: &ListedPoint) -> Run
    ensures { (points : List ListedPoint) → AreScaleRuns points runs.now
        → result ≡ item_of points point.now }
{
    let run = run_of_point(point);
    match &point.scale {
        PointScale::Unscaled | PointScale::Fixed(_) => run,
        PointScale::Named(name) => match runs.get(name.as_bytes()) {
            Some(scale) => join(run, *scale),
            None => run,
        },
    }
}

/// Returns the item of each point (the range of the point and its scale point), in the order of the
/// point list.
pub fn items(alloc: Global, points: &[ListedPoint]) -> Result<Vec<Run>, AllocError>
    ensures { IfOk result (λ v. v.items ≡ items_of points.now) }
{
    let runs = scale_runs(alloc, points)?;
    points.iter().map(|point| item(&runs, point)).collect(alloc)
}
