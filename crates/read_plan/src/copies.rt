//! Copies points and point lists, for `Clone` of a planned list (a point list with its Modbus
//! reads).
ghost use Rattle.std.specs.Prelude.{◌≡◌, IfOk};

use point_list::{ListedPoint, PointList, PointName, PointScale};
use std::alloc::{AllocError, Global};

/// Copies the name of a point.
fn clone_name(alloc: Global, name: &PointName) -> Result<PointName, AllocError>
    ensures { IfOk result (λ copy. copy ≡ name.now) }
{
    let bytes = name.as_bytes().to_vec(alloc)?;
    match PointName::new(bytes) {
        Ok(copy) => Ok(copy),
        Err(_) => unreachable!(),
    }
}

/// Copies the scale of a point.
fn copy_scale(alloc: Global, scale: &PointScale) -> Result<PointScale, AllocError>
    ensures { IfOk result (λ copy. copy ≡ scale.now) }
{
    match scale {
        PointScale::Unscaled => Ok(PointScale::Unscaled),
        PointScale::Fixed(exponent) => Ok(PointScale::Fixed(*exponent)),
        PointScale::Named(name) => Ok(PointScale::Named(clone_name(alloc, name)?)),
    }
}

/// Copies a point of a point list.
fn copy_point(alloc: Global, point: &ListedPoint) -> Result<ListedPoint, AllocError>
    ensures { IfOk result (λ copy. copy ≡ point.now) }
{
    Ok(ListedPoint {
        name: clone_name(alloc, &point.name)?,
        function: point.function,
        area: point.area,
        address: point.address,
        kind: point.kind,
        scale: copy_scale(alloc, &point.scale)?,
    })
}

/// Copies the points of a point list.
fn copy_points(alloc: Global, points: &[ListedPoint]) -> Result<Vec<ListedPoint>, AllocError>
    ensures { IfOk result (λ copies. copies.items ≡ points.now) }
{
    let mut copies = Vec::new(alloc);
    for point in points {
        copies.push(copy_point(alloc, point)?)?;
    }
    Ok(copies)
}

/// Copies a point list.
pub fn copy_list(alloc: Global, list: &PointList) -> Result<PointList, AllocError>
    ensures { IfOk result (λ copy. copy ≡ list.now) }
{
    let points = copy_points(alloc, list.points())?;
    match PointList::new(points) {
        Ok(copy) => Ok(copy),
        Err(_) => unreachable!(),
    }
}
