//! Checks whether points form a valid point list: at most 512 points with distinct names, each with
//! a valid size, address and scale.
ghost use Rattle.std.specs.Prelude.{◌≡◌, ◌≢◌, ◌+◌, ◌≤◌, ◌↔◌, IsTrue};
ghost use Rattle.std.specs.List.{All, AllPairs};
ghost use Rattle.point_list.specs.Names.{is_name};
ghost use Rattle.point_list.specs.Points.{HasLawfulScale, IsGroup, IsPointList, end_of};
ghost use Rattle.point_list.specs.Points.{takes_scale};
ghost use Rattle.sun_points.specs.PointType.{registers_of};

use crate::name::is_point_name;
use crate::point::{ListedPoint, PointScale, find_scale};
use mb_wire::{ADDRESSES, MAX_READ_REGISTERS};
use sun_points::PointType;

/// The maximum number of points in a point list.
pub const POINT_LIMIT: usize = 512;

/// Returns whether points of this SunSpec type may have a scale (a power of ten).
pub fn is_scaled_type(kind: PointType) -> bool
    ensures { result ≡ takes_scale kind }
{
    match kind {
        PointType::Int16
        | PointType::Uint16
        | PointType::Int32
        | PointType::Uint32
        | PointType::Acc32 => true,
        _ => false,
    }
}

// Returns the Modbus address after the last register of a point.
fn end_address(point: &ListedPoint) -> u32
    ensures { result ≡ end_of point.now }
{
    u32::from(point.address) + u32::from(point.kind.registers())
}

/// Returns whether one Modbus read can cover a point and its scale point: they have the same
/// function and area number, and lie within 125 registers.
pub fn is_group(point: &ListedPoint, scale: &ListedPoint) -> bool
    ensures { IsTrue result ↔ IsGroup point.now scale.now }
{
    let first = u32::from(point.address).min(u32::from(scale.address));
    let last = end_address(point).max(end_address(scale));
    point.function == scale.function
        && point.area == scale.area
        && last <= first + u32::from(MAX_READ_REGISTERS)
}

fn has_lawful_scale(points: &[ListedPoint], point: &ListedPoint) -> bool
    ensures { IsTrue result ↔ HasLawfulScale points.now point.now point.now.scale }
{
    match &point.scale {
        PointScale::Unscaled => true,
        PointScale::Fixed(scale) => {
            let exponent = scale.exponent();
            is_scaled_type(point.kind) && -10 <= exponent && exponent <= 10
        }
        PointScale::Named(name) => match find_scale(points, name.as_bytes()) {
            Some(scale) => is_scaled_type(point.kind) && is_group(point, scale),
            None => false,
        },
    }
}

fn has_registers(point: &ListedPoint) -> bool
    ensures { IsTrue result
        ↔ ((1 ≤ registers_of point.now.kind) × (registers_of point.now.kind ≤ MAX_READ_REGISTERS)) }
{
    let registers = point.kind.registers();
    1 <= registers && registers <= MAX_READ_REGISTERS
}

fn has_other_name(point: &ListedPoint, name: &[u8]) -> bool
    ensures { IsTrue result ↔ (point.now.name ≢ name.now) }
{
    point.name.as_bytes() != name
}

fn have_other_names(points: &[ListedPoint], name: &[u8]) -> bool
    ensures { IsTrue result ↔ All (λ point. point.name ≢ name.now) points.now }
{
    points.iter().all(|point| has_other_name(point, name))
}

fn have_distinct_names(points: &[ListedPoint]) -> bool
    ensures { IsTrue result ↔ AllPairs (λ a b. a.name ≢ b.name) points.now }
{
    for i in 0..points.len() {
        if !have_other_names(&points[..i], points[i].name.as_bytes()) {
            return false;
        }
    }
    true
}

fn are_named(points: &[ListedPoint]) -> bool
    ensures { IsTrue result ↔ All (λ point. IsTrue (is_name point.name)) points.now }
{
    points
        .iter()
        .all(|point| is_point_name(point.name.as_bytes()))
}

fn all_have_registers(points: &[ListedPoint]) -> bool
    ensures { IsTrue result ↔ All
        (λ point. (1 ≤ registers_of point.kind) × (registers_of point.kind ≤ MAX_READ_REGISTERS))
        points.now }
{
    points.iter().all(|point| has_registers(point))
}

fn are_inside(points: &[ListedPoint]) -> bool
    ensures { IsTrue result ↔ All (λ point. end_of point ≤ ADDRESSES) points.now }
{
    points.iter().all(|point| end_address(point) <= ADDRESSES)
}

fn are_scaled(points: &[ListedPoint]) -> bool
    ensures { IsTrue result
        ↔ All (λ point. HasLawfulScale points.now point point.scale) points.now }
{
    points.iter().all(|point| has_lawful_scale(points, point))
}

/// Returns whether points form a valid point list: at most 512 points with distinct names, each
/// with a valid size, address and scale.
pub fn is_lawful(points: &[ListedPoint]) -> bool
    ensures { IsTrue result ↔ IsPointList points.now }
{
    points.len() <= POINT_LIMIT
        && are_named(points)
        && have_distinct_names(points)
        && all_have_registers(points)
        && are_inside(points)
        && are_scaled(points)
}
