//! Creates the point list of a device's chain of SunSpec models.
ghost use Rattle.std.specs.Prelude.{◌≡◌, ◌≤◌, ◌++◌, ◌∷◌, [], Some, IfOk, IfErr, IfSome, IsTrue};
ghost use Rattle.std.specs.Prelude.{OnOk, map};
ghost use Rattle.std.specs.List.{All, list_any};
ghost use Rattle.std.specs.Option.{option_map};
ghost use Rattle.std.specs.Str.{bytes_eq};
ghost use Rattle.sun_chain.specs.Chain.{words_of};
ghost use Rattle.sun_chain.specs.Points.{seen};
ghost use Rattle.point_list.specs.ChainPoints.{HasScaleName, chain_faults, chain_name, chain_scale};
ghost use Rattle.point_list.specs.ChainPoints.{listed, model_points, points_of_chain};
ghost use Rattle.point_list.specs.Lists.{ExplainsList};
ghost use Rattle.point_list.specs.Names.{is_name};

use crate::fault::{FaultyRow, FaultyRows, ListFault, RowFault};
use crate::lawful::POINT_LIMIT;
use crate::list::PointList;
use crate::name::PointName;
use crate::point::{ListedPoint, PointScale};
use crate::rows::ROW_LIMIT;
use mb_wire::ReadFunction;
use std::alloc::{AllocError, Global};
use sun_chain::{Chain, Model, NamedPoint, scale_name};

fn chain_name(alloc: Global, place: usize, name: &str) -> Result<PointName, AllocError>
    requires { IsTrue (is_name (chain_name place name.now)) }
    ensures { IfOk result (λ made. made ≡ chain_name place name.now) }
{
    let text = format!(in alloc; "m{place}.{name}")?;
    Ok(PointName::of_lawful(text.into_bytes()))
}

fn has_point(points: &[NamedPoint<'_>], name: &str) -> bool
    ensures { result ≡ list_any (λ point. bytes_eq (seen point).name name.now) points.now }
{
    points
        .iter()
        .any(|point| point.name().as_bytes() == name.as_bytes())
}

fn is_there(points: &[NamedPoint<'_>], name: &str) -> bool
    ensures { result ≡ list_any (λ point. bytes_eq point.name name.now) (map seen points.now) }
{
    has_point(points, name)
}

fn named_scale_of(
    alloc: Global,
    place: usize,
    others: &[NamedPoint<'_>],
    name: &str,
) -> Result<PointScale, AllocError>
    requires { IsTrue (is_name (chain_name place name.now)) }
    ensures { IfOk result (λ made. made ≡ chain_scale place (map seen others.now) (Some name.now)) }
{
    if is_there(others, name) {
        let name = chain_name(alloc, place, name)?;
        Ok(PointScale::Named(name))
    } else {
        Ok(PointScale::Unscaled)
    }
}

fn chain_scale(
    alloc: Global,
    place: usize,
    others: &[NamedPoint<'_>],
    scale: Option<&str>,
) -> Result<PointScale, AllocError>
    requires { IfSome scale (λ name. IsTrue (is_name (chain_name place name.now))) }
    ensures { let named = option_map (λ name. name.now) scale.entry in
        IfOk result (λ made. made ≡ chain_scale place (map seen others.now) named) }
{
    match scale {
        Some(name) => named_scale_of(alloc, place, others, name),
        None => Ok(PointScale::Unscaled),
    }
}

// Returns the point list's entry for a point of a SunSpec model. SunSpec models are read from
// holding registers.
fn listed(
    alloc: Global,
    place: usize,
    id: u16,
    others: &[NamedPoint<'_>],
    point: &NamedPoint<'_>,
) -> Result<ListedPoint, AllocError>
    requires named { IsTrue (is_name (chain_name place (seen point.now).name)) }
    requires scaled { HasScaleName place id (seen point.now) }
    ensures { IfOk result (λ made. made ≡ listed place id (map seen others.now) (seen point.now)) }
{
    let name = chain_name(alloc, place, point.name())?;
    let scale = chain_scale(alloc, place, others, scale_name(id, point.name()))?;
    Ok(ListedPoint {
        name,
        function: ReadFunction::HoldingRegisters,
        area: 0,
        address: point.address(),
        kind: point.ty(),
        scale,
    })
}

fn add_points(
    alloc: Global,
    place: usize,
    id: u16,
    found: &[NamedPoint<'_>],
    points: &mut Vec<ListedPoint>,
) -> Result<(), AllocError>
    requires named { All
        (λ point. IsTrue (is_name (chain_name place (seen point).name))) found.now }
    requires scaled { All (λ point. HasScaleName place id (seen point)) found.now }
    ensures { OnOk result (points.new.items ≡ points.old.items
        ++ map (λ point. listed place id (map seen found.now) (seen point)) found.now) }
{
    for point in found {
        points.push(listed(alloc, place, id, found, point)?)?;
    }
    Ok(())
}

fn add_model(
    alloc: Global,
    chain: &Chain<'_>,
    place: usize,
    model: &Model,
    points: &mut Vec<ListedPoint>,
) -> Result<(), AllocError>
    requires { place ≤ 64 }
    ensures { OnOk result (points.new.items
        ≡ points.old.items ++ model_points (words_of chain.now) place model.now) }
{
    let found = chain.points(model)?;
    add_points(alloc, place, model.id, &found, points)
}

fn chain_points(alloc: Global, chain: &Chain<'_>) -> Result<Vec<ListedPoint>, AllocError>
    ensures { IfOk result (λ points. points.items ≡ points_of_chain chain.now) }
{
    let mut points = Vec::new(alloc);
    for (index, model) in chain.models().iter().enumerate() {
        add_model(alloc, chain, index + 1, model, &mut points)?;
    }
    Ok(points)
}

// Returns the fault of a chain of SunSpec models with more than 512 points: `TooMany` on row 514.
fn too_many(alloc: Global) -> Result<FaultyRows, AllocError>
    ensures { IfOk result (λ rows. rows ≡ record { row = 514; fault = RowFault.TooMany } ∷ []) }
{
    let mut rows = Vec::new(alloc);
    rows.push(FaultyRow {
        row: ROW_LIMIT,
        fault: RowFault::TooMany,
    })?;
    Ok(FaultyRows::new(rows))
}

/// Returns the point list of all points of a chain's SunSpec models that were read, model by model.
/// The list includes points without a value (`Absent`). A point is named `m`, the model's number in
/// the chain from 1, `.` and the point's name in the model. A point is read with function 3. The
/// scale of a point is the name of its scale point (scale factor), or empty if the scale point was
/// not read. More than 512 points are the fault `TooMany` on row 514.
pub fn from_chain(alloc: Global, chain: &Chain<'_>) -> Result<PointList, ListFault>
    ensures list { IfOk result (λ list. list ≡ points_of_chain chain.now) }
    ensures faults { IfErr result (ExplainsList (chain_faults (points_of_chain chain.now))) }
{
    let points = chain_points(alloc, chain)?;
    if points.len() > POINT_LIMIT {
        return Err(ListFault::Faults(too_many(alloc)?));
    }
    Ok(PointList::of_lawful(points))
}
