//! The points of a point list, and their scales.
ghost use Rattle.std.specs.Prelude.{◌≡◌};
ghost use Rattle.std.specs.Option.{option_copied};
ghost use Rattle.point_list.specs.Points.{is_sunssf, scale_point};

use crate::name::PointName;
use mb_wire::ReadFunction;
use sun_points::{PointType, Scale};

/// The power of ten that multiplies the value of a point.
#[derive(Drop)]
pub enum PointScale {
    /// The value of the point has no scale and is printed unchanged.
    Unscaled,
    /// A fixed power of ten, -10 to 10.
    Fixed(Scale),
    /// The power of ten in the register of the scale factor point (type `sunssf`) with this name.
    Named(PointName),
}

/// A point of a point list: its registers from `address`, the function that reads them, and an area
/// number. No Modbus read includes points with different area numbers.
#[derive(Drop)]
pub struct ListedPoint {
    pub name: PointName,
    pub function: ReadFunction,
    pub area: u8,
    pub address: u16,
    pub kind: PointType,
    pub scale: PointScale,
}

/// Returns whether points of this type are scale points (SunSpec scale factors).
pub(crate) fn is_scale_type(kind: PointType) -> bool
    ensures { result ≡ is_sunssf kind }
{
    match kind {
        PointType::Sunssf => true,
        _ => false,
    }
}

/// Returns the scale factor point (type `sunssf`) of a point list with this name, or `None`.
pub fn find_scale<'a>(points: &'a [ListedPoint], name: &[u8]) -> Option<&'a ListedPoint>
    ensures { option_copied result ≡ scale_point points.now name.now }
{
    points.iter().find(|point| is_scale_type(point.kind) && point.name.as_bytes() == name)
}
