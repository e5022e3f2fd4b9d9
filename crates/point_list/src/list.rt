//! Point lists: the registers of a device that the program polls.
ghost use Rattle.std.specs.Prelude.{◌≡◌, ◌↔◌, IsOk, IfOk, IfErr};

use crate::lawful::is_lawful;
use crate::point::ListedPoint;
use std::marker::Model;

/// A list of at most 512 points with distinct names. The scale point (SunSpec scale factor) of each
/// point is in the list, close enough for one Modbus read of both.
#[derive(Drop)]
pub struct PointList {
    points: Vec<ListedPoint>,
}

impl Model for PointList {
    ghost use Rattle.std.specs.Prelude.{List};
    ghost use Rattle.point_list.specs.declared.point.ListedPoint.{ListedPoint};

    ghost Value = { List ListedPoint };

    ghost use Rattle.point_list.specs.Points.{IsPointList};

    ghost view = { λ l. l.points.items };

    ghost invariant = { λ l. IsPointList l.points.items };
}

impl PointList {
    ghost use Rattle.point_list.specs.Points.{IsPointList};

    /// Creates a point list. Returns the points as the error if they do not form a valid list, for
    /// example if two points have the same name.
    pub fn new(points: Vec<ListedPoint>) -> Result<Self, Vec<ListedPoint>>
        ensures lawful { IsOk result ↔ IsPointList points.items }
        ensures list { IfOk result (λ list. list ≡ points.items) }
        ensures handed_back { IfErr result (λ back. back.items ≡ points.items) }
    {
        if is_lawful(&points) {
            Ok(PointList { points })
        } else {
            Err(points)
        }
    }

    /// Creates a point list from points that form a valid list, as the function's contract
    /// requires.
    pub(crate) fn of_lawful(points: Vec<ListedPoint>) -> Self
        requires { IsPointList points.items }
        ensures { result ≡ points.items }
    {
        PointList { points }
    }

    /// Returns the points of the point list in order.
    pub fn points(&self) -> &[ListedPoint]
        ensures points { result.now ≡ self.now }
        ensures lawful { IsPointList self.now }
    {
        self.points.as_slice()
    }

    /// Consumes the point list, and returns its points.
    pub fn into_points(self) -> Vec<ListedPoint>
        ensures points { result.items ≡ self }
        ensures lawful { IsPointList self }
    {
        let PointList { points } = self;
        points
    }
}
