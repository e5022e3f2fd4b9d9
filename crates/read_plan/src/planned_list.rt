//! A point list, together with the reads that poll its points.
ghost use Rattle.std.specs.Prelude.{◌≡◌, IfOk};

use crate::copies::copy_list;
use crate::planned_reads::PlannedRead;
use crate::planner::plan;
use point_list::{ListedPoint, PointList};
use std::alloc::{AllocError, Global};
use std::marker::Model;

/// A point list, and the fewest Modbus reads that poll its points (the list's plan).
#[derive(Drop)]
pub struct PlannedList {
    list: PointList,
    reads: Vec<PlannedRead>,
}

impl Model for PlannedList {
    ghost use Rattle.read_plan.specs.PlannedLists.{IsPlanned, Planned};

    ghost Value = { Planned };

    ghost view = { λ p. record { points = p.list; reads = p.reads.items } };

    ghost invariant = { λ p. IsPlanned (record { points = p.list; reads = p.reads.items }) };
}

impl PlannedList {
    ghost use Rattle.read_plan.specs.PlannedLists.{IsPlanned};

    /// Creates a planned list (a point list with the Modbus reads that cover its points) from a
    /// point list. The only error is out of memory.
    pub fn new(alloc: Global, list: PointList) -> Result<PlannedList, AllocError>
        ensures points { IfOk result (λ planned. planned.points ≡ list) }
        ensures planned { IfOk result IsPlanned }
    {
        let planned = plan(alloc, &list)?;
        let reads = planned.reads().to_vec(alloc)?;
        let _lawful = list.points();
        Ok(PlannedList { list, reads })
    }

    /// Returns the points, in the order of the point list.
    pub fn points(&self) -> &[ListedPoint]
        ensures points { result.now ≡ self.now.points }
        ensures planned { IsPlanned self.now }
    {
        self.list.points()
    }

    /// Returns the reads of the plan, in order of function, area number (no read has registers of
    /// two areas) and address.
    pub fn reads(&self) -> &[PlannedRead]
        ensures reads { result.now ≡ self.now.reads }
        ensures planned { IsPlanned self.now }
    {
        self.reads.as_slice()
    }
}

impl Clone for PlannedList {
    ghost use Rattle.std.specs.Prelude.{◌≡◌};

    ghost is_clone = { λ list copy. copy ≡ list };

    fn clone(&self) -> Result<PlannedList, AllocError> {
        let alloc = *self.reads.allocator();
        let list = copy_list(alloc, &self.list)?;
        let reads = self.reads.as_slice().to_vec(alloc)?;
        Ok(PlannedList { list, reads })
    }
}
