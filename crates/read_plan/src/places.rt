//! A plan of Modbus reads, and the location of each point in these reads.
ghost use Rattle.std.specs.Prelude.{◌≡◌, ◌<◌, length, slice_index_or};

use crate::beginnings::ends_by_limit;
use crate::planned_reads::PlannedRead;
use crate::run::Run;
use std::marker::Model;

/// The location of a point in the reads of a plan.
#[derive(Clone, Copy, PartialEq, Eq)]
pub struct Place {
    /// The index, from 0, of the Modbus read in the plan that contains the point.
    pub read: usize,
    /// The number of the read's registers that precede the point's first register.
    pub offset: u16,
}

/// The reads of a point list, and the location of each point in them.
#[derive(Drop)]
pub struct Plan {
    starts: Vec<u16>,
    items: Vec<Run>,
    reads: Vec<PlannedRead>,
}

impl Model for Plan {
    ghost use Rattle.read_plan.specs.PlannedReads.{Planned};

    ghost Value = { Planned };

    ghost use Rattle.read_plan.specs.PlannedReads.{IsPlan};

    ghost view = { λ p.
        record { starts = p.starts.items; items = p.items.items; reads = p.reads.items } };

    ghost invariant = { λ p. IsPlan
        (record { starts = p.starts.items; items = p.items.items; reads = p.reads.items }) };
}

impl Plan {
    ghost use Rattle.read_plan.specs.PlannedReads.{IsFirstHolding, IsPlan, StandsAt, read_runs};
    ghost use Rattle.read_plan.specs.declared.run.Run.{Run};

    pub(crate) fn new(starts: Vec<u16>, items: Vec<Run>, reads: Vec<PlannedRead>) -> Plan
        requires { IsPlan
            (record { starts = starts.items; items = items.items; reads = reads.items }) }
        ensures starts { result.starts ≡ starts.items }
        ensures items { result.items ≡ items.items }
        ensures reads { result.reads ≡ reads.items }
    {
        Plan {
            starts,
            items,
            reads,
        }
    }

    /// Returns the reads of the plan, in order of function, area number (no read has registers of
    /// two areas) and address.
    pub fn reads(&self) -> &[PlannedRead]
        ensures { result.now ≡ self.now.reads }
    {
        self.reads.as_slice()
    }

    /// Returns the number of points in the point list whose Modbus reads the plan has.
    pub fn point_count(&self) -> usize
        ensures { result ≡ length self.now.items }
    {
        self.items.len()
    }

    /// Returns the location of the point at this index of the point list, from 0: the first read
    /// that contains the point and its scale point, and the point's offset in that read.
    pub fn place(&self, point: usize) -> Place
        requires { point < length self.now.items }
        ensures first { (d : Run) → IsFirstHolding (read_runs self.now.reads)
            (slice_index_or self.now.items point d) result.read }
        ensures offset { StandsAt self.now point result.read result.offset }
    {
        let item = self.items[point];
        let read = self
            .reads
            .partition_point(|read| !ends_by_limit(&item, &read.run()));
        let address = self.reads[read].span.address;
        Place {
            read,
            offset: self.starts[point] - address,
        }
    }
}
