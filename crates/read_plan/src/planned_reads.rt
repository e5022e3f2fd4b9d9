//! The Modbus reads of a plan, which poll the points of a point list.
ghost use Rattle.std.specs.Prelude.{◌≡◌, ◌≤◌, IfOk, map};
ghost use Rattle.std.specs.List.{All};
ghost use Rattle.read_plan.specs.Plans.{IsReadable};

use crate::run::Run;
use mb_wire::{ADDRESSES, ReadSpan};
use std::alloc::{AllocError, Global};

/// One read of a plan (the Modbus reads that cover a point list): a range of registers of one area
/// number (no read has registers of two areas).
#[derive(Clone, Copy, PartialEq, Eq)]
pub struct PlannedRead {
    pub area: u8,
    pub span: ReadSpan,
}

impl PlannedRead {
    ghost use Rattle.read_plan.specs.PlannedReads.{read_run};

    pub(crate) fn run(&self) -> Run
        ensures { result ≡ read_run self.now }
    {
        let first = u32::from(self.span.address);
        Run {
            function: self.span.function,
            area: self.area,
            first,
            end: first + u32::from(self.span.count),
        }
    }

    pub(crate) fn of_run(run: &Run) -> PlannedRead
        requires readable { IsReadable run.now }
        requires inside { run.now.end ≤ ADDRESSES }
        ensures { read_run result ≡ run.now }
    {
        let count = run.end - run.first;
        PlannedRead {
            area: run.area,
            span: ReadSpan {
                function: run.function,
                address: run.first as u16,
                count: count as u16,
            },
        }
    }

    pub(crate) fn of_runs(alloc: Global, runs: &[Run]) -> Result<Vec<PlannedRead>, AllocError>
        requires readable { All IsReadable runs.now }
        requires inside { All (λ run. run.end ≤ ADDRESSES) runs.now }
        ensures { IfOk result (λ v. map read_run v.items ≡ runs.now) }
    {
        let mut reads = Vec::new(alloc);
        for run in runs {
            reads.push(PlannedRead::of_run(run))?;
        }
        Ok(reads)
    }
}
