//! A sink that adds up interval rows (energy by quarter hour) by civil day. A sink receives the
//! rows of a query one by one.
ghost use Rattle.std.specs.Prelude.{◌≡◌};
ghost use Rattle.std.proofs.Props.{props};

use interval_core::{DayFault, DayFold, DayTotal, LAST_MOMENT, Share, Zone};
use office_books::RowSink;
use office_events::{Refusal, StoreCause};
use std::alloc::Global;

/// A sink that adds up interval rows (energy by quarter hour) by civil day. After its first
/// failure, the sink ignores all further rows.
#[derive(Drop)]
pub struct DaySink {
    zone: Zone,
    fold: DayFold,
    latest: Option<u64>,
    fault: Option<DayFault>,
    ghost in_step: { fold.latest ≡ latest } by { Prim.hlevel props },
}

impl DaySink {
    ghost use Rattle.std.specs.Prelude.{◌≡◌, [], None};
    ghost use Rattle.interval_core.specs.Fold.{HasTaken};
    ghost use Rattle.office_core.specs.DaySums.{AddsRow, EndsAs};

    /// Creates a sink that adds up interval rows (energy by quarter hour) by civil day and has
    /// received no rows, without allocating memory.
    pub fn new(alloc: Global, zone: Zone) -> DaySink
        ensures zone { result.zone ≡ zone }
        ensures works { result.fault ≡ None }
        ensures empty { HasTaken zone [] result.fold }
    {
        DaySink {
            zone,
            fold: DayFold::new(alloc),
            latest: None,
            fault: None,
        }
    }

    /// Adds an interval row (the energy of a quarter hour) to the energy of its civil day. The sink
    /// fails if the row starts before an earlier row or after the last timestamp that has a civil
    /// day.
    fn add(&mut self, row: Share)
        requires works { self.old.fault ≡ None }
        ensures { AddsRow self.old row self.new }
    {
        if row.start < self.latest.unwrap_or(0) || LAST_MOMENT < row.start {
            self.fault = Some(DayFault::Zone);
            return;
        }
        match self.fold.push(row.start, row.mwh, &self.zone) {
            Ok(()) => self.latest = Some(row.start),
            Err(fault) => self.fault = Some(fault),
        }
    }

    /// Returns the energy of each civil day, in order, or the refusal that reports the sink's first
    /// failure.
    pub fn into_days(self) -> Result<Vec<DayTotal>, Refusal>
        ensures { EndsAs self.fault self.fold.accounts result }
    {
        match self.fault {
            None => Ok(self.fold.into_rows()),
            Some(DayFault::Zone) => Err(Refusal::Store(StoreCause::NoDay)),
            Some(DayFault::Memory) => Err(Refusal::Memory),
        }
    }
}

impl RowSink<Share> for DaySink {
    ghost use Rattle.office_core.specs.DaySums.{TakesShare};

    ghost takes = { TakesShare };

    fn put(&mut self, row: Share) {
        if self.fault.is_none() {
            self.add(row);
        }
    }
}
