//! Adds up the energy intervals (energies of quarter hours) of several database files by civil day.
ghost use Rattle.std.specs.Prelude.{◌≡◌, map};
ghost use Rattle.std.proofs.Props.{props};

use interval_core::{DayFault, DayFold, DayTotal, LAST_MOMENT, Share, Zone};
use office_books::RowSink;
use office_events::{Refusal, StoreCause};
use std::alloc::{AllocError, Global};

/// Adds up energy intervals (energies of quarter hours) by civil day, as they arrive.
///
/// An energy interval (energy of a quarter hour) is out of order if it starts before an interval
/// added earlier, or after the largest supported timestamp. The sum records this as a fault. After
/// a fault, or after memory ran out, all further intervals are dropped.
#[derive(Drop)]
pub struct JoinedDays {
    zone: Zone,
    fold: DayFold,
    latest: Option<u64>,
    fault: Option<DayFault>,
    ghost in_step: { fold.latest ≡ latest } by { Prim.hlevel props },
}

impl JoinedDays {
    ghost use Rattle.std.specs.Prelude.{◌≡◌, [], None};
    ghost use Rattle.interval_core.specs.Days.{account_of};
    ghost use Rattle.interval_core.specs.Fold.{HasTaken};
    ghost use Rattle.office_core.specs.DaySums.{EndsAs};
    ghost use Rattle.carried_books.specs.Joining.Days.{AddsRow};

    /// Creates a sum of energy by civil day to which no interval was added yet. The function
    /// allocates no memory.
    pub fn new(alloc: Global, zone: Zone) -> JoinedDays
        ensures zone { result.zone ≡ zone }
        ensures works { result.fault ≡ None }
        ensures empty { HasTaken zone [] result.fold }
    {
        JoinedDays {
            zone,
            fold: DayFold::new(alloc),
            latest: None,
            fault: None,
        }
    }

    /// Returns the time zone by which energy intervals are assigned to civil days.
    pub fn zone(&self) -> Zone
        ensures { result ≡ self.now.zone }
    {
        self.zone
    }

    // Adds an energy interval (energy of a quarter hour) to the sum by civil day. If the interval
    // is out of order, or if memory runs out, records this fault instead.
    fn add(&mut self, row: Share)
        requires works { self.old.fault ≡ None }
        ensures { AddsRow self.old row self.new }
    {
        if row.start < self.latest.unwrap_or(0) || LAST_MOMENT < row.start {
            self.fault = Some(DayFault::Zone);
            return;
        }
        match self.fold.push(row.start, row.mwh, &self.zone) {
            Ok(()) => self.latest = Some(row.start),
            Err(fault) => self.fault = Some(fault),
        }
    }

    /// Returns the first failure of the sum, if any: an energy interval was out of order, or memory
    /// ran out.
    pub fn fault(&self) -> Option<DayFault>
        ensures { result ≡ self.now.fault }
    {
        self.fault
    }

    /// Returns the civil days with their energy, in order, or the refusal for the first failure. An
    /// interval out of order has the same refusal as an interval without a civil day.
    pub(crate) fn into_days(self) -> Result<Vec<DayTotal>, Refusal>
        ensures { EndsAs self.fault self.fold.accounts result }
    {
        match self.fault {
            None => Ok(self.fold.into_rows()),
            Some(DayFault::Zone) => Err(Refusal::Store(StoreCause::NoDay)),
            Some(DayFault::Memory) => Err(Refusal::Memory),
        }
    }

    /// Returns the civil days of the energy intervals that were added so far, in order, with their
    /// energy.
    pub fn into_rows(self) -> Vec<DayTotal>
        ensures { map account_of result.items ≡ self.fold.accounts }
    {
        self.fold.into_rows()
    }
}

/// The sum of energy intervals of earlier files by civil day, without the time zone of the days.
///
/// The type of the earlier files' energy by day has no time zone, because of a limit of the proof
/// system. The proof system has no rule for a call that uses a file's database and borrows a value
/// with a time zone.
#[derive(Drop)]
pub struct EarlierDays {
    fold: DayFold,
    latest: Option<u64>,
    ghost in_step: { fold.latest ≡ latest } by { Prim.hlevel props },
}

impl EarlierDays {
    ghost use Rattle.std.specs.Prelude.{◌≡◌, IfOk};
    ghost use Rattle.interval_core.specs.Days.{account_of};
    ghost use Rattle.carried_books.specs.Joining.Days.{GoesOnFrom};

    /// Creates the sum of the earlier files' energy by civil day from `days`, the data that were
    /// collected from these files. The time zone is dropped.
    pub fn new(days: JoinedDays) -> EarlierDays
        ensures { result.fold ≡ days.fold }
    {
        let JoinedDays { fold, latest, .. } = days;
        EarlierDays { fold, latest }
    }

    /// Returns the energy of each civil day in earlier database files, in order.
    pub fn into_rows(self) -> Vec<DayTotal>
        ensures { map account_of result.items ≡ self.fold.accounts }
    {
        self.fold.into_rows()
    }

    /// Returns a copy of a sum of energy by day, to which further energy intervals can be added, by
    /// the civil days of the time zone `zone`.
    pub(crate) fn continue_in(&self, zone: Zone) -> Result<JoinedDays, AllocError>
        ensures { IfOk result (GoesOnFrom zone self.now) }
    {
        let fold = self.fold.clone()?;
        Ok(JoinedDays {
            zone,
            fold,
            latest: self.latest,
            fault: None,
        })
    }
}

impl RowSink<Share> for JoinedDays {
    ghost use Rattle.carried_books.specs.Joining.Days.{TakesShare};

    ghost takes = { TakesShare };

    fn put(&mut self, row: Share) {
        if self.fault.is_none() {
            self.add(row);
        }
    }
}
