//! Adds up the energies of quarter hours of an accounting register (a named energy counter) by
//! civil day.
ghost use Rattle.std.specs.Prelude.{◌≡◌, ◌+◌, ◌-◌, ◌≤◌, ◌<◌, ◌^◌, ◌++◌, ◌∷◌, [], List, Option};
ghost use Rattle.std.specs.Prelude.{Some, None, map, length, All, Contains, IsOk, IfOk, IfErr};
ghost use Rattle.std.specs.Prelude.{OnOk, OnErr};
ghost use Rattle.std.specs.Option.{ForSome};
ghost use Rattle.std.specs.List.Sorted.{IsNonDecreasingBy};
ghost use Rattle.jiff.specs.Words.{epoch_day};
ghost use Rattle.interval_core.specs.Days.{account_of, days_of, AreAccounts, AreInOrder};
ghost use Rattle.interval_core.specs.Fold.{IsPlace, HoldsDay, IsGap, IsAdded};

use crate::day::{DayFault, day_of};
use crate::limits::LAST_MOMENT;
use crate::shares::Share;
use crate::zone::Zone;
use jiff::civil::Date;
use std::alloc::{AllocError, Global};
use std::marker::Model;

/// A civil day, the number of its quarter hours that have a row, and their energy in mWh. A quarter
/// hour with several rows counts once.
#[derive(Clone, Copy, PartialEq, Eq)]
pub struct DayTotal {
    pub day: Date,
    pub count: u32,
    pub mwh: u128,
}

/// Adds up interval rows (energies of quarter hours) by civil day. The caller pushes the rows one
/// by one, in order of their starts.
#[derive(Drop)]
pub struct DayFold {
    totals: Vec<DayTotal>,
    latest: Option<u64>,
}

impl Model for DayFold {
    ghost use Rattle.std.specs.Prelude.{map};
    ghost use Rattle.interval_core.specs.Days.{account_of};
    ghost use Rattle.interval_core.specs.Fold.{FoldState, IsSoundFold};

    ghost Value = { FoldState };

    ghost view = { λ f. record { accounts = map account_of f.totals.items; latest = f.latest } };

    ghost invariant = { λ f. IsSoundFold (map account_of f.totals.items) f.latest };
}

impl DayFold {
    ghost use Rattle.interval_core.specs.Fold.{no_rows, HasTaken, TakesRow};
    ghost use Rattle.interval_core.specs.Zone.{day_at};

    /// Creates a fold (a sum of energy by civil day) without rows. The fold stores the allocator,
    /// which only `push` uses.
    pub fn new(alloc: Global) -> DayFold
        ensures empty { result ≡ no_rows }
        ensures taken { (zone : Zone) → HasTaken zone [] result }
    {
        DayFold {
            totals: Vec::new(alloc),
            latest: None,
        }
    }

    /// Returns the civil days of all interval rows (energies of quarter hours) that were added to
    /// this sum, with their energy, in order. This function allocates nothing.
    pub fn rows(&self) -> &[DayTotal]
        ensures accounts { map account_of result.now ≡ self.now.accounts }
        ensures in_order { AreInOrder self.now.accounts }
    {
        self.totals.as_slice()
    }

    /// Converts a `DayFold` (a sum of energy by civil day) to the list of its civil days with their
    /// energy, in order. This function allocates nothing.
    pub fn into_rows(self) -> Vec<DayTotal>
        ensures { map account_of result.items ≡ self.accounts }
    {
        let DayFold { totals, latest: _ } = self;
        totals
    }

    /// Adds an interval row: `mwh` of energy in the quarter hour from `start`. The row belongs to
    /// the civil day of `start` in the zone.
    ///
    /// An interval row with the same start as the latest row does not count as another quarter
    /// hour. The energy of a day saturates at 2^128 - 1 mWh. The only error is out of memory, which
    /// leaves the sum of energy by day unchanged.
    pub fn push(&mut self, start: u64, mwh: u64, zone: &Zone) -> Result<(), DayFault>
        requires moment { start ≤ LAST_MOMENT }
        requires not_back { ForSome self.old.latest (λ latest. latest ≤ start) }
        ensures taken { let row : Share = record { start = start; mwh = mwh } in
            TakesRow zone.now row self.old result self.new }
        ensures latest { OnOk result (self.new.latest ≡ Some start) }
        ensures known { Contains (days_of self.old.accounts) (day_at zone.now start) → IsOk result }
        ensures err { OnErr result (self.new ≡ self.old) }
        ensures memory { IfErr result (λ fault. fault ≡ DayFault.Memory) }
    {
        let day = day_of(zone, start)?;
        let is_new = self.latest != Some(start);
        add(&mut self.totals, day, is_new, mwh)?;
        self.latest = Some(start);
        Ok(())
    }
}

/// Copies a `DayFold`, with the civil days of all pushed rows and their energy. Pushing rows to the
/// copy leaves the original unchanged.
impl Clone for DayFold {
    ghost use Rattle.std.specs.Prelude.{◌≡◌};

    ghost is_clone = { λ fold copy. copy ≡ fold };

    fn clone(&self) -> Result<DayFold, AllocError> {
        let totals = self.totals.as_slice().to_vec(*self.totals.allocator())?;
        Ok(DayFold {
            totals,
            latest: self.latest,
        })
    }
}

/// Returns the civil days of interval rows (energies of quarter hours), which must be in order of
/// their starts. Each day has the number of its quarter hours and their energy in mWh. A quarter
/// hour with several rows counts once.
pub fn by_day(alloc: Global, rows: &[Share], zone: &Zone) -> Result<Vec<DayTotal>, DayFault>
    requires never_back { IsNonDecreasingBy (λ row. row.start) rows.now }
    requires moments { All (λ row. row.start ≤ LAST_MOMENT) rows.now }
    ensures accounts { IfOk result
        (λ totals. AreAccounts zone.now rows.now (map account_of totals.items)) }
    ensures memory { IfErr result (λ fault. fault ≡ DayFault.Memory) }
{
    let mut fold = DayFold::new(alloc);
    for row in rows {
        fold.push(row.start, row.mwh, zone)?;
    }
    Ok(fold.into_rows())
}

/// Returns the index of the first day total in the list whose day is not before `day`. The search
/// begins at the end of the list, where the latest days are.
fn place_of(totals: &[DayTotal], day: Date) -> usize
    ensures within { result ≤ length totals.now }
    ensures place { AreInOrder (map account_of totals.now)
        → IsPlace (epoch_day day) (map account_of totals.now) result }
{
    let mut place = totals.len();
    while place > 0 && day <= totals[place - 1].day {
        place -= 1;
    }
    place
}

/// Returns the index of a day's total in the list as `Ok`, or the index at which to insert the
/// total as `Err`.
fn find_day(totals: &[DayTotal], day: Date) -> Result<usize, usize>
    requires { AreInOrder (map account_of totals.now) }
    ensures found { IfOk result (HoldsDay (epoch_day day) (map account_of totals.now)) }
    ensures missing { IfErr result (IsGap (epoch_day day) (map account_of totals.now)) }
{
    let place = place_of(totals, day);
    if place < totals.len() && totals[place].day == day {
        Ok(place)
    } else {
        Err(place)
    }
}

/// Adds `mwh` (milliwatt-hours) to the total of a day, or inserts a total for the day if it is
/// missing. If `is_new`, an existing total counts one more quarter hour.
fn add(totals: &mut Vec<DayTotal>, day: Date, is_new: bool, mwh: u64) -> Result<(), AllocError>
    requires in_order { AreInOrder (map account_of totals.old.items) }
    requires counts { All (λ total. total.count < 2 ^ 32 - 1) totals.old.items }
    ensures ok { OnOk result (IsAdded (epoch_day day) is_new mwh (map account_of totals.old.items)
        (map account_of totals.new.items)) }
    ensures known { Contains (days_of (map account_of totals.old.items)) (epoch_day day)
        → IsOk result }
    ensures err { OnErr result (totals.new.items ≡ totals.old.items) }
{
    match find_day(totals, day) {
        Ok(place) => {
            let total = totals[place];
            totals[place] = DayTotal {
                day,
                count: total.count + u32::from(is_new),
                mwh: total.mwh.saturating_add(u128::from(mwh)),
            };
        }
        Err(place) => {
            let total = DayTotal {
                day,
                count: 1,
                mwh: u128::from(mwh),
            };
            totals.insert(place, total)?;
        }
    }
    Ok(())
}
