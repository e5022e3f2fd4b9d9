//! Adds up the energy of interval rows (energies of quarter hours) that arrive one by one, for a
//! range of civil days.
ghost use Rattle.std.specs.Prelude.{◌≡◌, if◌then◌else◌};

use interval_core::{DayRange, Share, Zone};
use office_books::RowSink;

/// Adds up the energy of the quarter hours that start in a range of days, by the clocks of a time
/// zone.
///
/// The sum of the energies of the quarter hours saturates at 2^128 - 1 mWh.
#[derive(Drop)]
pub struct EnergyWithin {
    zone: Zone,
    range: DayRange,
    mwh: u128,
}

impl EnergyWithin {
    ghost use Rattle.energy_report.specs.Energies.{IsFresh};

    /// Creates a sum of 0 mWh, to which the energies of quarter hours can be added.
    pub fn new(zone: Zone, range: DayRange) -> EnergyWithin
        ensures { IsFresh zone range result }
    {
        EnergyWithin {
            zone,
            range,
            mwh: 0,
        }
    }

    /// Returns the energy in mWh of the quarter hours received so far that start in the range of
    /// days.
    pub fn mwh(&self) -> u128
        ensures { result ≡ self.now.mwh }
    {
        self.mwh
    }
}

impl RowSink<Share> for EnergyWithin {
    ghost use Rattle.energy_report.specs.Energies.{AddsShare};

    ghost takes = { AddsShare };

    fn put(&mut self, row: Share) {
        let is_within = self.range.has_moment(&self.zone, row.start);
        let mwh = energy_if(is_within, row.mwh);
        self.mwh = self.mwh.saturating_add(u128::from(mwh));
    }
}

fn energy_if(is_within: bool, mwh: u64) -> u64
    ensures { result ≡ if is_within then mwh else 0 }
{
    if is_within { mwh } else { 0 }
}
