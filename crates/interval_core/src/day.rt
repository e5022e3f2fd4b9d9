//! The civil day of a timestamp in a time zone.
ghost use Rattle.std.specs.Prelude.{◌≡◌, ◌≤◌, IsOk, IfOk};
ghost use Rattle.jiff.specs.Words.{epoch_day};
ghost use Rattle.interval_core.specs.Zone.{day_at};
ghost use Rattle.interval_core.specs.Faults.{day_fault_number};

use crate::limits::LAST_MOMENT;
use crate::zone::Zone;
use jiff::Timestamp;
use jiff::civil::Date;
use std::alloc::AllocError;
use std::error::Error;
use std::fmt;
use std::fmt::{Display, Formatter};

/// The reason why a timestamp has no civil day.
#[derive(Clone, Copy, Debug)]
pub enum DayFault {
    /// The calendar has no instant with this timestamp. A timestamp up to `LAST_MOMENT` (the
    /// beginning of 2100) never causes this fault.
    Zone,
    /// The process is out of memory.
    Memory,
}

impl DayFault {
    /// Returns the numeric code of the fault (why a timestamp has no civil day), from 1. The
    /// program does not print or store this number.
    pub fn number(self) -> u8
        ensures { result ≡ day_fault_number self }
    {
        match self {
            DayFault::Zone => 1,
            DayFault::Memory => 2,
        }
    }
}

impl From<AllocError> for DayFault {
    ghost use Rattle.interval_core.specs.declared.day.DayFault.TheVariants.{Memory};

    ghost from_gives = { λ _ fault. fault ≡ Memory };

    fn from(_: AllocError) -> DayFault {
        DayFault::Memory
    }
}

impl Display for DayFault {
    fn fmt<W: fmt::Write>(&self, f: &mut Formatter<W>) -> fmt::Result {
        f.write_str(match self {
            DayFault::Zone => "the calendar has no such moment in this time zone",
            DayFault::Memory => "memory ran out",
        })
    }
}

impl Error for DayFault {}

/// Returns the civil day of a timestamp in the zone. `start` is in seconds since 1970-01-01 UTC.
pub fn day_of(zone: &Zone, start: u64) -> Result<Date, DayFault>
    requires { start ≤ LAST_MOMENT }
    ensures succeeds { IsOk result }
    ensures day { IfOk result (λ day. epoch_day day ≡ day_at zone.now start) }
{
    let Ok(instant) = Timestamp::from_second(start as i64) else {
        return Err(DayFault::Zone);
    };
    let clock = zone.rule().to_datetime(instant);
    Ok(clock.date())
}
