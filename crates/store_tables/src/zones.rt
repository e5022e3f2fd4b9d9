//! The time zone of a store, which determines when its civil days begin.
ghost use Rattle.std.specs.Prelude.{◌≡◌, ◌↔◌, IsOk, IfOk, IfErr};
ghost use Rattle.interval_core.specs.Zone.{HasRule};
ghost use Rattle.store_tables.specs.Zones.{IsZone};

use crate::open_faults::OpenFault;
use interval_core::Zone;

/// Parses a time zone: a POSIX rule of at most 64 bytes.
pub(crate) fn zone_of(text: &str) -> Result<Zone, OpenFault>
    ensures read { IsOk result ↔ IsZone text.now }
    ensures value { IfOk result (HasRule text.now) }
    ensures fault { IfErr result (λ fault. fault ≡ OpenFault.Zone) }
{
    match Zone::read(text) {
        Ok(zone) => Ok(zone),
        Err(_) => Err(OpenFault::Zone),
    }
}
