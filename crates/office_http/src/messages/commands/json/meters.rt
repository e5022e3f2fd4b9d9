//! Reads the JSON bodies that install and replace meters, and that record resets and scale changes
//! of their counters.
ghost use Rattle.serde_json.specs.View.{view};
ghost use Rattle.office_http.specs.Messages.Commands.Json.Members.{Reads};
ghost use Rattle.office_http.specs.Messages.Commands.Json.Tables.{exchange_members, fault_of, install_members};
ghost use Rattle.office_http.specs.Messages.Commands.Json.Tables.{rescale_members, reset_members};
ghost use Rattle.office_http.specs.Messages.Commands.Json.Commands.{IsExchange, IsInstall, IsRescale, IsReset};

use crate::messages::commands::json::body::{Body, BodyFault};
use crate::messages::commands::json::members::{natural, natural_or_none, optional, text, whole};

/// The values in the JSON body that installs a meter, with the meter's first reading.
#[derive(Clone, Copy)]
pub struct InstallBody<'b> {
    pub meter: &'b str,
    pub raw: u64,
    pub sf: i64,
    pub ceiling: u64,
    pub range: Option<u64>,
}

/// The values in the JSON body that replaces a meter: the old meter's last reading, the rollovers
/// of its counter since its previous entry, and the new meter.
#[derive(Clone, Copy)]
pub struct ExchangeBody<'b> {
    pub last: u64,
    pub rolls: u64,
    pub install: InstallBody<'b>,
}

/// The counter of a meter before and after a reset, in counter units.
#[derive(Clone, Copy)]
pub struct ResetBody {
    pub before: u64,
    pub after: u64,
}

/// The counter of a meter before and after a change of scale, and the new scale exponent.
#[derive(Clone, Copy)]
pub struct RescaleBody {
    pub before: u64,
    pub after: u64,
    pub sf: i64,
}

/// Reads the JSON body that installs a meter.
pub fn install_in(body: &Body) -> Result<InstallBody<'_>, BodyFault>
    ensures { Reads (fault_of install_members (view body.now)) (IsInstall (view body.now)) result }
{
    let meter = text(body, "meter")?;
    let raw = whole(body, "raw")?;
    let sf = whole(body, "sf")?;
    let ceiling = whole(body, "ceiling")?;
    let range = optional(body, "range")?;
    Ok(InstallBody {
        meter,
        raw: natural(raw)?,
        sf,
        ceiling: natural(ceiling)?,
        range: natural_or_none(range)?,
    })
}

/// Reads the JSON body that replaces a meter by another meter.
pub fn exchange_in(body: &Body) -> Result<ExchangeBody<'_>, BodyFault>
    ensures { Reads (fault_of exchange_members (view body.now))
        (IsExchange (view body.now)) result }
{
    let last = whole(body, "last")?;
    let rolls = whole(body, "rolls")?;
    match install_in(body) {
        Err(BodyFault::Malformed) => Err(BodyFault::Malformed),
        install => Ok(ExchangeBody {
            last: natural(last)?,
            rolls: natural(rolls)?,
            install: install?,
        }),
    }
}

/// Reads the JSON body that records a reset of a meter's counter.
pub fn reset_in(body: &Body) -> Result<ResetBody, BodyFault>
    ensures { Reads (fault_of reset_members (view body.now)) (IsReset (view body.now)) result }
{
    let before = whole(body, "before")?;
    let after = whole(body, "after")?;
    Ok(ResetBody {
        before: natural(before)?,
        after: natural(after)?,
    })
}

/// Reads the JSON body that records a change of a meter's scale.
pub fn rescale_in(body: &Body) -> Result<RescaleBody, BodyFault>
    ensures { Reads (fault_of rescale_members (view body.now)) (IsRescale (view body.now)) result }
{
    let before = whole(body, "before")?;
    let after = whole(body, "after")?;
    let sf = whole(body, "sf")?;
    Ok(RescaleBody {
        before: natural(before)?,
        after: natural(after)?,
        sf,
    })
}
