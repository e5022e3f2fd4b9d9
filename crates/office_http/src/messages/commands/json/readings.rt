//! Reads the JSON bodies that enter readings by hand, close meters, and void (cancel) entries of
//! meters.
ghost use Rattle.serde_json.specs.View.{view};
ghost use Rattle.office_http.specs.Messages.Commands.Json.Members.{Reads};
ghost use Rattle.office_http.specs.Messages.Commands.Json.Tables.{close_members, fault_of, manual_members, void_members};
ghost use Rattle.office_http.specs.Messages.Commands.Json.Commands.{IsClose, IsManual, IsVoid};

use crate::messages::commands::json::body::{Body, BodyFault};
use crate::messages::commands::json::members::{natural, natural_or_none, optional, whole};

/// A reading that is entered by hand. Without a timestamp in the body, the reading gets the
/// timestamp of the command.
#[derive(Clone, Copy)]
pub struct ManualBody {
    pub raw: u64,
    pub rolls: u64,
    pub at: Option<u64>,
}

/// The last reading of a meter that is closed, and the rollovers of its counter since the meter's
/// previous entry.
#[derive(Clone, Copy)]
pub struct CloseBody {
    pub raw: u64,
    pub rolls: u64,
}

/// The sequence number of the meter entry that a command voids (cancels as false).
#[derive(Clone, Copy)]
pub struct VoidBody {
    pub place: u64,
}

/// Reads the JSON body that enters a reading by hand.
pub fn manual_in(body: &Body) -> Result<ManualBody, BodyFault>
    ensures { Reads (fault_of manual_members (view body.now)) (IsManual (view body.now)) result }
{
    let raw = whole(body, "raw")?;
    let rolls = whole(body, "rolls")?;
    let at = optional(body, "at")?;
    Ok(ManualBody {
        raw: natural(raw)?,
        rolls: natural(rolls)?,
        at: natural_or_none(at)?,
    })
}

/// Reads the JSON body that closes a meter.
pub fn close_in(body: &Body) -> Result<CloseBody, BodyFault>
    ensures { Reads (fault_of close_members (view body.now)) (IsClose (view body.now)) result }
{
    let raw = whole(body, "raw")?;
    let rolls = whole(body, "rolls")?;
    Ok(CloseBody {
        raw: natural(raw)?,
        rolls: natural(rolls)?,
    })
}

/// Reads the JSON body of the command that voids (cancels) a meter entry.
pub fn void_in(body: &Body) -> Result<VoidBody, BodyFault>
    ensures { Reads (fault_of void_members (view body.now)) (IsVoid (view body.now)) result }
{
    let place = whole(body, "place")?;
    Ok(VoidBody {
        place: natural(place)?,
    })
}
