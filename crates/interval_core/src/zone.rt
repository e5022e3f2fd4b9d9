//! Time zones, each described by a POSIX rule such as `UTC0`.
ghost use Rattle.std.specs.Prelude.{◌↔◌, IsOk, IfOk, IfErr, ◌≡◌, Ok, Err};
ghost use Rattle.interval_core.specs.Zone.{HasRule, IsZoneText, rule_of};
ghost use Rattle.interval_core.specs.Faults.{zone_fault_number};

use crate::limits::MAX_ZONE_TEXT;
use jiff::tz::TimeZone;
use std::error::Error;
use std::fmt;
use std::fmt::{Display, Formatter};

/// The reason why a text does not describe a time zone.
#[derive(Clone, Copy, Debug, PartialEq, Eq)]
pub enum ZoneFault {
    /// The text is not a POSIX time zone rule of at most 64 bytes.
    Text,
    /// The process is out of memory. No function returns this fault, because a time zone allocates
    /// nothing.
    Memory,
}

impl ZoneFault {
    /// Returns the numeric code of the time zone fault, from 1. The program does not print or store
    /// this number.
    pub fn number(self) -> u8
        ensures { result ≡ zone_fault_number self }
    {
        match self {
            ZoneFault::Text => 1,
            ZoneFault::Memory => 2,
        }
    }
}

impl Display for ZoneFault {
    fn fmt<W: fmt::Write>(&self, f: &mut Formatter<W>) -> fmt::Result {
        f.write_str(match self {
            ZoneFault::Text =>
                "the text is no POSIX time zone of at most 64 bytes, as UTC0 or CET-1CEST,M3.5.0,M10.5.0/3",
            ZoneFault::Memory => "memory ran out",
        })
    }
}

impl Error for ZoneFault {}

/// A time zone, which determines the UTC offset at each timestamp.
#[derive(Clone, Copy, Debug)]
pub struct Zone {
    rule: TimeZone<'static>,
}

impl Zone {
    /// Parses a POSIX rule of at most 64 bytes, such as `UTC0` or `CET-1CEST,M3.5.0,M10.5.0/3`.
    pub fn read(text: &str) -> Result<Zone, ZoneFault>
        ensures succeeds { IsOk result ↔ IsZoneText text.now }
        ensures value { IfOk result (HasRule text.now) }
        ensures err { IfErr result (λ fault. fault ≡ ZoneFault.Text) }
    {
        if text.len() > MAX_ZONE_TEXT {
            return Err(ZoneFault::Text);
        }
        match TimeZone::posix(text) {
            Ok(rule) => Ok(Zone { rule }),
            Err(_) => Err(ZoneFault::Text),
        }
    }

    /// Returns the time zone as a `TimeZone` of the crate `jiff`.
    pub(crate) fn rule(&self) -> &TimeZone<'static>
        ensures { result.now ≡ rule_of self.now }
    {
        &self.rule
    }
}
