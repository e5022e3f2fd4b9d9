//! The sentence that describes each fault of an entry, and each cause to reject a reading.
use crate::admission::TermFault;
use crate::verdicts::Cause;
use std::error::Error;
use std::fmt;
use std::fmt::{Display, Formatter};

impl Display for Cause {
    fn fmt<W: fmt::Write>(&self, f: &mut Formatter<W>) -> fmt::Result {
        f.write_str(match self {
            Cause::NotAccumulated => "the counter shows 0, as one does that does not count",
            Cause::ScaleChanged => "the scale factor is not that of the last entry",
            Cause::NotLater => "the reading is not later than the last entry",
            Cause::SpanTooLong => "more than 3000 quarter hours passed since the last entry",
            Cause::GapTooLong => "the counter could have made a full turn since the last entry",
            Cause::TooFast => "the counter went further than the ceiling allows",
            Cause::TotalFull => "the energy of the installation would pass 4 * 10^18 mWh",
            Cause::NotBelowRange => "the counter shows a number that is not below its range",
        })
    }
}

impl Error for Cause {}

impl Display for TermFault {
    fn fmt<W: fmt::Write>(&self, f: &mut Formatter<W>) -> fmt::Result {
        f.write_str(match self {
            TermFault::NegativeStep => "the counter would have gone back since the last entry",
            TermFault::NotLater => "the entry is not later than the last one",
            TermFault::SpanTooLong => "more than 3000 quarter hours passed since the last entry",
            TermFault::TotalFull => "the energy of the installation would pass 4 * 10^18 mWh",
            TermFault::BadScale => "the scale factor is not from -3 to 3",
            TermFault::NotBelowRange => "a number of the entry is not below the counter's range",
        })
    }
}

impl Error for TermFault {}
