//! The reasons why the program refuses an event or a query.
use energy_core::Cause;
use std::error::Error;
use std::fmt;
use std::fmt::{Display, Formatter};

/// The cause of a store failure.
#[derive(Clone, Copy, Debug, PartialEq, Eq)]
pub enum StoreCause {
    /// The store rejected a record, its storage failed, or all poll numbers are used.
    Refused,
    /// The store contains inconsistent data.
    Damaged,
    /// A quarter hour has no civil day in the store's time zone. The store itself did not fail.
    NoDay,
}

impl StoreCause {
    ghost use Rattle.std.specs.Prelude.{◌≡◌};
    ghost use Rattle.office_events.specs.Numbers.{store_number};

    /// Returns the numeric code of the cause of a store failure. The program does not print this
    /// code.
    pub fn number(self) -> u8
        ensures { result ≡ store_number self }
    {
        match self {
            StoreCause::Refused => 1,
            StoreCause::Damaged => 2,
            StoreCause::NoDay => 3,
        }
    }
}

impl Display for StoreCause {
    fn fmt<W: fmt::Write>(&self, f: &mut Formatter<W>) -> fmt::Result {
        f.write_str(match self {
            StoreCause::Refused => "the store of the books refused or failed",
            StoreCause::Damaged => "the store of the books is damaged: it holds what cannot be",
            StoreCause::NoDay => "an interval row has no civil day in the zone of the books",
        })
    }
}

impl Error for StoreCause {}

/// The reason why the program refuses an event or a query. If several reasons apply, the program
/// reports `Stopped` (it refuses everything) first. Then it reports `Reused` (another request has
/// this idempotency key), then the reason with the smallest numeric code. As an exception, `Store`
/// (a failure of the store) comes after `NotPlausible`.
#[derive(Clone, Copy, Debug, PartialEq, Eq)]
pub enum Refusal {
    /// The store has no device, accounting register (a named energy counter), meter, point list,
    /// entry or poll with the given name or number.
    NotFound,
    /// A device, accounting register (a named energy counter) or meter already has the given name,
    /// or the accounting register already has an open meter.
    Exists,
    /// The event's timestamp is before the timestamp of the latest accepted event.
    ClockBack,
    /// A scale factor (an exponent of ten) is not from -3 to 3.
    BadScale,
    /// The counter value of the new entry, with its rollovers added, is less than the meter's last
    /// counter value.
    NegativeStep,
    /// The timestamp of the new entry is not later than the timestamp of the meter's last entry.
    NotLater,
    /// The time from the meter's last entry to the new entry covers more than 3,000 quarter hours.
    SpanTooLong,
    /// With the new entry, the total energy of the meter would exceed its limit of 4 * 10^18 mWh.
    TotalFull,
    /// The meter that was installed at the accounting register (a named energy counter) is closed.
    Ended,
    /// For an event of a device's connection: the device is not connected, or is already connected.
    /// For a command that starts polls: the device is not connected, or too many of its polls wait
    /// for responses.
    Busy,
    /// The caller already used this idempotency key for a different request.
    Reused,
    /// A name, a number or a timestamp is out of range, or a limit such as the number of devices is
    /// reached.
    Limit,
    /// The store failed, all poll numbers are used, or a quarter hour has no civil day.
    Store(StoreCause),
    /// Memory ran out.
    Memory,
    /// The program stopped earlier (it refuses everything), because the store failed, or memory ran
    /// out while the program processed the outcomes of polls.
    Stopped,
    /// The meter entry to void is already voided (cancelled), or this entry or the next entry that
    /// is not voided is not a reading from the device.
    NotVoidable,
    /// Without the entry to void (cancel), the program would have rejected the next entry for the
    /// given cause.
    NotPlausible(Cause),
}

impl Refusal {
    ghost use Rattle.std.specs.Prelude.{◌≡◌};
    ghost use Rattle.office_events.specs.Numbers.{refusal_number};

    /// Returns the numeric code that the program prints for the refusal.
    pub fn number(self) -> u8
        ensures { result ≡ refusal_number self }
    {
        match self {
            Refusal::NotFound => 1,
            Refusal::Exists => 2,
            Refusal::ClockBack => 3,
            Refusal::BadScale => 4,
            Refusal::NegativeStep => 5,
            Refusal::NotLater => 6,
            Refusal::SpanTooLong => 7,
            Refusal::TotalFull => 8,
            Refusal::Ended => 9,
            Refusal::Busy => 10,
            Refusal::Reused => 11,
            Refusal::Limit => 12,
            Refusal::Store(_) => 13,
            Refusal::Memory => 14,
            Refusal::Stopped => 15,
            Refusal::NotVoidable => 16,
            Refusal::NotPlausible(_) => 17,
        }
    }
}

impl Display for Refusal {
    fn fmt<W: fmt::Write>(&self, f: &mut Formatter<W>) -> fmt::Result {
        match self {
            Refusal::NotFound => write!(
                f,
                "no device, register, meter, list, entry or poll has that name, place or number"
            ),
            Refusal::Exists => write!(f, "the name is taken, or a meter is open at the register"),
            Refusal::ClockBack => write!(
                f,
                "the moment is before that of the latest accepted event"
            ),
            Refusal::BadScale => write!(f, "the scale is not from -3 to 3"),
            Refusal::NegativeStep => write!(
                f,
                "the counter would have gone back since the last entry"
            ),
            Refusal::NotLater => write!(f, "the moment is not later than that of the last entry"),
            Refusal::SpanTooLong => write!(
                f,
                "more than 3000 quarter hours passed since the last entry"
            ),
            Refusal::TotalFull => write!(f, "the energy of the meter would pass 4 * 10^18 mWh"),
            Refusal::Ended => write!(f, "the meter at the register was closed"),
            Refusal::Busy => write!(
                f,
                "the device is not connected, is connected already, or can start no poll now"
            ),
            Refusal::Reused => write!(f, "the caller used the number for another request"),
            Refusal::Limit => write!(
                f,
                "a name, a number or a moment is out of its range, or there is no room for one more"
            ),
            Refusal::Store(cause) => write!(f, "{cause}"),
            Refusal::Memory => write!(f, "memory ran out"),
            Refusal::Stopped => write!(
                f,
                "the office has stopped, as the books or memory failed while polls were settled: open it again"
            ),
            Refusal::NotVoidable => write!(
                f,
                "the entry is no reading of the device that stands, or the next that stands is none"
            ),
            Refusal::NotPlausible(cause) => write!(
                f,
                "the next entry would have been held after the one before: {cause}"
            ),
        }
    }
}

impl Error for Refusal {}
