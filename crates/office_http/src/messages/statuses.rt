//! The HTTP status for each reason why the program refuses a query or a command.
ghost use Rattle.std.specs.Prelude.{◌≡◌};
ghost use Rattle.office_http.specs.Messages.Statuses.{status_of};

use crate::messages::Status;
use office_events::Refusal;

/// Returns the HTTP status of the response that reports a refusal.
pub fn status_of(refusal: Refusal) -> Status
    ensures { result ≡ status_of refusal }
{
    match refusal {
        Refusal::NotFound => Status::NotFound,
        Refusal::Exists
        | Refusal::ClockBack
        | Refusal::Ended
        | Refusal::Busy
        | Refusal::Reused
        | Refusal::NotVoidable => Status::Conflict,
        Refusal::BadScale
        | Refusal::NegativeStep
        | Refusal::NotLater
        | Refusal::SpanTooLong
        | Refusal::TotalFull
        | Refusal::Limit
        | Refusal::NotPlausible(_) => Status::Unprocessable,
        Refusal::Store(_) | Refusal::Memory | Refusal::Stopped => Status::Unavailable,
    }
}
