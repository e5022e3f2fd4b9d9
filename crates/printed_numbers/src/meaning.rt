//! Looks up the meaning of a printed numeric code by the code's kind.
ghost use Rattle.std.specs.Prelude.{◌≡◌, IfSome, is_some};
ghost use Rattle.printed_numbers.specs.Numbers.{IsMeaningOf, has_number};

use crate::kind::Kind;
use crate::tables::{
    chain_fault, exception, exit_status, hold, http_fault, loss, malformation, refusal, row_fault,
};

/// The meaning of a numeric code that the program prints, such as a refusal's code, its usual
/// cause, and its remedy. Each text is a sentence that begins with a small letter and has no full
/// stop.
#[derive(Clone, Copy)]
pub struct Meaning {
    pub kind: Kind,
    pub number: u32,
    pub means: &'static str,
    pub cause: &'static str,
    pub remedy: &'static str,
}

/// Returns the meaning of a printed numeric code of the given kind (for example, the cause of a
/// lost poll). `None` if no code of this kind has this number.
pub fn meaning_of(kind: Kind, number: u32) -> Option<&'static Meaning>
    ensures has { is_some result ≡ has_number kind number }
    ensures own { IfSome result (IsMeaningOf kind number) }
{
    match kind {
        Kind::Refused => refusal(number),
        Kind::Held => hold(number),
        Kind::Lost => loss(number),
        Kind::Malformed => malformation(number),
        Kind::Exception => exception(number),
        Kind::RowFault => row_fault(number),
        Kind::ChainFault => chain_fault(number),
        Kind::HttpFault => http_fault(number),
        Kind::Status => exit_status(number),
    }
}
