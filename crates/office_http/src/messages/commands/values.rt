//! Converts the members of a JSON body to the values of a command's fields.
ghost use Rattle.std.specs.Prelude.{◌≡◌};
ghost use Rattle.office_events.specs.Names.{named};
ghost use Rattle.office_http.specs.Messages.Commands.Values.{or_full_range};
ghost use Rattle.office_http.specs.Messages.Commands.Seen.{scale_seen};

use crate::messages::commands::json::Scale;
use energy_core::MAX_RANGE;
use office_events::{GivenScale, Name};

// Returns the text as a name, if it is a valid name.
pub(crate) fn name(text: &str) -> Option<Name>
    ensures { result ≡ named text.now }
{
    Name::new(text.as_bytes())
}

pub(crate) fn or_full_range(range: Option<u64>) -> u64
    ensures { result ≡ or_full_range range }
{
    match range {
        Some(range) => range,
        None => MAX_RANGE,
    }
}

pub(crate) fn given_scale(scale: Scale) -> GivenScale
    ensures { result ≡ scale_seen scale }
{
    match scale {
        Scale::Fixed(sf) => GivenScale::Fixed(sf),
        Scale::At(address) => GivenScale::Register(address),
    }
}
