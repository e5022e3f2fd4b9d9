//! The meanings of the faults of a device's chain of SunSpec models.
ghost use Rattle.printed_numbers.specs.Numbers.{Answers};
ghost use Rattle.printed_numbers.specs.declared.kind.Kind.TheVariants.{ChainFault};

use crate::kind::Kind;
use crate::meaning::Meaning;

static NO_MARK: Meaning = Meaning {
    kind: Kind::ChainFault,
    number: 1,
    means: "no SunSpec models found: no mark SunS at 40000, 50000 or 0",
    cause: "a device without SunSpec models, or one where they must be enabled",
    remedy: "check the device's settings for SunSpec, and its unit identifier; otherwise write its point list by hand",
};

static UNREADABLE: Meaning = Meaning {
    kind: Kind::ChainFault,
    number: 2,
    means: "the word at that address is missing",
    cause: "an image that ends too early, or a device that didn't answer for that address",
    remedy: "scan again with a longer --timeout; in an image, add the words from that address on",
};

static PAST_END: Meaning = Meaning {
    kind: Kind::ChainFault,
    number: 3,
    means: "the chain extends past 65535",
    cause: "a wrong length of a model",
    remedy: "compare the words at the last model with the device",
};

static TOO_MANY_MODELS: Meaning = Meaning {
    kind: Kind::ChainFault,
    number: 4,
    means: "more than 64 models",
    cause: "a chain without an end mark, whose next words are read as models",
    remedy: "compare the words at the last models with the device",
};

/// Returns the meaning of the fault with the given numeric code in a device's chain of SunSpec
/// models.
pub fn chain_fault(number: u32) -> Option<&'static Meaning>
    ensures { Answers ChainFault number result }
{
    match number {
        1 => Some(&NO_MARK),
        2 => Some(&UNREADABLE),
        3 => Some(&PAST_END),
        4 => Some(&TOO_MANY_MODELS),
        _ => None,
    }
}
