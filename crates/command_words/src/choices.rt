//! Parses option values that must be one of a few fixed words.
ghost use Rattle.std.specs.Prelude.{codes};
ghost use Rattle.energy_report.specs.Words.{format_of, period_of, unit_of};
ghost use Rattle.command_words.specs.Lines.{carried_by, is_json_in};
ghost use Rattle.command_words.specs.Options.{Reads, if_some, rows_in, text_at};

use crate::faults::ValueFault;
use crate::options::text_if;
use crate::table::{AUDIT_FORMATS, CARRIES, FORMATS, PERIODS, UNITS};
use clap::ArgMatches;
use energy_report::{EnergyUnit, Format, Period};

pub fn period_if<'a>(found: &ArgMatches<'a>) -> Result<Option<Period>, ValueFault<'a>>
    ensures { Reads (λ period. period)
        (if_some period_of (text_at (codes "by") (rows_in found.now))) result }
{
    let Some(word) = text_if(found, "by") else {
        return Ok(None);
    };
    match Period::read(word) {
        Some(period) => Ok(Some(period)),
        None => Err(ValueFault::Choice {
            option: "by",
            value: "PERIOD",
            choices: PERIODS,
            word,
        }),
    }
}

/// Parses the option `--carry`, the period after which `run` begins a new file. Returns None if the
/// option is not given.
pub fn carry_if<'a>(found: &ArgMatches<'a>) -> Result<Option<Period>, ValueFault<'a>>
    ensures { Reads (λ period. period)
        (if_some carried_by (text_at (codes "carry") (rows_in found.now))) result }
{
    let Some(word) = text_if(found, "carry") else {
        return Ok(None);
    };
    match word {
        "month" => Ok(Some(Period::Month)),
        "year" => Ok(Some(Period::Year)),
        _ => Err(ValueFault::Choice {
            option: "carry",
            value: "PERIOD",
            choices: CARRIES,
            word,
        }),
    }
}

pub fn unit_if<'a>(found: &ArgMatches<'a>) -> Result<Option<EnergyUnit>, ValueFault<'a>>
    ensures { Reads (λ unit. unit)
        (if_some unit_of (text_at (codes "unit") (rows_in found.now))) result }
{
    let Some(word) = text_if(found, "unit") else {
        return Ok(None);
    };
    match EnergyUnit::read(word) {
        Some(unit) => Ok(Some(unit)),
        None => Err(ValueFault::Choice {
            option: "unit",
            value: "UNIT",
            choices: UNITS,
            word,
        }),
    }
}

pub fn format_if<'a>(found: &ArgMatches<'a>) -> Result<Option<Format>, ValueFault<'a>>
    ensures { Reads (λ format. format)
        (if_some format_of (text_at (codes "format") (rows_in found.now))) result }
{
    let Some(word) = text_if(found, "format") else {
        return Ok(None);
    };
    match Format::read(word) {
        Some(format) => Ok(Some(format)),
        None => Err(ValueFault::Choice {
            option: "format",
            value: "FORMAT",
            choices: FORMATS,
            word,
        }),
    }
}

/// Parses the option `--format` of `audit`, and returns whether the format is JSON. Without the
/// option, the format is text.
pub fn is_json<'a>(found: &ArgMatches<'a>) -> Result<bool, ValueFault<'a>>
    ensures { Reads (λ is_json. is_json) (is_json_in (rows_in found.now)) result }
{
    let given = text_if(found, "format");
    let Some(word) = given else {
        return Ok(false);
    };
    match word {
        "text" => Ok(false),
        "json" => Ok(true),
        _ => Err(ValueFault::Choice {
            option: "format",
            value: "FORMAT",
            choices: AUDIT_FORMATS,
            word,
        }),
    }
}
