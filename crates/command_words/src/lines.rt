//! Converts the option values that `clap` parsed to a command line.
ghost use Rattle.std.specs.Prelude.{◌≡◌, codes, is_some};
ghost use Rattle.clap.specs.Words.{subcommand_rows_of};
ghost use Rattle.command_words.specs.ClapTable.Table.{texts};
ghost use Rattle.command_words.specs.Values.Devices.{devices_in, places_of};
ghost use Rattle.command_words.specs.Lines.{audit_in, backup_in, carry_in, command_in, completions_in, create_in};
ghost use Rattle.command_words.specs.Lines.{devices_at, devices_if, earlier_in};
ghost use Rattle.command_words.specs.Lines.{enter_in, explain_in, form_in, line_in, one_sealed, recover_in, replay_in, report_in, round_in, run_in, scan_in, seen};
ghost use Rattle.command_words.specs.Lines.{needs_one_file, printed_as, sealing_of};
ghost use Rattle.command_words.specs.Lines.{sealing_in, seen_form, seen_sealing, serve_in, stand_in_in};
ghost use Rattle.command_words.specs.Options.{Reads, is_set, rows_in, text_at};

use crate::choices::{carry_if, format_if, is_json, period_if, unit_if};
use crate::faults::ValueFault;
use crate::line::{CommandLine, FormWords, Sealing};
use crate::options::{
    host_names, is_set, number, number_if, number_or, several, text, text_if, text_or, texts,
};
use crate::table::{
    CONNECTIONS, EARLIER, EVERY, FIRST_UNIT, HOST, LASTS, LISTEN, MOST_KEPT, PATIENCE, PORT,
    TIMEOUT, UNIT, UNTIL, ZONE,
};
use crate::values::{Device, ListFault, devices_in};
use clap::ArgMatches;
use energy_report::Period;
use std::alloc::Global;

fn replay_line<'a>(found: &ArgMatches<'a>) -> Result<CommandLine<'a>, ValueFault<'a>>
    ensures { Reads seen (replay_in (rows_in found.now)) result }
{
    let zone = text_if(found, "zone");
    let Some(db) = text_if(found, "db") else {
        return Ok(CommandLine::Replay {
            zone: text_or(found, "zone", ZONE),
        });
    };
    if zone.is_some() {
        return Err(ValueFault::Both {
            one: "zone",
            other: "db",
        });
    }
    Ok(CommandLine::ReplayFile { db })
}

fn create_line<'a>(found: &ArgMatches<'a>) -> Result<CommandLine<'a>, ValueFault<'a>>
    ensures { Reads seen (create_in (rows_in found.now)) result }
{
    let db = text(found, "db")?;
    let zone = text(found, "zone")?;
    Ok(CommandLine::Create { db, zone })
}

fn serve_line<'a>(alloc: Global, found: &ArgMatches<'a>) -> Result<CommandLine<'a>, ValueFault<'a>>
    ensures { Reads seen (serve_in (rows_in found.now)) result }
{
    let db = text(found, "db")?;
    let port = number(found, PORT)?;
    let connections = number(found, CONNECTIONS)?;
    let host_names = host_names(alloc, found)?;
    Ok(CommandLine::Serve {
        db,
        port: port as u16,
        connections,
        host_names,
    })
}

fn round_line<'a>(found: &ArgMatches<'a>) -> Result<CommandLine<'a>, ValueFault<'a>>
    ensures { Reads seen (round_in (rows_in found.now)) result }
{
    let db = text(found, "db")?;
    let device = text(found, "device")?;
    let port = number(found, PORT)?;
    Ok(CommandLine::Round {
        db,
        device,
        host: text_or(found, "host", HOST),
        port: port as u16,
    })
}

fn form<'a>(found: &ArgMatches<'a>) -> Result<FormWords<'a>, ValueFault<'a>>
    ensures { Reads seen_form (form_in (rows_in found.now)) result }
{
    let period = period_if(found)?;
    let unit = unit_if(found)?;
    let format = format_if(found)?;
    let statement = is_set(found, "statement");
    if statement && period.is_some() {
        return Err(ValueFault::Both {
            one: "statement",
            other: "by",
        });
    }
    Ok(FormWords {
        from: text_if(found, "from"),
        till: text_if(found, "till"),
        period,
        unit,
        format,
        statement,
    })
}

fn report_line<'a>(alloc: Global, found: &ArgMatches<'a>) -> Result<CommandLine<'a>, ValueFault<'a>>
    ensures { Reads seen (report_in (rows_in found.now)) result }
{
    let db = text(found, "db")?;
    let register = text(found, "register")?;
    let form = form(found)?;
    let files = texts(alloc, found, "db")?;
    if files.len() > 1 {
        return Ok(CommandLine::ReportFiles {
            files,
            register,
            form,
        });
    }
    Ok(CommandLine::Report { db, register, form })
}

fn backup_line<'a>(found: &ArgMatches<'a>) -> Result<CommandLine<'a>, ValueFault<'a>>
    ensures { Reads seen (backup_in (rows_in found.now)) result }
{
    let db = text(found, "db")?;
    let to = text(found, "to")?;
    Ok(CommandLine::Backup { db, to })
}

fn recover_line<'a>(found: &ArgMatches<'a>) -> Result<CommandLine<'a>, ValueFault<'a>>
    ensures { Reads seen (recover_in (rows_in found.now)) result }
{
    let db = text(found, "db")?;
    let to = text(found, "to")?;
    Ok(CommandLine::Recover { db, to })
}

fn carry_line<'a>(found: &ArgMatches<'a>) -> Result<CommandLine<'a>, ValueFault<'a>>
    ensures { Reads seen (carry_in (rows_in found.now)) result }
{
    let from = text(found, "from")?;
    let new = text(found, "to")?;
    let until = number_if(found, UNTIL)?;
    Ok(CommandLine::Carry {
        from,
        to: new,
        until,
    })
}

// Parses the options `--seal` and `--against` of `audit`, which print a seal (a digest of a file's
// past) or compare the file with a seal.
fn own_sealing<'a>(found: &ArgMatches<'a>) -> Result<Sealing<'a>, ValueFault<'a>>
    ensures { let rows = rows_in found.now in Reads seen_sealing
        (sealing_of (is_set (codes "seal") rows) (text_at (codes "against") rows)) result }
{
    let prints = is_set(found, "seal");
    let Some(seal) = text_if(found, "against") else {
        return Ok(if prints {
            Sealing::Print
        } else {
            Sealing::Nothing
        });
    };
    if prints {
        return Err(ValueFault::Both {
            one: "seal",
            other: "against",
        });
    }
    Ok(Sealing::Against(seal))
}

// Returns the name of the option that requires a single file: `--format` for JSON, or `--seal` or
// `--against` for a seal (a digest of a file's past). None if no option does. Error messages name
// this option.
fn single_option(seal: Sealing<'_>) -> Option<&'static str>
    ensures { is_some result ≡ needs_one_file (seen_sealing seal.entry) }
{
    match seal {
        Sealing::Nothing => None,
        Sealing::Json => Some("format"),
        Sealing::Print => Some("seal"),
        Sealing::Against(_) => Some("against"),
    }
}

// Returns what an audit prints and does with a seal (a digest of a file's past), if its format is
// JSON or not. Fails if JSON is requested together with a seal.
fn printed_as<'a>(json: bool, seal: Sealing<'a>) -> Result<Sealing<'a>, ValueFault<'a>>
    ensures { Reads seen_sealing (printed_as json (seen_sealing seal.entry)) result }
{
    if !json {
        return Ok(seal);
    }
    match single_option(seal) {
        None => Ok(Sealing::Json),
        Some(other) => Err(ValueFault::Both {
            one: "format",
            other,
        }),
    }
}

// Parses the options `--format`, `--seal` and `--against` of `audit`.
fn sealing<'a>(found: &ArgMatches<'a>) -> Result<Sealing<'a>, ValueFault<'a>>
    ensures { Reads seen_sealing (sealing_in (rows_in found.now)) result }
{
    let json = is_json(found)?;
    let seal = own_sealing(found)?;
    printed_as(json, seal)
}

// Returns the command `audit` for the given files. Fails if several files are given for JSON or a
// seal (a digest of a file's past).
fn audit_of<'a>(dbs: Vec<&'a str>, seal: Sealing<'a>) -> Result<CommandLine<'a>, ValueFault<'a>>
    ensures { Reads seen (one_sealed (texts dbs.entry.items) (seen_sealing seal.entry)) result }
{
    let Some(option) = single_option(seal) else {
        return Ok(CommandLine::Audit { dbs, seal });
    };
    if dbs.len() > 1 {
        return Err(ValueFault::Alone {
            option,
            other: "db",
        });
    }
    Ok(CommandLine::Audit { dbs, seal })
}

fn audit_line<'a>(alloc: Global, found: &ArgMatches<'a>) -> Result<CommandLine<'a>, ValueFault<'a>>
    ensures { Reads seen (audit_in (rows_in found.now)) result }
{
    let dbs = several(alloc, found, "db")?;
    let seal = sealing(found)?;
    audit_of(dbs, seal)
}

fn scan_line<'a>(found: &ArgMatches<'a>) -> Result<CommandLine<'a>, ValueFault<'a>>
    ensures { Reads seen (scan_in (rows_in found.now)) result }
{
    let port = number(found, PORT)?;
    let unit = number_or(found, UNIT, FIRST_UNIT)?;
    let timeout = number_or(found, TIMEOUT, PATIENCE)?;
    let list = is_set(found, "list");
    let setup = text_if(found, "setup");
    if list && setup.is_some() {
        return Err(ValueFault::Both {
            one: "list",
            other: "setup",
        });
    }
    Ok(CommandLine::Scan {
        host: text_or(found, "host", HOST),
        port: port as u16,
        unit: unit as u8,
        timeout,
        list,
        setup,
    })
}

fn stand_in_line<'a>(found: &ArgMatches<'a>) -> Result<CommandLine<'a>, ValueFault<'a>>
    ensures { Reads seen (stand_in_in (rows_in found.now)) result }
{
    let port = number(found, PORT)?;
    let connections = number(found, CONNECTIONS)?;
    Ok(CommandLine::StandIn {
        host: text_or(found, "host", HOST),
        port: port as u16,
        connections,
    })
}

// Parses a comma-separated list of devices.
fn listed<'a>(alloc: Global, list: &'a str) -> Result<Vec<Device<'a>>, ValueFault<'a>>
    ensures { Reads (λ devices. places_of devices.items) (devices_in list.now) result }
{
    match devices_in(alloc, list) {
        Ok(devices) => Ok(devices),
        Err(ListFault::Part { part, fault }) => Err(ValueFault::Device { part, fault }),
        Err(ListFault::Memory) => Err(ValueFault::Memory),
    }
}

// Parses the required option `--devices`.
fn devices<'a>(alloc: Global, found: &ArgMatches<'a>) -> Result<Vec<Device<'a>>, ValueFault<'a>>
    ensures { Reads (λ devices. places_of devices.items) (devices_at (rows_in found.now)) result }
{
    let list = text(found, "devices")?;
    listed(alloc, list)
}

// Parses the option `--devices`. Returns an empty list if the option is not given.
fn devices_if<'a>(alloc: Global, found: &ArgMatches<'a>) -> Result<Vec<Device<'a>>, ValueFault<'a>>
    ensures { Reads (λ devices. places_of devices.items) (devices_if (rows_in found.now)) result }
{
    match text_if(found, "devices") {
        Some(list) => listed(alloc, list),
        None => Ok(Vec::new(alloc)),
    }
}

fn enter_line<'a>(alloc: Global, found: &ArgMatches<'a>) -> Result<CommandLine<'a>, ValueFault<'a>>
    ensures { Reads seen (enter_in (rows_in found.now)) result }
{
    let db = text(found, "db")?;
    let caller = text(found, "caller")?;
    let devices = devices_if(alloc, found)?;
    Ok(CommandLine::Enter {
        db,
        caller,
        devices,
        only_read: is_set(found, "only-read"),
    })
}

// Parses the number of earlier files whose energy `run` also reports. The option requires `--carry`
// and a single database file. With several files, `run` reports the energy of all these files.
fn earlier_if<'a>(
    found: &ArgMatches<'a>,
    are_several: bool,
    carry: Option<Period>,
) -> Result<Option<u32>, ValueFault<'a>>
    ensures { Reads (λ earlier. earlier) (earlier_in are_several carry (rows_in found.now)) result }
{
    let earlier = number_if(found, EARLIER)?;
    if earlier.is_none() {
        return Ok(None);
    }
    if are_several {
        return Err(ValueFault::Alone {
            option: "earlier",
            other: "db",
        });
    }
    if carry.is_none() {
        return Err(ValueFault::Without {
            option: "earlier",
            other: "carry",
        });
    }
    Ok(earlier)
}

fn run_line<'a>(alloc: Global, found: &ArgMatches<'a>) -> Result<CommandLine<'a>, ValueFault<'a>>
    ensures { Reads seen (run_in (rows_in found.now)) result }
{
    let dbs = several(alloc, found, "db")?;
    let listen = number(found, LISTEN)?;
    let every = number(found, EVERY)?;
    let lasts = number_if(found, LASTS)?;
    let devices = devices(alloc, found)?;
    let carry = carry_if(found)?;
    let earlier = earlier_if(found, dbs.len() > 1, carry)?;
    let host_names = host_names(alloc, found)?;
    let most_kept = number_if(found, MOST_KEPT)?;
    Ok(CommandLine::Run {
        dbs,
        listen: listen as u16,
        every,
        devices,
        lasts,
        carry,
        earlier,
        host_names,
        most_kept,
        verbose: is_set(found, "verbose"),
    })
}

fn explain_line<'a>(found: &ArgMatches<'a>) -> Result<CommandLine<'a>, ValueFault<'a>>
    ensures { Reads seen (explain_in (rows_in found.now)) result }
{
    let what = text(found, "what")?;
    let number = text(found, "number")?;
    Ok(CommandLine::Explain { what, number })
}

fn completions_line<'a>(found: &ArgMatches<'a>) -> Result<CommandLine<'a>, ValueFault<'a>>
    ensures { Reads seen (completions_in (rows_in found.now)) result }
{
    let shell = text(found, "shell")?;
    if shell != "bash" {
        return Err(ValueFault::Shell { word: shell });
    }
    Ok(CommandLine::Completions)
}

// Parses the options of the command `name`, and returns the resulting command line.
#[tactic(auto, unfolding(crate::specs::Lines::command_in))]
fn command_line<'a>(
    alloc: Global,
    name: &'a str,
    found: &ArgMatches<'a>,
) -> Result<CommandLine<'a>, ValueFault<'a>>
    ensures { Reads seen (command_in name.entry.now (rows_in found.now)) result }
{
    match name {
        "replay" => replay_line(found),
        "plan" => Ok(CommandLine::Plan),
        "chain" => Ok(CommandLine::Chain),
        "create" => create_line(found),
        "serve" => serve_line(alloc, found),
        "round" => round_line(found),
        "report" => report_line(alloc, found),
        "stand-in" => stand_in_line(found),
        "loop" => Ok(CommandLine::Loop {
            zone: text_or(found, "zone", ZONE),
        }),
        "run" => run_line(alloc, found),
        "scan" => scan_line(found),
        "enter" => enter_line(alloc, found),
        "backup" => backup_line(found),
        "recover" => recover_line(found),
        "carry" => carry_line(found),
        "audit" => audit_line(alloc, found),
        "explain" => explain_line(found),
        "completions" => completions_line(found),
        _ => Err(ValueFault::Command { name }),
    }
}

/// Returns the command line that `clap` parsed. Without a command, the result is `replay`.
pub fn line_in<'a>(alloc: Global, found: &ArgMatches<'a>) -> Result<CommandLine<'a>, ValueFault<'a>>
    ensures { Reads seen (line_in (subcommand_rows_of found.now)) result }
{
    match found.subcommand() {
        None => Ok(CommandLine::Replay { zone: ZONE }),
        Some((name, inner)) => command_line(alloc, name, inner),
    }
}
