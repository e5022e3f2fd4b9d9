//! Formats the accounting registers (named energy counters) and their meters as the JSON of
//! `/site`.
ghost use Rattle.std.specs.Prelude.{◌≡◌, ◌++◌, OnOk};
ghost use Rattle.office_http.specs.Messages.Rows.{bool_text};
ghost use Rattle.run_http.specs.Texts.SiteText as json;

use crate::status::{append_bytes, write_number, write_scale, write_word};
use office_core::SiteRow;
use office_events::Installation;
use std::alloc::AllocError;

/// An accounting register (a named energy counter) with the meter that was assigned to it last.
///
/// `earlier` is the part of the meter's energy that earlier database files of the store recorded,
/// in mWh. `earlier` is `None` if these files do not have the meter.
#[derive(Clone, Copy)]
pub struct SiteLine {
    pub row: SiteRow,
    pub earlier: Option<u64>,
}

fn write_bool(text: &mut Vec<u8>, before: &[u8], value: bool) -> Result<(), AllocError>
    ensures { OnOk result (text.new.items ≡ text.old.items ++ before.now ++ bool_text value) }
{
    if value {
        write_word(text, before, b"true")
    } else {
        write_word(text, before, b"false")
    }
}

fn write_latest(text: &mut Vec<u8>, row: &Installation) -> Result<(), AllocError>
    ensures { OnOk result (text.new.items ≡ json.with_last text.old.items row.now) }
{
    write_number(text, b"\",\"at\":", row.last.at)?;
    write_number(text, b",\"last\":", u64::from(row.last.raw))?;
    write_scale(text, b",\"sf\":", row.last.sf)
}

// Appends the part of a meter's energy that earlier database files of the store recorded, in mWh.
fn write_earlier(text: &mut Vec<u8>, earlier: Option<u64>) -> Result<(), AllocError>
    ensures { OnOk result (text.new.items ≡ json.with_earlier text.old.items earlier) }
{
    match earlier {
        Some(mwh) => write_number(text, b"\",\"earlier\":\"", mwh),
        None => Ok(()),
    }
}

// Appends the energy of a meter as JSON, and whether the meter was closed.
fn write_total(
    text: &mut Vec<u8>,
    row: &Installation,
    earlier: Option<u64>,
) -> Result<(), AllocError>
    ensures { OnOk result (text.new.items ≡ json.with_total text.old.items row.now earlier) }
{
    write_number(text, b",\"total\":\"", row.total)?;
    write_earlier(text, earlier)?;
    write_bool(text, b"\",\"ended\":", row.ended)
}

// Appends the latest meter of an accounting register (a named energy counter) as JSON, or `null` if
// there is none.
fn append_meter(
    text: &mut Vec<u8>,
    meter: &Option<Installation>,
    earlier: Option<u64>,
) -> Result<(), AllocError>
    ensures { OnOk result (text.new.items ≡ json.with_meter text.old.items meter.now earlier) }
{
    match meter {
        Some(row) => {
            write_word(text, b"\",\"meter\":\"", row.opening.meter.as_bytes())?;
            write_latest(text, row)?;
            write_total(text, row, earlier)
        }
        None => append_bytes(text, b"\",\"meter\":null"),
    }
}

fn write_register(text: &mut Vec<u8>, before: &[u8], row: &SiteRow) -> Result<(), AllocError>
    ensures { OnOk result (text.new.items ≡ json.with_register before.now text.old.items row.now) }
{
    write_word(text, before, row.register.device.as_bytes())?;
    write_word(text, b"\",\"register\":\"", row.register.name.as_bytes())
}

fn write_line(text: &mut Vec<u8>, before: &[u8], line: &SiteLine) -> Result<(), AllocError>
    ensures { OnOk result (text.new.items ≡ json.with_line before.now text.old.items line.now) }
{
    write_register(text, before, &line.row)?;
    append_meter(text, &line.row.meter, line.earlier)?;
    append_bytes(text, b"}")
}

// Appends accounting registers (named energy counters) as JSON, each with a comma before it.
fn write_more_lines(text: &mut Vec<u8>, lines: &[SiteLine]) -> Result<(), AllocError>
    ensures { OnOk result (text.new.items ≡ json.with_more_lines text.old.items lines.now) }
{
    for line in lines {
        write_line(text, b",{\"device\":\"", line)?;
    }
    Ok(())
}

fn write_lines(text: &mut Vec<u8>, lines: &[SiteLine]) -> Result<(), AllocError>
    ensures { OnOk result (text.new.items ≡ json.with_lines text.old.items lines.now) }
{
    match lines {
        [] => Ok(()),
        [first, more @ ..] => {
            write_line(text, b"{\"device\":\"", first)?;
            write_more_lines(text, more)
        }
    }
}

/// Appends the JSON of `/site`: the accounting registers (named energy counters) and their latest
/// meters. `moment` is the time of the query in seconds since 1970-01-01 UTC, and energy is in mWh.
/// If memory runs out, only a part of the JSON was appended.
pub fn write_site(text: &mut Vec<u8>, moment: u64, lines: &[SiteLine]) -> Result<(), AllocError>
    ensures { OnOk result (text.new.items ≡ json.with_site text.old.items moment lines.now) }
{
    write_number(text, b"{\"at\":", moment)?;
    append_bytes(text, b",\"registers\":[")?;
    write_lines(text, lines)?;
    append_bytes(text, b"]}\n")
}
