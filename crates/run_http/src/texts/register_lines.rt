//! Formats the past and present meters of an accounting register (a named energy counter) as text,
//! one line for each meter.
ghost use Rattle.std.specs.Prelude.{◌≡◌, ◌++◌, OnOk, flat_map};
ghost use Rattle.run_http.specs.Texts.RegisterLines as lines;

use crate::status::{append_bytes, write_number, write_scale};
use crate::texts::meter_lines::append_end;
use energy_core::Last;
use office_events::Installation;
use std::alloc::AllocError;

fn write_latest(text: &mut Vec<u8>, last: &Last) -> Result<(), AllocError>
    ensures { OnOk result (text.new.items ≡ text.old.items ++ lines.last_text last.now) }
{
    write_number(text, b" ", last.at)?;
    write_number(text, b" ", u64::from(last.raw))?;
    write_scale(text, b" ", last.sf)
}

fn write_state(text: &mut Vec<u8>, ended: bool) -> Result<(), AllocError>
    ensures { OnOk result (text.new.items ≡ text.old.items ++ lines.state_word ended) }
{
    if ended {
        append_bytes(text, b" ended\n")
    } else {
        append_bytes(text, b" open\n")
    }
}

fn append_meter(text: &mut Vec<u8>, row: &Installation) -> Result<(), AllocError>
    ensures { OnOk result (text.new.items ≡ text.old.items ++ lines.meter_line row.now) }
{
    append_bytes(text, row.opening.meter.as_bytes())?;
    write_number(text, b" ", row.opening.at)?;
    write_latest(text, &row.last)?;
    write_number(text, b" ", row.total)?;
    write_state(text, row.ended)
}

fn write_meter_lines(text: &mut Vec<u8>, rows: &[Installation]) -> Result<(), AllocError>
    ensures { OnOk result (text.new.items ≡ text.old.items ++ flat_map lines.meter_line rows.now) }
{
    for row in rows {
        append_meter(text, row)?;
    }
    Ok(())
}

/// Appends a line for each meter in `rows`, and a last line with their number. If memory runs out,
/// only a part of the text was appended.
pub fn write_register_meters(text: &mut Vec<u8>, rows: &[Installation]) -> Result<(), AllocError>
    ensures { OnOk result (text.new.items ≡ text.old.items ++ lines.meters_text rows.now) }
{
    write_meter_lines(text, rows)?;
    append_end(text, rows.len())
}
