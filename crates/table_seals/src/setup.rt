//! Builds the lines of a file's time zone, devices and accounting registers (named energy counters)
//! that a seal has.
ghost use Rattle.std.specs.Prelude.{◌≡◌, ◌++◌, ◌∷◌, [], false, map, codes, decimal, IfOk, OnOk};
ghost use Rattle.std.specs.Fmt.{signed_decimal};
ghost use Rattle.std.specs.Option.{option_map, option_to_list};
ghost use Rattle.sqlite.specs.Order.{column};
ghost use Rattle.table_audit.specs.Looking.{Finds};
ghost use Rattle.table_seals.specs.Sealed.{line_bytes};
ghost use Rattle.table_seals.specs.Setup.{HasSetup, gone};
ghost use Rattle.table_seals.specs.Setup as say;

use crate::once::is_line_among;
use crate::sealing::memory;
use crate::texts::{append_bytes, write_number, write_scale, write_word};
use office_events::Name;
use sqlite::{Alter, Connection, Row};
use std::alloc::{AllocError, Global};
use store_tables::{RowFault, scale, whole};
use table_audit::{devices, name as name_at, registers};

// The following functions return the line of one thing, or None if a value of the row is out of its
// range.

fn zone_line(alloc: Global, zone: &[u8]) -> Result<Vec<u8>, AllocError>
    ensures { IfOk result (λ line. line.items ≡ say.zone_line zone.now) }
{
    let mut line = Vec::new(alloc);
    write_word(&mut line, b"zone ", zone)?;
    Ok(line)
}

fn device_text(alloc: Global, name: &Name, unit: u64) -> Result<Vec<u8>, AllocError>
    ensures { IfOk result (λ line.
        line.items ≡ codes "device " ++ name.now ++ codes " unit " ++ decimal unit) }
{
    let mut line = Vec::new(alloc);
    write_word(&mut line, b"device ", name.as_bytes())?;
    write_number(&mut line, b" unit ", unit)?;
    Ok(line)
}

fn device_line(alloc: Global, row: &Row) -> Result<Option<Vec<u8>>, AllocError>
    ensures { IfOk result (λ line. option_map line_bytes line ≡ say.device_line row.now) }
{
    let Some(name) = name_at(row, 1) else {
        return Ok(None);
    };
    let Ok(unit) = whole(row, 2, 0, 255) else {
        return Ok(None);
    };
    let line = device_text(alloc, &name, unit)?;
    Ok(Some(line))
}

fn factor_words(alloc: Global, sf: i16) -> Result<Vec<u8>, AllocError>
    ensures { IfOk result (λ words. words.items ≡ codes " scale " ++ signed_decimal sf) }
{
    let mut words = Vec::new(alloc);
    write_scale(&mut words, b" scale ", sf)?;
    Ok(words)
}

fn address_words(alloc: Global, at: u64) -> Result<Vec<u8>, AllocError>
    ensures { IfOk result (λ words. words.items ≡ codes " scale-address " ++ decimal at) }
{
    let mut words = Vec::new(alloc);
    write_number(&mut words, b" scale-address ", at)?;
    Ok(words)
}

fn scale_words(alloc: Global, row: &Row, kind: u64) -> Result<Option<Vec<u8>>, AllocError>
    ensures { IfOk result (λ words.
        option_map line_bytes words ≡ say.scale_words kind (column row.now 6)) }
{
    if kind == 0 {
        let Ok(sf) = scale(row, 6) else {
            return Ok(None);
        };
        let words = factor_words(alloc, sf)?;
        return Ok(Some(words));
    }
    let Ok(at) = whole(row, 6, 0, 65535) else {
        return Ok(None);
    };
    let words = address_words(alloc, at)?;
    Ok(Some(words))
}

fn register_text(
    alloc: Global,
    name: &Name,
    device: &Name,
    function: u64,
    address: u64,
    scale: &[u8],
) -> Result<Vec<u8>, AllocError>
    ensures { IfOk result (λ line.
        line.items ≡ codes "register " ++ name.now ++ codes " at " ++ device.now
        ++ codes " function " ++ decimal function ++ codes " address " ++ decimal address
        ++ scale.now) }
{
    let mut line = Vec::new(alloc);
    write_word(&mut line, b"register ", name.as_bytes())?;
    write_word(&mut line, b" at ", device.as_bytes())?;
    write_number(&mut line, b" function ", function)?;
    write_number(&mut line, b" address ", address)?;
    append_bytes(&mut line, scale)?;
    Ok(line)
}

fn register_line(alloc: Global, row: &Row) -> Result<Option<Vec<u8>>, AllocError>
    ensures { IfOk result (λ line. option_map line_bytes line ≡ say.register_line row.now) }
{
    let Some(name) = name_at(row, 1) else {
        return Ok(None);
    };
    let Some(device) = name_at(row, 2) else {
        return Ok(None);
    };
    let Ok(function) = whole(row, 3, 3, 4) else {
        return Ok(None);
    };
    let Ok(address) = whole(row, 4, 0, 65535) else {
        return Ok(None);
    };
    let Ok(kind) = whole(row, 5, 0, 1) else {
        return Ok(None);
    };
    let Some(scale) = scale_words(alloc, row, kind)? else {
        return Ok(None);
    };
    let line = register_text(alloc, &name, &device, function, address, scale.as_slice())?;
    Ok(Some(line))
}

// The following functions append the lines of the rows that have one.

fn append_line(lines: &mut Vec<Vec<u8>>, line: Option<Vec<u8>>) -> Result<(), AllocError>
    ensures { OnOk result (map line_bytes lines.new.items
        ≡ map line_bytes lines.old.items ++ option_to_list (option_map line_bytes line)) }
{
    if let Some(line) = line {
        lines.push(line)?;
    }
    Ok(())
}

fn append_devices(alloc: Global, rows: &[Row], lines: &mut Vec<Vec<u8>>) -> Result<(), AllocError>
    ensures { OnOk result (map line_bytes lines.new.items
        ≡ map line_bytes lines.old.items ++ say.lines_in say.device_line rows.now) }
{
    for row in rows {
        let line = device_line(alloc, row)?;
        append_line(lines, line)?;
    }
    Ok(())
}

fn append_registers(alloc: Global, rows: &[Row], lines: &mut Vec<Vec<u8>>) -> Result<(), AllocError>
    ensures { OnOk result (map line_bytes lines.new.items
        ≡ map line_bytes lines.old.items ++ say.lines_in say.register_line rows.now) }
{
    for row in rows {
        let line = register_line(alloc, row)?;
        append_line(lines, line)?;
    }
    Ok(())
}

fn lines_of(
    alloc: Global,
    zone: &[u8],
    devices: &[Row],
    registers: &[Row],
) -> Result<Vec<Vec<u8>>, AllocError>
    ensures { IfOk result (λ lines.
        map line_bytes lines.items ≡ say.setup_of zone.now devices.now registers.now) }
{
    let mut lines = Vec::new(alloc);
    let first = zone_line(alloc, zone)?;
    lines.push(first)?;
    append_devices(alloc, devices, &mut lines)?;
    append_registers(alloc, registers, &mut lines)?;
    Ok(lines)
}

/// Returns the lines of the time zone `zone`, of the devices and of the registers in the tables. A
/// device or register with a value out of its range has no line.
pub(crate) fn setup_lines<S: Alter>(
    alloc: Global,
    conn: &mut Connection<S>,
    zone: &str,
) -> Result<Vec<Vec<u8>>, RowFault>
    requires { conn.old.in_transaction ≡ false }
    ensures { Finds S.Store conn.old conn.new result
        (λ content lines. HasSetup zone.now content (map line_bytes lines.items)) }
{
    let devices = devices(conn)?;
    let registers = registers(conn)?;
    match lines_of(alloc, zone.as_bytes(), &devices, &registers) {
        Ok(lines) => Ok(lines),
        Err(_) => Err(memory()),
    }
}

/// Appends a copy of a sealed line if it is not among the present lines.
fn append_gone(
    alloc: Global,
    present: &[Vec<u8>],
    line: &[u8],
    lines: &mut Vec<Vec<u8>>,
) -> Result<(), AllocError>
    ensures { OnOk result (map line_bytes lines.new.items
        ≡ map line_bytes lines.old.items
        ++ gone (map line_bytes present.now) (line.now ∷ [])) }
{
    if !is_line_among(present, line) {
        let mut copy = Vec::new(alloc);
        append_bytes(&mut copy, line)?;
        lines.push(copy)?;
    }
    Ok(())
}

/// Returns the sealed lines that are not among the present lines.
pub(crate) fn gone_lines(
    alloc: Global,
    present: &[Vec<u8>],
    sealed: &[Vec<u8>],
) -> Result<Vec<Vec<u8>>, AllocError>
    ensures { IfOk result (λ lines. map line_bytes lines.items
        ≡ gone (map line_bytes present.now) (map line_bytes sealed.now)) }
{
    let mut lines = Vec::new(alloc);
    for line in sealed {
        append_gone(alloc, present, line.as_slice(), &mut lines)?;
    }
    Ok(lines)
}
