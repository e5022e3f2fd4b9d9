//! Reads earlier database files, whose energy the command `run` also reports.
ghost use Rattle.std.specs.Prelude.{◌≡◌, ◌-◌, IfOk, Some, length, take};
ghost use Rattle.file_commands.specs.EarlierFiles.{AreRegistersOf, SumsFiles};

use crate::carries::write_refusal;
use crate::files::{OfficeFiles, Opening};
use crate::joined_reports::{NotJoined, join_in, join_paths, last_of};
use carried_books::{ComparedRegisters, EarlierRegister, KeptRegisters};
use interval_core::DayRange;
use office_events::Name;
use std::io::Write;
use stored_files::{Databases, Ending, Failure, JoinedOffice};

// A value for a parameter that requires the name of an accounting register (a named counter). The
// name has no effect, because the energy of all registers is read.
const ANY: &[u8] = b"any";

// Writes why a file could not be added to the energy sums of the earlier files. Returns how the
// command ends.
fn end_unjoined<'a, E: Write>(errors: &mut E, why: NotJoined<'a>) -> Ending<'a> {
    match why {
        NotJoined::Failed(failure) => Ending::Failed(failure),
        NotJoined::Refused { path, why } => {
            let _said = write_refusal(errors, path, why);
            Ending::Refused
        }
        NotJoined::Apart => Ending::Refused,
    }
}

// Returns the accounting registers (named counters) of the earlier database files, each with its
// energy summed over these files.
fn registers_of<'a>(joined: JoinedOffice<KeptRegisters>) -> Result<Vec<EarlierRegister>, Ending<'a>>
    ensures { IfOk result (λ registers. AreRegistersOf (Some joined) registers.items) }
{
    let JoinedOffice { kept, .. } = joined;
    match kept.into_registers() {
        Ok(registers) => Ok(registers),
        Err(_) => Err(Ending::Failed(Failure::Memory)),
    }
}

// Returns a copy of the data of the earlier database files (time zone and accounting registers
// (named energy counters)), against which the current file is checked.
fn compared_of<'a>(
    rt: &HostRuntime,
    joined: &JoinedOffice<KeptRegisters>,
) -> Result<JoinedOffice<ComparedRegisters>, Ending<'a>> {
    match (
        String::from_str(rt.alloc(), joined.zone.as_str()),
        joined.kept.compared(),
    ) {
        (Ok(zone), Ok(kept)) => Ok(JoinedOffice { zone, kept }),
        _ => Err(Ending::Failed(Failure::Memory)),
    }
}

// Checks that the current database file continues the meter history of the earlier files.
fn hold<'a, D: Databases, E: Write>(
    rt: &HostRuntime,
    databases: &D,
    joined: &JoinedOffice<KeptRegisters>,
    before: &str,
    path: &'a str,
    any: &Name,
    is_new: bool,
    errors: &mut E,
) -> Result<(), Ending<'a>> {
    let held = compared_of(rt, joined)?;
    let all = DayRange::all();
    match join_in(
        rt,
        databases,
        Some(held),
        before,
        path,
        any,
        &all,
        is_new,
        errors,
    ) {
        Ok(_) => Ok(()),
        Err(why) => Err(end_unjoined(errors, why)),
    }
}

/// Returns all paths in a list except the last one.
pub fn but_last<'a, 'f>(paths: &'f [&'a str]) -> &'f [&'a str]
    ensures { result.now ≡ take (length paths.now - 1) paths.now }
{
    let count = paths.len().saturating_sub(1);
    &paths[..count]
}

// Reports how many earlier database files the energy figures of the command `run` include, and the
// name of the first file.
fn say_earlier<E: Write>(errors: &mut E, current: &str, paths: &[&str]) {
    if let Some(first) = paths.first() {
        let count = paths.len();
        let _said = write!(
            errors,
            "sunreg: {current}: energy figures include earlier files: {count}, from {} on\n",
            *first
        );
    }
}

/// Returns the energy of all accounting registers (named counters) in earlier files, the oldest
/// first. Fails if the current file, which may be new, does not continue the meter history of the
/// earlier files. Only reads the files, one at a time. Writes the number of files, or the reason of
/// the failure, to `errors`.
pub fn earlier_registers<'a, D: OfficeFiles, E: Write>(
    rt: &HostRuntime,
    files: &D,
    paths: &[&'a str],
    current: &'a str,
    is_new: bool,
    errors: &mut E,
) -> Result<Vec<EarlierRegister>, Ending<'a>>
    ensures { IfOk result (λ registers. SumsFiles D.Store.Store (D.opens files.now)
        paths.now registers.items) }
{
    let Some(any) = Name::new(ANY) else {
        return Err(Ending::Failed(Failure::Memory));
    };
    let readable = files.opened(Opening::ToRead);
    let all = DayRange::all();
    match join_paths(rt, &readable, None, "", paths, &any, &all, errors) {
        Err(why) => Err(end_unjoined(errors, why)),
        Ok(None) => Ok(Vec::new(rt.alloc())),
        Ok(Some(joined)) => {
            let before = last_of(paths);
            hold(
                rt, &readable, &joined, before, current, &any, is_new, errors,
            )?;
            let registers = registers_of(joined)?;
            say_earlier(errors, current, paths);
            Ok(registers)
        }
    }
}
