//! Tests queries for the accounting registers (named counters) and meters of all devices, also over
//! a store that fails at a chosen call.
use crate::offices::office_after;
use crate::tried::{Trial, try_failing, try_in_memory};
use office_books::Books;
use office_core::{Office, SiteRow};
use office_events::{Installation, Name, Refusal, Register, ScaleSource, StoreCause};
use script_text::{write_meter, write_refusal};
use std::alloc::Global;
use std::process::Abort;
use std::str;

/// Script lines with two devices, not in the order of their names, and three accounting registers
/// (named counters). The register `main` has its second meter, `export` has no meter, and `solo`
/// has a closed meter.
pub(crate) static LINES: [&str; 9] = [
    "1000 device roof 1 5 1",
    "1000 device inv 2 5 1",
    "1000 register solo inv 3 40094 2",
    "1000 register main roof 3 40094 @40096",
    "1000 register export roof 3 40098 -3",
    "1000 install main m1 5000 0 100000",
    "1000 install solo m3 7 2 100000",
    "1900 exchange main 5200 0 m2 10 -1 100000",
    "1900 close solo 9 0",
];

// Each accounting register (a named counter) with its device and the meter that was installed last.
// The counter of the register `solo` advanced from 7 to 9 at the scale factor 2, which is 200 Wh.
// The meter `m2` was just installed.
const SITE: &str = "roof main meter m2 last 10 sf -1 at 1900 total 0 open
roof export refused 1
inv solo meter m3 last 9 sf 2 at 1900 total 200000 ended
";

fn write_name(rt: &impl Abort, name: &Name, text: &mut Vec<u8>) {
    text.extend_from_slice(name.as_bytes()).expect(rt, "memory");
    text.push(b' ').expect(rt, "memory");
}

fn write_found(rt: &impl Abort, meter: &Result<Installation, Refusal>, text: &mut Vec<u8>) {
    let written = match meter {
        Ok(row) => write_meter(row, text),
        Err(why) => write_refusal(*why, text),
    };
    assert!(rt; written.is_ok());
}

fn assert_rows(rt: &impl Abort, alloc: Global, rows: &[SiteRow]) {
    let mut text = Vec::new(alloc);
    for row in rows {
        write_name(rt, &row.register.device, &mut text);
        write_name(rt, &row.register.name, &mut text);
        write_found(rt, &row.meter.ok_or(Refusal::NotFound), &mut text);
    }
    assert!(rt; str::from_utf8(&text) == Ok(SITE));
}

/// Queries the accounting registers (named counters) of all devices, and repeats the query if the
/// store fails. Returns the number of failures, 0 or 1.
pub(crate) fn ask<B: Books>(rt: &impl Abort, alloc: Global, books: B) -> u64 {
    let mut office = office_after(rt, alloc, books, &LINES);
    match office.site() {
        Ok(rows) => {
            assert_rows(rt, alloc, &rows);
            0
        }
        Err(why) => {
            assert!(rt; why == Refusal::Store(StoreCause::Refused));
            let rows = office.site().ok().expect(rt, "rows");
            assert_rows(rt, alloc, &rows);
            1
        }
    }
}

/// A query for the accounting registers (named counters) of all devices makes six calls to the
/// store. If one of the calls fails, a repeated query succeeds.
#[test]
fn a_site_is_reported_while_the_store_refuses_a_call(rt: HostRuntime) {
    let mut refused = 0u64;
    for failing in 1..100 {
        let asked = try_failing(&rt, rt.alloc(), failing, Trial::Site);
        refused = refused.saturating_add(asked);
    }
    // The query for the accounting registers (named counters) of all devices makes six calls to the
    // store. One is for the devices, two are for the registers of the two devices, and three are
    // for the meters.
    assert!(rt; refused == 6);
}

// Names of accounting registers (named counters), each with the printed line of the meter that was
// installed last. If no meter was installed, or no register has the name, a refusal is printed.
static METERS: [(&[u8], &str); 5] = [
    (b"main", "meter m2 last 10 sf -1 at 1900 total 0 open\n"),
    (b"export", "refused 1\n"),
    (b"solo", "meter m3 last 9 sf 2 at 1900 total 200000 ended\n"),
    (b"m1", "refused 1\n"),
    (b"", "refused 1\n"),
];

fn assert_meters<B: Books>(rt: &impl Abort, alloc: Global, office: &mut Office<B>) {
    for (name, wanted) in &METERS {
        let mut text = Vec::new(alloc);
        write_found(rt, &office.installation(&Name::new(*name)), &mut text);
        assert!(rt; str::from_utf8(&text) == Ok(*wanted));
    }
}

// Names of devices, each with the expected unit identifier.
static UNITS: [(&[u8], Option<u8>); 4] = [
    (b"roof", Some(1)),
    (b"inv", Some(2)),
    (b"main", None),
    (b"", None),
];

fn has_unit<B: Books>(office: &mut Office<B>, device: &Option<Name>, unit: Option<u8>) -> bool {
    match office.device(device) {
        Ok(found) => unit == Some(found.unit) && *device == Some(found.name),
        Err(why) => unit.is_none() && why == Refusal::NotFound,
    }
}

// The Modbus address and the scale factor of an accounting register (a named counter).
type Place = (u16, ScaleSource);

// Names of accounting registers (named counters), each with the expected Modbus address and scale
// factor.
static PLACES: [(&[u8], Option<Place>); 5] = [
    (b"main", Some((40094, ScaleSource::Register(40096)))),
    (b"export", Some((40098, ScaleSource::Fixed(-3)))),
    (b"solo", Some((40094, ScaleSource::Fixed(2)))),
    (b"roof", None),
    (b"", None),
];

fn is_at(row: &Register, place: Option<Place>) -> bool {
    match place {
        Some((address, scale)) => row.address == address && row.scale == scale,
        None => false,
    }
}

fn has_place<B: Books>(
    office: &mut Office<B>,
    register: &Option<Name>,
    place: Option<Place>,
) -> bool {
    match office.register(register) {
        Ok(row) => *register == Some(row.name) && is_at(&row, place),
        Err(why) => place.is_none() && why == Refusal::NotFound,
    }
}

/// Looks up devices, accounting registers (named counters) and meters by their names.
pub(crate) fn look_up<B: Books>(rt: &impl Abort, alloc: Global, books: B) {
    let mut office = office_after(rt, alloc, books, &LINES);
    for _time in 0..2 {
        let rows = office.site().ok().expect(rt, "rows");
        assert_rows(rt, alloc, &rows);
    }
    assert_meters(rt, alloc, &mut office);
    for (device, unit) in UNITS {
        assert!(rt; has_unit(&mut office, &Name::new(device), unit));
    }
    for (register, place) in PLACES {
        assert!(rt; has_place(&mut office, &Name::new(register), place));
    }
}

/// A lookup by name finds the device, accounting register (a named counter) or meter with this
/// name. If nothing has the name, the lookup finds nothing.
#[test]
fn devices_registers_and_meters_are_found_by_their_names(rt: HostRuntime) {
    try_in_memory(&rt, rt.alloc(), Trial::Names);
}
