//! Tests the status and the metrics that `sunreg run` reports after given events.
use energy_core::{Cause, Last};
use mb_wire::ReadFunction;
use office_core::SiteRow;
use office_events::{Installation, Name, Note, Opening, Register, ScaleSource};
use poll_core::{LostCause, Outcome};
use run_http::status::{Counts, DeviceLack, DeviceState, Lack, write_lack, write_status};
use run_http::write_metrics;
use std::str;

fn outcome(outcome: Outcome) -> Note {
    Note::Outcome { poll: 1, outcome }
}

// The counts after the test's history of events. Two polls were answered, and one poll ended with
// each of the other outcomes. One reading was accepted, and two were rejected.
fn counts() -> Counts {
    let mut counts = Counts::new();
    counts.note_all(&[
        outcome(Outcome::Answered),
        outcome(Outcome::Answered),
        outcome(Outcome::Exception(2)),
        outcome(Outcome::Silent),
    ]);
    counts.note_all(&[outcome(Outcome::Lost(LostCause::Gone))]);
    if let Some(meter) = Name::new(b"m1") {
        counts.note_all(&[
            Note::Reading {
                meter,
                raw: 7,
                rolls: 0,
                step: 100,
            },
            Note::Held {
                meter,
                raw: 0,
                cause: Cause::NotAccumulated,
            },
            Note::Held {
                meter,
                raw: 9,
                cause: Cause::NotBelowRange,
            },
        ]);
    }
    counts.refuse();
    counts
}

fn devices() -> [DeviceState; 2] {
    [
        DeviceState {
            name: Name::new(b"inv"),
            connected: true,
            latest: Some(1_700_000_000),
        },
        DeviceState {
            name: Name::new(b"roof-2"),
            connected: false,
            latest: None,
        },
    ]
}

const STATUS: &str =
    "{\"devices\":[{\"name\":\"inv\",\"connected\":true,\"last_reading\":1700000000},{\"name\":\"roof-2\",\"connected\":false,\"last_reading\":null}],\"polls\":{\"answered\":2,\"exception\":1,\"silent\":1,\"malformed\":0,\"lost\":1},\"readings\":1,\"held\":{\"not_accumulated\":1,\"scale_changed\":0,\"not_later\":0,\"span_too_long\":0,\"gap_too_long\":0,\"too_fast\":0,\"total_full\":0,\"not_below_range\":1},\"refusals\":1,\"lacks\":[]}\n";

/// The status after the test's history of events has the expected JSON text.
#[test]
fn the_status_is_json(rt: HostRuntime) {
    let mut text = Vec::new(rt.alloc());
    assert!(rt; write_status(&mut text, &counts(), &devices(), &[]).is_ok());
    assert!(rt; str::from_utf8(&text) == Ok(STATUS));
}

const METRICS: &str = "# HELP sunreg_polls_total Polls that ended, by outcome.
# TYPE sunreg_polls_total counter
sunreg_polls_total{outcome=\"answered\"} 2
sunreg_polls_total{outcome=\"exception\"} 1
sunreg_polls_total{outcome=\"silent\"} 1
sunreg_polls_total{outcome=\"malformed\"} 0
sunreg_polls_total{outcome=\"lost\"} 1
# HELP sunreg_readings_total Readings that were accepted.
# TYPE sunreg_readings_total counter
sunreg_readings_total 1
# HELP sunreg_refusals_total Events of devices that the office refused.
# TYPE sunreg_refusals_total counter
sunreg_refusals_total 1
# HELP sunreg_held_readings_total Readings that were held, by cause.
# TYPE sunreg_held_readings_total counter
sunreg_held_readings_total{cause=\"not_accumulated\"} 1
sunreg_held_readings_total{cause=\"scale_changed\"} 0
sunreg_held_readings_total{cause=\"not_later\"} 0
sunreg_held_readings_total{cause=\"span_too_long\"} 0
sunreg_held_readings_total{cause=\"gap_too_long\"} 0
sunreg_held_readings_total{cause=\"too_fast\"} 0
sunreg_held_readings_total{cause=\"total_full\"} 0
sunreg_held_readings_total{cause=\"not_below_range\"} 1
# HELP sunreg_device_connected Whether a round of a device goes on.
# TYPE sunreg_device_connected gauge
sunreg_device_connected{device=\"inv\"} 1
sunreg_device_connected{device=\"roof-2\"} 0
# HELP sunreg_last_reading_timestamp_seconds When the latest reading of a device was accepted.
# TYPE sunreg_last_reading_timestamp_seconds gauge
sunreg_last_reading_timestamp_seconds{device=\"inv\"} 1700000000
# HELP sunreg_energy_watthours_total Energy of a meter that is open.
# TYPE sunreg_energy_watthours_total counter
sunreg_energy_watthours_total{meter=\"m1\",register=\"import\",device=\"grid\"} 1234567.089
sunreg_energy_watthours_total{meter=\"m2\",register=\"import\",device=\"grid\"} 0.005
# HELP sunreg_last_entry_timestamp_seconds Moment of the last entry of a meter.
# TYPE sunreg_last_entry_timestamp_seconds gauge
sunreg_last_entry_timestamp_seconds{meter=\"m1\",register=\"import\",device=\"grid\"} 1700000000
sunreg_last_entry_timestamp_seconds{meter=\"m2\",register=\"import\",device=\"grid\"} 1700000000
";

fn site_row(meter: &[u8], total: u64, ended: bool) -> Option<SiteRow> {
    let register = import()?;
    Some(SiteRow {
        register,
        meter: Some(Installation {
            opening: Opening {
                meter: Name::new(meter)?,
                register: register.name,
                ceiling: 8000,
                range: 4_294_967_296,
                at: 1_600_000_000,
                raw: 0,
                sf: 0,
            },
            last: Last {
                at: 1_700_000_000,
                raw: 7,
                sf: 0,
            },
            total,
            ended,
        }),
    })
}

// The accounting registers (named counters) of the test's history: one without a meter, and three
// with a meter. One of these meters is closed.
fn site() -> Option<[SiteRow; 4]> {
    Some([
        SiteRow {
            register: import()?,
            meter: None,
        },
        site_row(b"m1", 1_234_567_089, false)?,
        site_row(b"m0", 9, true)?,
        site_row(b"m2", 5, false)?,
    ])
}

/// The function `write_metrics` writes the expected metrics for the example devices and meters of
/// this test. A closed meter does not appear in them.
#[test]
fn the_metrics_are_in_text_format(rt: HostRuntime) {
    let mut text = Vec::new(rt.alloc());
    if let Some(rows) = site() {
        assert!(rt; write_metrics(&mut text, &counts(), &devices(), &rows).is_ok());
    }
    assert!(rt; str::from_utf8(&text) == Ok(METRICS));
}

// Returns the accounting register (named counter) `import` of the device `grid`. A reading of its
// counter needs the Modbus registers 40117 to 40125, read by function 3.
fn import() -> Option<Register> {
    Some(Register {
        name: Name::new(b"import")?,
        device: Name::new(b"grid")?,
        function: ReadFunction::HoldingRegisters,
        address: 40117,
        scale: ScaleSource::Register(40125),
    })
}

fn lack(device: &[u8], lack: Lack) -> DeviceLack {
    DeviceLack {
        device: Name::new(device),
        lack,
    }
}

fn not_in_list(import: &Register) -> DeviceLack {
    lack(b"grid", Lack::NotInList(*import))
}

fn no_meter(import: &Register) -> DeviceLack {
    lack(b"grid", Lack::NoMeter(*import))
}

// Returns one example of each part of a device's setup that the store can lack. Without such a
// part, the device's energy is not recorded.
fn lacks(import: &Register) -> [DeviceLack; 5] {
    [
        lack(b"none", Lack::NoDevice),
        lack(b"inv", Lack::NoList),
        lack(b"inv", Lack::NoRegister),
        not_in_list(import),
        no_meter(import),
    ]
}

const LACKS: &str =
    "\"refusals\":0,\"lacks\":[{\"device\":\"none\",\"lack\":\"no_device\"},{\"device\":\"inv\",\"lack\":\"no_list\"},{\"device\":\"inv\",\"lack\":\"no_register\"},{\"device\":\"grid\",\"lack\":\"not_in_list\",\"register\":\"import\"},{\"device\":\"grid\",\"lack\":\"no_meter\",\"register\":\"import\"}]}\n";

/// The status reports which parts of each device's setup are missing in the store, such as its
/// point list.
#[test]
fn what_devices_lack_is_in_the_status(rt: HostRuntime) {
    let mut text = Vec::new(rt.alloc());
    if let Some(import) = import() {
        assert!(rt; write_status(&mut text, &Counts::new(), &[], &lacks(&import)).is_ok());
    }
    assert!(rt; text.ends_with(LACKS.as_bytes()));
}

const SENTENCES: &str =
    "sunreg: none: the office has no device with this name; add it with POST /devices
sunreg: inv: no point list; create one with sunreg scan --list, then POST /devices/inv/list
sunreg: inv: no register, so its energy is not recorded; add one with POST /registers
sunreg: register import: missing from the point list of grid; add function 3, registers 40117 to 40125 to it
sunreg: register import: no open meter; install one with POST /registers/import/install
";

/// Each part of a device's setup that can be missing in the store, such as its point list, has its
/// expected message.
#[test]
fn what_devices_lack_is_said(rt: HostRuntime) {
    let mut text = Vec::new(rt.alloc());
    if let Some(import) = import() {
        for lack in &lacks(&import) {
            assert!(rt; write_lack(&mut text, lack).is_ok());
        }
    }
    assert!(rt; str::from_utf8(&text) == Ok(SENTENCES));
}
