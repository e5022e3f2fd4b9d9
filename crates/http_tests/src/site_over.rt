//! Tests of `/site`, which shows the energy of earlier database files and of the current file.
use crate::cases::sized_reply;
use crate::energy_over::earlier_register;
use crate::office::{polled, responded, unmetered};
use energy_core::Last;
use office_books::Books;
use office_core::Office;
use office_events::{Installation, Name, Opening};
use std::alloc::Global;
use std::process::Abort;

// A meter in earlier database files: its name, its energy in mWh, and whether it was closed.
type Earlier = (&'static [u8], u64, bool);

// A test case: its description, and an accounting register (a named counter) of earlier database
// files. Then the meters that were installed at that register, and the meter's JSON in the
// response.
type Case = (
    &'static str,
    &'static [u8],
    &'static [Earlier],
    &'static str,
);

// Test cases in which the current database file has the meter `m1`, whose counter shows 5200 after
// 200 Wh.
static OF_A_METER: [Case; 7] = [
    (
        "an open meter has the energy of all files",
        b"main",
        &[(b"m1", 5, false)],
        "\"m1\",\"at\":1900,\"last\":5200,\"sf\":0,\"total\":\"200005\",\"earlier\":\"5\",\"ended\":false",
    ),
    (
        "the last meter of earlier files counts",
        b"main",
        &[(b"m0", 9, true), (b"m1", 7, false)],
        "\"m1\",\"at\":1900,\"last\":5200,\"sf\":0,\"total\":\"200007\",\"earlier\":\"7\",\"ended\":false",
    ),
    (
        "its energy is at most 2^64 - 1 mWh",
        b"main",
        &[(b"m1", u64::MAX, false)],
        "\"m1\",\"at\":1900,\"last\":5200,\"sf\":0,\"total\":\"18446744073709551615\",\"earlier\":\"18446744073709551615\",\"ended\":false",
    ),
    (
        "a closed meter of its name is another meter",
        b"main",
        &[(b"m1", 5, true)],
        "\"m1\",\"at\":1900,\"last\":5200,\"sf\":0,\"total\":\"200000\",\"ended\":false",
    ),
    (
        "a meter of another name is another meter",
        b"main",
        &[(b"m0", 5, false)],
        "\"m1\",\"at\":1900,\"last\":5200,\"sf\":0,\"total\":\"200000\",\"ended\":false",
    ),
    (
        "earlier files may have no meter",
        b"main",
        &[],
        "\"m1\",\"at\":1900,\"last\":5200,\"sf\":0,\"total\":\"200000\",\"ended\":false",
    ),
    (
        "meters of another register don't count",
        b"spare",
        &[(b"m1", 5, false)],
        "\"m1\",\"at\":1900,\"last\":5200,\"sf\":0,\"total\":\"200000\",\"ended\":false",
    ),
];

static OF_NO_METER: [Case; 2] = [
    (
        "an office without a meter reports the last one of earlier files",
        b"main",
        &[(b"m1", 5, true)],
        "\"m1\",\"at\":950,\"last\":4,\"sf\":-3,\"total\":\"5\",\"earlier\":\"5\",\"ended\":true",
    ),
    ("no file may have a meter", b"main", &[], "null"),
];

// Returns the state of a meter of earlier database files, with the given total energy.
fn earlier_meter(rt: &impl Abort, it: &Earlier) -> Installation {
    let (meter, total, ended) = *it;
    let opening = Opening {
        meter: Name::new(meter).expect(rt, "no name"),
        register: Name::new(b"main").expect(rt, "no name"),
        ceiling: 100_000,
        range: 4_294_967_296,
        at: 0,
        raw: 0,
        sf: 0,
    };
    let last = Last {
        at: 950,
        raw: 4,
        sf: -3,
    };
    Installation {
        opening,
        last,
        total,
        ended,
    }
}

// Returns the response of `/site` at time 2800 s, if the earlier database files have the meters
// `meters` at the accounting register `register` (a named counter).
fn replied<B: Books>(
    rt: &impl Abort,
    alloc: Global,
    office: &mut Office<B>,
    register: &[u8],
    meters: &[Earlier],
) -> Vec<u8> {
    let mut listed = Vec::new(alloc);
    for it in meters {
        listed.push(earlier_meter(rt, it)).expect(rt, "no memory");
    }
    let earlier = [earlier_register(rt, alloc, register, &listed, &[])];
    responded(rt, alloc, office, &earlier, b"GET /site HTTP/1.1\r\n\r\n")
}

// Asserts, for each case, that the response of `/site` reports the case's accounting register (a
// named energy counter) with the expected meter.
fn assert_sites<B: Books>(rt: &impl Abort, alloc: Global, office: &mut Office<B>, cases: &[Case]) {
    for (name, register, meters, meter) in cases {
        let body = format!(in alloc;
            "{{\"at\":2800,\"registers\":[{{\"device\":\"inv\",\"register\":\"main\",\"meter\":{meter}}}]}}\n"
        ).expect(rt, "no memory");
        let want = sized_reply(alloc, "200 OK", &body).expect(rt, "no memory");
        let text = replied(rt, alloc, office, register, meters);
        assert!(rt; text.as_slice() == want.as_bytes(), "{name}");
    }
}

// Checks that `/site` reports the last meter that was installed at an accounting register (a named
// counter), with this meter's energy in all files.
#[test]
fn a_site_has_the_meters_of_all_files(rt: HostRuntime) {
    let mut office = polled(&rt, rt.alloc());
    assert_sites(&rt, rt.alloc(), &mut office, &OF_A_METER);
    let mut office = unmetered(&rt, rt.alloc());
    assert_sites(&rt, rt.alloc(), &mut office, &OF_NO_METER);
}
