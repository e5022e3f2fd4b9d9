//! Tests of scripts with a simulated device, when the output fails or the connection to the device
//! cannot be made.
use crate::streams::{Kept, zone};
use command_io::ExitStatus;
use mb_wire::MemoryLink;
use script_run::{Connects, Ends, Loopback, loop_text};
use std::io::{self, ErrorKind};

// A source of connections to simulated devices that refuses each connection.
#[derive(Drop)]
struct Broken;

impl Connects for Broken {
    type End = MemoryLink<'static>;

    fn connect(&mut self) -> io::Result<Ends<MemoryLink<'static>>> {
        Err(io::Error::from(ErrorKind::ConnectionRefused))
    }
}

const SCRIPT: &str = "\
    area holding 40094 3\n\
    area holding 40094 3\n\
    1000 device inv 1 5 1\n\
    1000 connect inv\n\
    1000 start inv 3 40094 3\n\
    x\n";

const PRINTED: &str = "\
    ok\n\
    refused 12\n\
    ok\n\
    ok\n\
    started 1 1 1 00000000000601039c9e0003\n\
    poll 1 answered\n\
    ok\n\
    bad line 6\n";

// Test cases: the number of bytes that the writer accepts before it fails, and the exit status.
// Each number of bytes is 0 or ends an output line, and the last is the length of the complete
// output.
static ENDS: [(usize, ExitStatus); 9] = [
    (0, ExitStatus::Failed),
    (3, ExitStatus::Failed),
    (14, ExitStatus::Failed),
    (17, ExitStatus::Failed),
    (20, ExitStatus::Failed),
    (59, ExitStatus::Failed),
    (75, ExitStatus::Failed),
    (78, ExitStatus::Failed),
    (89, ExitStatus::Refused),
];

// A failed write ends the run of a script with a simulated device at once.
#[test]
fn a_writer_that_fails_ends_the_run(rt: HostRuntime) {
    let mut loopback = Loopback::new(&rt).expect(&rt, "no loopback");
    for (room, status) in &ENDS {
        let mut input = SCRIPT.as_bytes();
        let mut kept = Kept::new(rt.alloc(), room.saturating_add(1), 1);
        let ended = loop_text(rt.alloc(), zone(&rt), &mut input, &mut loopback, &mut kept);
        assert!(rt; kept.got.len() == *room);
        let whole = kept.assert_written(&rt, PRINTED);
        assert!(rt; ended == *status, "{room}");
        assert!(rt; whole == (*status == ExitStatus::Refused), "{room}");
    }
}

// A connection to the simulated device that cannot be made ends the run of a script at once.
#[test]
fn a_connection_that_cannot_be_made_ends_the_run(rt: HostRuntime) {
    let mut printed = Vec::new(rt.alloc());
    let mut input = SCRIPT.as_bytes();
    let ended = loop_text(rt.alloc(), zone(&rt), &mut input, &mut Broken, &mut printed);
    assert!(rt; ended == ExitStatus::Failed);
    assert!(rt; printed.as_slice() == b"ok\nrefused 12\nok\n".as_slice());
}
