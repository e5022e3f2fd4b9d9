//! Tests the Modbus server of a simulated device over a connection.
use crate::devices::bank_with_nine;
use mb_device::{Bank, Kind, ServeFault, Server, Trick, Turned, answer_one};
use mb_wire::{Link, MemoryLink};
use std::alloc::Global;
use std::process::Abort;

// A read of holding register 0 by unit 1, and the response if the register has the value 9.
const READ: &[u8] = &[0, 7, 0, 0, 0, 6, 1, 3, 0, 0, 0, 1];

const NINE: &[u8] = &[0, 7, 0, 0, 0, 5, 1, 3, 2, 0, 9];

const TWO_READS: &[u8] = &[
    0, 7, 0, 0, 0, 6, 1, 3, 0, 0, 0, 1, 0, 7, 0, 0, 0, 6, 1, 3, 0, 0, 0, 1,
];

const TWO_NINES: &[u8] = &[
    0, 7, 0, 0, 0, 5, 1, 3, 2, 0, 9, 0, 7, 0, 0, 0, 5, 1, 3, 2, 0, 9,
];

// A frame of another protocol, a write of 5 to holding register 0, and a read of that register. The
// frames have different transaction and unit identifiers.
const MIXED: &[u8] = &[
    0, 1, 0, 9, 0, 3, 1, 3, 0, 0, 2, 0, 0, 0, 6, 2, 6, 0, 0, 0, 5, 1, 3, 0, 0, 0, 6, 3, 3, 0, 0, 0,
    1,
];

const MIXED_ANSWERS: &[u8] = &[
    0, 2, 0, 0, 0, 6, 2, 6, 0, 0, 0, 5, 1, 3, 0, 0, 0, 5, 3, 3, 2, 0, 5,
];

// A read followed by a frame with an invalid length field.
const GARBLED: &[u8] = &[
    0, 7, 0, 0, 0, 6, 1, 3, 0, 0, 0, 1, 0, 8, 0, 0, 0, 1, 1, 3, 0, 0, 0, 1,
];

// A test case: an input stream, the greatest chunk of the connection in bytes, the failing call to
// the connection if any, and the number of turns (reads of a chunk). Then the expected results.
struct Case {
    input: &'static [u8],
    piece: usize,
    fails: Option<u64>,
    turns: u32,
    served: Result<u64, ServeFault>,
    given: &'static [u8],
    takes: u64,
    failures: u64,
}

static CASES: [Case; 11] = [
    // Test cases in which the allowed number of turns (reads of a chunk) is enough for the input of
    // a server, or too small.
    Case {
        input: READ,
        piece: 12,
        fails: None,
        turns: 2,
        served: Ok(1),
        given: NINE,
        takes: 2,
        failures: 0,
    },
    Case {
        input: READ,
        piece: 12,
        fails: None,
        turns: 1,
        served: Err(ServeFault::TurnsUsed),
        given: NINE,
        takes: 1,
        failures: 0,
    },
    // An input that arrives one byte at a time.
    Case {
        input: MIXED,
        piece: 1,
        fails: None,
        turns: 34,
        served: Ok(2),
        given: MIXED_ANSWERS,
        takes: 34,
        failures: 0,
    },
    // For each of the five calls to a connection, a case in which only this call fails. In the last
    // case, no call fails.
    Case {
        input: TWO_READS,
        piece: 12,
        fails: Some(1),
        turns: 9,
        served: Err(ServeFault::Read),
        given: &[],
        takes: 1,
        failures: 1,
    },
    Case {
        input: TWO_READS,
        piece: 12,
        fails: Some(2),
        turns: 9,
        served: Err(ServeFault::Write),
        given: &[],
        takes: 1,
        failures: 1,
    },
    Case {
        input: TWO_READS,
        piece: 12,
        fails: Some(3),
        turns: 9,
        served: Err(ServeFault::Read),
        given: NINE,
        takes: 2,
        failures: 1,
    },
    Case {
        input: TWO_READS,
        piece: 12,
        fails: Some(4),
        turns: 9,
        served: Err(ServeFault::Write),
        given: NINE,
        takes: 2,
        failures: 1,
    },
    Case {
        input: TWO_READS,
        piece: 12,
        fails: Some(5),
        turns: 9,
        served: Err(ServeFault::Read),
        given: TWO_NINES,
        takes: 3,
        failures: 1,
    },
    Case {
        input: TWO_READS,
        piece: 12,
        fails: Some(6),
        turns: 9,
        served: Ok(2),
        given: TWO_NINES,
        takes: 3,
        failures: 0,
    },
    // The server sends the responses to the frames before an invalid length field, and then returns
    // the fault.
    Case {
        input: GARBLED,
        piece: 1,
        fails: None,
        turns: 40,
        served: Err(ServeFault::Garbled),
        given: NINE,
        takes: 18,
        failures: 0,
    },
    Case {
        input: GARBLED,
        piece: 24,
        fails: None,
        turns: 40,
        served: Err(ServeFault::Garbled),
        given: NINE,
        takes: 1,
        failures: 0,
    },
];

// Returns whether a server has ended after an invalid length field: it returns `Garbled` again,
// without reading or writing.
fn is_over(server: &mut Server, link: &mut MemoryLink<'_>, bank: &mut Bank) -> bool {
    let before = (link.given().len(), link.takes());
    let served = server.serve(link, bank, 9);
    served == Err(ServeFault::Garbled) && (link.given().len(), link.takes()) == before
}

// Returns whether a server's result, bytes and numbers of reads and failures are those that a test
// case expects. If the server returned a fault, and only then, its next call must return `Garbled`
// (the fault of an invalid length field).
fn is_served(rt: &impl Abort, alloc: Global, case: &Case) -> bool {
    let mut bank = bank_with_nine(rt, alloc);
    let mut output = [0; 40];
    let mut link = MemoryLink::new(case.input, &mut output, case.piece.max(1), case.fails);
    let mut server = Server::new();
    let served = server.serve(&mut link, &mut bank, case.turns);
    let is_reported = served == case.served && link.given() == case.given;
    let counts = (link.takes(), link.failures());
    let is_over = is_over(&mut server, &mut link, &mut bank);
    is_reported && counts == (case.takes, case.failures) && is_over == served.is_err()
}

/// A server serves a stream in chunks, up to the stream's end or a fault.
#[test]
fn streams_are_served(rt: HostRuntime) {
    for (i, case) in CASES.iter().enumerate() {
        assert!(rt; is_served(&rt, rt.alloc(), case), "case {i}");
    }
}

/// In one turn, a server reads one chunk, and responds to each frame that ends in this chunk.
#[test]
fn one_turn_answers_each_frame_of_its_piece(rt: HostRuntime) {
    let mut bank = bank_with_nine(&rt, rt.alloc());
    let mut output = [0; 40];
    let mut link = MemoryLink::new(MIXED, &mut output, 260, None);
    let mut server = Server::new();
    for (answered, ended) in [(2, false), (0, true)] {
        let turned = server.turn(&mut link, &mut bank);
        assert!(rt; turned == Ok(Turned { answered, ended }));
    }
    assert!(rt; link.given() == MIXED_ANSWERS);
}

/// A server sends only a part of a response if the output is full.
#[test]
fn a_full_output_breaks_an_answer_off(rt: HostRuntime) {
    let mut bank = bank_with_nine(&rt, rt.alloc());
    let mut output = [0; 5];
    let mut link = MemoryLink::new(MIXED, &mut output, 260, None);
    let mut server = Server::new();
    for fault in [ServeFault::Write, ServeFault::Garbled] {
        assert!(rt; server.turn(&mut link, &mut bank) == Err(fault));
        assert!(rt; link.given() == [0, 2, 0, 0, 0].as_slice());
    }
    assert!(rt; bank.get(Kind::Holding, 0) == Some(5));
}

// A device serves one connection, and cuts its first response off after four bytes. Each case has
// the number of the failing call to the connection, if any, the expected result, and the bytes
// written.
static ANSWERS: [(Option<u64>, Result<u64, ServeFault>, &[u8]); 2] = [
    (None, Ok(1), &[0, 7, 0, 0]),
    (Some(1), Err(ServeFault::Read), &[]),
];

/// A device that serves one connection applies its injected faults, and reports a failed read.
#[test]
fn tricks_are_played_and_failing_links_are_reported(rt: HostRuntime) {
    for (failing, answer, written) in &ANSWERS {
        let mut bank = bank_with_nine(&rt, rt.alloc());
        let mut output = [0; 64];
        let mut link = MemoryLink::new(READ, &mut output, 260, *failing);
        let tricks = [(1, Trick::Cut(4))];
        assert!(rt; answer_one(&mut link, &mut bank, &tricks) == *answer);
        assert!(rt; link.given() == *written);
    }
}

static NUMBERS: [(ServeFault, u8); 4] = [
    (ServeFault::Read, 1),
    (ServeFault::Write, 2),
    (ServeFault::Garbled, 3),
    (ServeFault::TurnsUsed, 4),
];

/// Each fault of a Modbus server has its expected numeric code.
#[test]
fn serve_faults_have_their_numbers(rt: HostRuntime) {
    for (fault, number) in NUMBERS {
        assert!(rt; fault.number() == number, "{number}");
    }
}
