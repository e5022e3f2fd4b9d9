//! Tests the server of a simulated device with injected faults.
use crate::devices::bank_with_nine;
use mb_device::{Bank, Kind, Server, Trick, Turned};
use mb_wire::{Link, MemoryLink};
use std::alloc::Global;
use std::process::Abort;

// A write of 5 to holding register 0 by unit 2, followed by a read of that register by unit 1.
const WRITE_READ: &[u8] = &[
    0, 2, 0, 0, 0, 6, 2, 6, 0, 0, 0, 5, 0, 7, 0, 0, 0, 6, 1, 3, 0, 0, 0, 1,
];

// A read of holding register 0 by unit 1, followed by a write of 5 to that register by unit 2.
const READ_WRITE: &[u8] = &[
    0, 7, 0, 0, 0, 6, 1, 3, 0, 0, 0, 1, 0, 2, 0, 0, 0, 6, 2, 6, 0, 0, 0, 5,
];

// A frame of another protocol, followed by a read by unit 255 with transaction identifier 65535.
const HIGHEST: &[u8] = &[
    0, 1, 0, 9, 0, 3, 1, 3, 0, 255, 255, 0, 0, 0, 6, 255, 3, 0, 0, 0, 1,
];

// A read of 125 registers, which has the longest response.
const LONGEST: &[u8] = &[0, 7, 0, 0, 0, 6, 1, 3, 0, 0, 0, 125];

// A test case: injected faults, an input stream and the greatest chunk in bytes. Then the expected
// results: frames executed, bytes written, number of reads, and the value of holding register 0.
#[derive(Drop)]
struct Case {
    tricks: &'static [(u64, Trick)],
    input: &'static [u8],
    piece: usize,
    served: u64,
    given: &'static [u8],
    takes: u64,
    register: u16,
}

// Returns whether a server with injected faults has the results that the test case expects: frames
// executed, bytes written, reads, and the value of register 0.
fn is_served(rt: &impl Abort, alloc: Global, case: &Case) -> bool {
    let mut bank = bank_with_nine(rt, alloc);
    let mut output = [0; 48];
    let mut link = MemoryLink::new(case.input, &mut output, case.piece.max(1), None);
    let mut server = Server::tricked(case.tricks);
    let served = server.serve(&mut link, &mut bank, 48);
    let is_reported = served == Ok(case.served) && link.given() == case.given;
    let register = bank.get(Kind::Holding, 0);
    is_reported && link.takes() == case.takes && register == Some(case.register)
}

// Injected faults, and the bytes that the server writes for a write and a read in one chunk.
static ON_BOTH: [(&[(u64, Trick)], &[u8]); 16] = [
    (
        &[],
        &[
            0, 2, 0, 0, 0, 6, 2, 6, 0, 0, 0, 5, 0, 7, 0, 0, 0, 5, 1, 3, 2, 0, 5,
        ],
    ),
    // The simulated device executes a write whose response is dropped.
    (&[(1, Trick::Drop)], &[0, 7, 0, 0, 0, 5, 1, 3, 2, 0, 5]),
    (&[(2, Trick::Drop)], &[0, 2, 0, 0, 0, 6, 2, 6, 0, 0, 0, 5]),
    (
        &[(2, Trick::Twice), (1, Trick::Drop)],
        &[
            0, 7, 0, 0, 0, 5, 1, 3, 2, 0, 5, 0, 7, 0, 0, 0, 5, 1, 3, 2, 0, 5,
        ],
    ),
    // A delayed response is sent after the response to the next frame, whatever fault is injected
    // into that response.
    (
        &[(1, Trick::Later)],
        &[
            0, 7, 0, 0, 0, 5, 1, 3, 2, 0, 5, 0, 2, 0, 0, 0, 6, 2, 6, 0, 0, 0, 5,
        ],
    ),
    (
        &[(1, Trick::Later), (2, Trick::Drop)],
        &[0, 2, 0, 0, 0, 6, 2, 6, 0, 0, 0, 5],
    ),
    (
        &[(1, Trick::Later), (2, Trick::Twice)],
        &[
            0, 7, 0, 0, 0, 5, 1, 3, 2, 0, 5, 0, 7, 0, 0, 0, 5, 1, 3, 2, 0, 5, 0, 2, 0, 0, 0, 6, 2,
            6, 0, 0, 0, 5,
        ],
    ),
    // If a second response is delayed, the first delayed response is sent.
    (
        &[(1, Trick::Later), (2, Trick::Later)],
        &[0, 2, 0, 0, 0, 6, 2, 6, 0, 0, 0, 5],
    ),
    (&[(2, Trick::Later)], &[0, 2, 0, 0, 0, 6, 2, 6, 0, 0, 0, 5]),
    (
        &[(1, Trick::Id)],
        &[
            0, 3, 0, 0, 0, 6, 2, 6, 0, 0, 0, 5, 0, 7, 0, 0, 0, 5, 1, 3, 2, 0, 5,
        ],
    ),
    (
        &[(1, Trick::Unit)],
        &[
            0, 2, 0, 0, 0, 6, 3, 6, 0, 0, 0, 5, 0, 7, 0, 0, 0, 5, 1, 3, 2, 0, 5,
        ],
    ),
    (
        &[(1, Trick::Garble)],
        &[
            0, 2, 0, 0, 0, 0, 2, 6, 0, 0, 0, 5, 0, 7, 0, 0, 0, 5, 1, 3, 2, 0, 5,
        ],
    ),
    // If several injected faults have the number of one frame, the first fault applies.
    (
        &[(1, Trick::Drop), (1, Trick::Twice)],
        &[0, 7, 0, 0, 0, 5, 1, 3, 2, 0, 5],
    ),
    // Injected faults for frame numbers that do not occur change nothing.
    (
        &[
            (0, Trick::Drop),
            (3, Trick::Drop),
            (18446744073709551615, Trick::Drop),
        ],
        &[
            0, 2, 0, 0, 0, 6, 2, 6, 0, 0, 0, 5, 0, 7, 0, 0, 0, 5, 1, 3, 2, 0, 5,
        ],
    ),
    // The simulated device cuts the last response off, so a delayed response is not sent.
    (
        &[(2, Trick::Cut(4))],
        &[0, 2, 0, 0, 0, 6, 2, 6, 0, 0, 0, 5, 0, 7, 0, 0],
    ),
    (&[(1, Trick::Later), (2, Trick::Cut(4))], &[0, 7, 0, 0]),
];

/// Each injected fault changes the bytes that the server sends.
#[test]
fn each_trick_shows(rt: HostRuntime) {
    for (i, (tricks, given)) in ON_BOTH.iter().enumerate() {
        let case = Case {
            tricks,
            input: WRITE_READ,
            piece: 24,
            served: 2,
            given,
            takes: if i < 14 { 2 } else { 1 },
            register: 5,
        };
        assert!(rt; is_served(&rt, rt.alloc(), &case), "case {i}");
    }
}

// After the first response is cut off, the server does not execute the next frame. If that frame is
// in another chunk, the server does not read it.
static CUTS: [Case; 7] = [
    Case {
        tricks: &[(1, Trick::Cut(0))],
        input: WRITE_READ,
        piece: 24,
        served: 1,
        given: &[],
        takes: 1,
        register: 5,
    },
    Case {
        tricks: &[(1, Trick::Cut(4)), (2, Trick::Twice)],
        input: WRITE_READ,
        piece: 12,
        served: 1,
        given: &[0, 2, 0, 0],
        takes: 1,
        register: 5,
    },
    Case {
        tricks: &[(1, Trick::Cut(12))],
        input: WRITE_READ,
        piece: 1,
        served: 1,
        given: &[0, 2, 0, 0, 0, 6, 2, 6, 0, 0, 0, 5],
        takes: 12,
        register: 5,
    },
    // A response that is shorter than the injected cut is sent completely.
    Case {
        tricks: &[(1, Trick::Cut(13))],
        input: WRITE_READ,
        piece: 24,
        served: 1,
        given: &[0, 2, 0, 0, 0, 6, 2, 6, 0, 0, 0, 5],
        takes: 1,
        register: 5,
    },
    Case {
        tricks: &[(1, Trick::Cut(259))],
        input: READ_WRITE,
        piece: 24,
        served: 1,
        given: &[0, 7, 0, 0, 0, 5, 1, 3, 2, 0, 9],
        takes: 1,
        register: 9,
    },
    // The frame numbers of injected faults don't count a frame of another protocol. A changed
    // transaction identifier wraps to 0 after 65535, and a changed unit identifier after 255.
    Case {
        tricks: &[(1, Trick::Id)],
        input: HIGHEST,
        piece: 260,
        served: 1,
        given: &[0, 0, 0, 0, 0, 5, 255, 3, 2, 0, 9],
        takes: 2,
        register: 9,
    },
    Case {
        tricks: &[(1, Trick::Unit)],
        input: HIGHEST,
        piece: 260,
        served: 1,
        given: &[255, 255, 0, 0, 0, 5, 0, 3, 2, 0, 9],
        takes: 2,
        register: 9,
    },
];

/// An injected fault applies only to the response to the frame with its number.
#[test]
fn one_frame_is_answered_by_its_trick(rt: HostRuntime) {
    for (i, case) in CUTS.iter().enumerate() {
        assert!(rt; is_served(&rt, rt.alloc(), case), "case {i}");
    }
}

// Returns the number of bytes that the server writes of a response of 259 bytes, if the injected
// fault cuts it off after `count` bytes.
fn longest_given(rt: &impl Abort, alloc: Global, count: u16) -> usize {
    let mut bank = bank_with_nine(rt, alloc);
    let mut output = [0; 300];
    let mut link = MemoryLink::new(LONGEST, &mut output, 260, None);
    let tricks = [(1, Trick::Cut(count))];
    let served = Server::tricked(&tricks).serve(&mut link, &mut bank, 2);
    served.ok().expect(rt, "not served");
    link.given().len()
}

/// The longest response is cut off after the number of bytes that the injected fault allows.
#[test]
fn the_longest_answer_is_cut_off(rt: HostRuntime) {
    for (count, given) in [(258, 258), (259, 259), (260, 259)] {
        assert!(rt; longest_given(&rt, rt.alloc(), count) == given, "{count}");
    }
}

// Returns whether a simulated Modbus server reports that the input of its connection has ended,
// without reading or writing bytes.
fn is_over(server: &mut Server<'_>, link: &mut MemoryLink<'_>, bank: &mut Bank) -> bool {
    let before = (link.given().len(), link.takes());
    let nothing = Turned {
        answered: 0,
        ended: true,
    };
    let is_reported = server.turn(link, bank) == Ok(nothing)
        && server.serve(link, bank, 0) == Ok(0);
    is_reported && (link.given().len(), link.takes()) == before
}

/// A server reads nothing more after a response was cut off.
#[test]
fn after_a_cut_nothing_is_taken(rt: HostRuntime) {
    let mut bank = bank_with_nine(&rt, rt.alloc());
    let mut output = [0; 48];
    let mut link = MemoryLink::new(READ_WRITE, &mut output, 12, None);
    let mut server = Server::tricked(&[(1, Trick::Cut(4))]);
    let cut = Turned {
        answered: 1,
        ended: true,
    };
    assert!(rt; server.turn(&mut link, &mut bank) == Ok(cut));
    assert!(rt; is_over(&mut server, &mut link, &mut bank));
}
