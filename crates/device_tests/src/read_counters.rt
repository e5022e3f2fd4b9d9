//! Tests the reading of a device's energy counters over a connection.
use crate::stand_in_link::SimulatorLink;
use mb_device::{Area, Bank, Kind, Trick};
use mb_wire::{MemoryLink, ReadFunction};
use std::alloc::Global;
use std::process::Abort;
use sun_chain::scans::{CounterScale, ScanFault, Shown, read_counter};

static AREAS: [Area; 2] = [
    Area {
        kind: Kind::Holding,
        start: 40000,
        count: 130,
    },
    Area {
        kind: Kind::Input,
        start: 40000,
        count: 130,
    },
];

// Registers of a device: a counter in input registers with scale registers before and after it, a
// counter in holding registers, and invalid scales.
static WORDS: [(Kind, u16, u16); 9] = [
    (Kind::Holding, 40000, 1),
    (Kind::Holding, 40001, 2),
    (Kind::Input, 40000, 0xFFFD),
    (Kind::Input, 40010, 2),
    (Kind::Input, 40011, 3),
    (Kind::Input, 40014, 3),
    (Kind::Input, 40015, 0x8000),
    (Kind::Input, 40016, 4),
    (Kind::Input, 40017, 0xFFFC),
];

fn meter(rt: &impl Abort, alloc: Global) -> Bank {
    let mut bank = Bank::new(alloc, &AREAS).ok().expect(rt, "no bank");
    for (kind, address, word) in &WORDS {
        bank.set(*kind, *address, *word);
    }
    bank
}

const HOLDING: ReadFunction = ReadFunction::HoldingRegisters;

const INPUT: ReadFunction = ReadFunction::InputRegisters;

// The value of a counter and its power of ten, or `None` if the counter cannot be read.
type Count = Option<(u32, i16)>;

// The function, address and scale of a counter, the expected result of reading the counter, and the
// expected number of requests.
static COUNTERS: [(ReadFunction, u16, CounterScale, Count, u64); 13] = [
    (HOLDING, 40000, CounterScale::Fixed(0), Some((65538, 0)), 1),
    (
        HOLDING,
        40000,
        CounterScale::Fixed(-3),
        Some((65538, -3)),
        1,
    ),
    (INPUT, 40010, CounterScale::Fixed(3), Some((131_075, 3)), 1),
    (
        INPUT,
        40010,
        CounterScale::Register(40014),
        Some((131_075, 3)),
        1,
    ),
    (
        INPUT,
        40010,
        CounterScale::Register(40000),
        Some((131_075, -3)),
        1,
    ),
    (INPUT, 40005, CounterScale::Register(40129), Some((0, 0)), 1),
    // A scale factor that is not implemented, and scale factors that are out of range for a
    // counter.
    (INPUT, 40010, CounterScale::Register(40015), None, 1),
    (INPUT, 40010, CounterScale::Register(40016), None, 1),
    (INPUT, 40010, CounterScale::Register(40017), None, 1),
    (INPUT, 40010, CounterScale::Fixed(4), None, 1),
    // A counter whose registers the device does not have.
    (HOLDING, 40129, CounterScale::Fixed(0), None, 2),
    // A counter and a scale that need a read of 126 registers, and a counter that extends past
    // address 65535.
    (INPUT, 40004, CounterScale::Register(40129), None, 0),
    (INPUT, 65535, CounterScale::Fixed(0), None, 0),
];

fn shown(count: Count) -> Option<Shown> {
    let (raw, sf) = count?;
    Some(Shown { raw, sf })
}

// A counter and its scale are read by one request, which is sent once more if the response has no
// registers.
#[test]
fn a_counter_is_read_with_its_scale(rt: HostRuntime) {
    let mut link = SimulatorLink::new(meter(&rt, rt.alloc()), &[]);
    for (function, address, scale, count, requests) in &COUNTERS {
        let before = link.gives();
        let found = read_counter(rt.alloc(), &mut link, 1, *function, *address, *scale);
        assert!(rt; found == Ok(shown(*count)), "{address}");
        assert!(rt;
            link.gives() == before.saturating_add(*requests),
            "{address}"
        );
    }
}

// Reads a counter whose scale register follows the counter, from a simulated device with injected
// faults.
fn tricked(
    rt: &impl Abort,
    alloc: Global,
    tricks: &[(u64, Trick)],
) -> Result<Option<Shown>, ScanFault> {
    let mut link = SimulatorLink::new(meter(rt, alloc), tricks);
    let scale = CounterScale::Register(40014);
    read_counter(alloc, &mut link, 1, INPUT, 40010, scale)
}

static ONCE: [Trick; 5] = [
    Trick::Drop,
    Trick::Twice,
    Trick::Later,
    Trick::Id,
    Trick::Unit,
];

// If the response to a read of a counter fails once, the request is sent again. After two timeouts
// there is no value, and a broken connection is a fault.
#[test]
fn a_counter_is_asked_for_twice(rt: HostRuntime) {
    for trick in &ONCE {
        let found = tricked(&rt, rt.alloc(), &[(1, *trick)]);
        assert!(rt; found == Ok(shown(Some((131_075, 3)))));
    }
    let silent = tricked(&rt, rt.alloc(), &[(1, Trick::Drop), (2, Trick::Drop)]);
    assert!(rt; silent == Ok(None));
    let cut = tricked(&rt, rt.alloc(), &[(1, Trick::Cut(5))]);
    assert!(rt; cut == Err(ScanFault::Gone));
    let garbled = tricked(&rt, rt.alloc(), &[(1, Trick::Garble)]);
    assert!(rt; garbled == Err(ScanFault::Garbled));
}

// An exception response to the first request for a counter, followed by a response with registers
// to the repeated request.
static EXCEPTION_THEN_WORDS: [u8; 22] = [
    0, 1, 0, 0, 0, 3, 7, 0x84, 6, 0, 2, 0, 0, 0, 7, 7, 4, 4, 0, 1, 0, 2,
];

// The frames of the two requests that reading a counter sends if the response to the first is an
// exception. Each request is for two input registers from address 40010 of unit 7.
static REQUESTS: [u8; 24] = [
    0, 1, 0, 0, 0, 6, 7, 4, 0x9C, 0x4A, 0, 2, 0, 2, 0, 0, 0, 6, 7, 4, 0x9C, 0x4A, 0, 2,
];

// Asserts the result of reading a counter over a connection. If `failing` is a number, the call to
// the connection with this number fails. Returns the bytes written to the connection.
fn assert_read(
    rt: &impl Abort,
    alloc: Global,
    failing: Option<u64>,
    wanted: Result<Option<Shown>, ScanFault>,
) -> Vec<u8> {
    let mut given = [0; 36];
    let mut link = MemoryLink::new(&EXCEPTION_THEN_WORDS, &mut given, 9, failing);
    let scale = CounterScale::Fixed(-1);
    let found = read_counter(alloc, &mut link, 7, INPUT, 40010, scale);
    assert!(rt; found == wanted);
    link.given().to_vec(alloc).expect(rt, "no memory")
}

// An exception response does not end the reading of a counter: the second request returns the
// value. If the connection fails at the first write, the second write or the first read, the result
// is a fault.
#[test]
fn words_may_come_after_an_exception(rt: HostRuntime) {
    let wanted = Ok(shown(Some((65538, -1))));
    let written = assert_read(&rt, rt.alloc(), None, wanted);
    assert!(rt; written.as_slice() == REQUESTS.as_slice());
    for call in 1..4u64 {
        assert_read(&rt, rt.alloc(), Some(call), Err(ScanFault::Failed));
    }
}
