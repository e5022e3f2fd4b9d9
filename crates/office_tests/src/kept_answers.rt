//! Tests a cache of lookup results over a store that fails at a chosen call.
use crate::facts::Booked;
use crate::offices::LIST;
use crate::steps::{Step, try_step};
use crate::tried::{Trial, try_failing};
use energy_core::Cause;
use mb_wire::ReadFunction;
use memory_books::kept::CachedBooks;
use meter_journal::EntryKind;
use office_books::{Books, BooksFault, Span, StoreFault};
use office_events::ScaleSource;
use std::alloc::Global;
use std::process::Abort;

// A point list (the Modbus registers to read) whose plan has one Modbus read.
const SHORT: &[u8] = b"name,function,area,address,type,scale\na,3,0,0,acc32,\n";

const HOLDING: ReadFunction = ReadFunction::HoldingRegisters;

const INPUT: ReadFunction = ReadFunction::InputRegisters;

const FIXED: ScaleSource = ScaleSource::Fixed(0);

macro_rules! between {
    ($from:expr, $till:expr) => {
        Span::Between {
            from: $from,
            till: $till,
        }
    };
}

const FAST: (u64, Cause) = (9900, Cause::TooFast);

const NO_COUNT: (u64, Cause) = (10_000, Cause::NotAccumulated);

static STEPS: [Step; 49] = [
    Step::Books(&[
        Booked::Device(b"inv"),
        Booked::Register(b"main", b"inv", HOLDING, 40094, FIXED),
    ]),
    Step::Reads(0),
    Step::Lists(LIST),
    Step::Reads(2),
    Step::Reads(2),
    Step::Registers(1),
    Step::Registers(1),
    Step::Lists(SHORT),
    Step::Reads(1),
    Step::Registers(1),
    Step::Books(&[Booked::Register(b"export", b"inv", HOLDING, 40096, FIXED)]),
    Step::Registers(2),
    Step::Reads(1),
    Step::Books(&[Booked::Opening(b"old", 1000)]),
    Step::Installed(b"old", 0, false),
    Step::Books(&[Booked::Entry(b"old", EntryKind::Reading, 4600, 1500)]),
    Step::Installed(b"old", 1_500_000, false),
    Step::Books(&[Booked::Entry(b"old", EntryKind::Reading, 8200, 2000)]),
    Step::Installed(b"old", 2_000_000, false),
    Step::Books(&[Booked::Void(b"old", 3, 9000)]),
    Step::Installed(b"old", 1_500_000, false),
    Step::Latest(9000),
    Step::Books(&[Booked::Entry(b"old", EntryKind::Closing, 9000, 1600)]),
    Step::Installed(b"old", 1_600_000, true),
    Step::Books(&[Booked::Opening(b"new", 9000)]),
    Step::Installed(b"new", 0, false),
    Step::Started(0),
    Step::Books(&[Booked::Poll(1)]),
    Step::Started(1),
    Step::Waits(1, true),
    Step::Books(&[Booked::Ended(1)]),
    Step::Waits(1, false),
    Step::Started(1),
    Step::EntryNear(b"old", 2, 0, 1_600_000),
    Step::Entry(b"old", 3, 1_500_000, true),
    Step::NoEntry(b"old", 5),
    Step::NoEntry(b"none", 2),
    Step::Meter(b"old", 1_600_000, true),
    Step::Meters(2),
    Step::Books(&[
        Booked::Poll(2),
        Booked::Poll(3),
        Booked::Poll(4),
        Booked::Ended(3),
    ]),
    Step::Pending(&[2, 4]),
    Step::Waits(4, true),
    Step::Started(4),
    Step::Books(&[
        Booked::Hold(b"new", 2, 9900, 60_000, Cause::TooFast),
        Booked::Hold(b"new", 4, 10_000, 0, Cause::NotAccumulated),
    ]),
    Step::Held(b"new", Span::All, &[FAST, NO_COUNT]),
    Step::Held(b"new", between!(9900, 10_000), &[FAST]),
    Step::Held(b"new", between!(9901, 10_001), &[NO_COUNT]),
    Step::Held(b"new", between!(10_001, u64::MAX), &[]),
    Step::Held(b"old", Span::All, &[]),
];

// The number of calls to the store that the lookups of all test steps make through the cache. A
// lookup of a cached result makes no call, and most other lookups make one. A lookup of a missing
// entry makes two, and a lookup with `entry_near` makes three.
const CALLS: u64 = 41;

// Writes the accounting registers (named counters) of `inv`. The device `pv` has a register at an
// address that `inv` also uses.
const REGISTERS: Step = Step::Books(&[
    Booked::Device(b"inv"),
    Booked::Device(b"pv"),
    Booked::Register(b"fixed", b"inv", HOLDING, 100, FIXED),
    Booked::Register(b"other", b"pv", HOLDING, 100, FIXED),
    Booked::Register(b"scaled", b"inv", HOLDING, 102, ScaleSource::Register(104)),
    Booked::Register(b"input", b"inv", INPUT, 100, FIXED),
    Booked::Register(b"last", b"inv", HOLDING, 65_534, FIXED),
]);

// Modbus reads of the device `inv`, each with the accounting registers (named counters) that the
// read covers. The golden test `polls/registers_of_a_read` of `tests/scripts` has the same
// reads.
static READS: [Step; 12] = [
    Step::Read(3, 100, 2, &["fixed"]),
    Step::Read(3, 100, 1, &[]),
    Step::Read(3, 101, 2, &[]),
    Step::Read(3, 99, 2, &[]),
    Step::Read(3, 99, 3, &["fixed"]),
    Step::Read(3, 100, 4, &["fixed"]),
    Step::Read(3, 100, 5, &["fixed", "scaled"]),
    Step::Read(3, 102, 3, &["scaled"]),
    Step::Read(3, 103, 3, &[]),
    Step::Read(4, 100, 2, &["input"]),
    Step::Read(4, 102, 3, &[]),
    Step::Read(3, 65_411, 125, &["last"]),
];

const REFUSED: BooksFault = BooksFault::Store(StoreFault::Refused);

// Asserts that each test step has its expected result. If the store below the cache (of lookup
// results) fails during a step, the step is repeated.
fn assert_steps<B: Books>(rt: &impl Abort, alloc: Global, books: &mut B, steps: &[Step]) {
    for (place, step) in steps.iter().enumerate() {
        match try_step(rt, alloc, books, *step) {
            Ok(is_so) => assert!(rt; is_so, "step {place}"),
            Err(why) => {
                assert!(rt; why == REFUSED, "step {place}");
                let again = try_step(rt, alloc, books, *step);
                assert!(rt; again == Ok(true), "step {place} again");
            }
        }
    }
}

// Executes test steps over a cache of lookup results, and then the last step over the store below
// the cache. Returns the number of failures before the last step.
fn play<B: Books>(rt: &impl Abort, alloc: Global, beneath: B, steps: &[Step]) -> u64 {
    let mut books = CachedBooks::new(alloc, beneath);
    assert_steps(rt, alloc, &mut books, steps);
    let faults = books.faults();
    let mut beneath = books.into_books();
    if let Some(last) = steps.last() {
        assert_steps(rt, alloc, &mut beneath, &[*last]);
    }
    faults
}

/// Executes all test steps over a cache of lookup results, and returns the number of failures of
/// the store below it.
pub(crate) fn play_all<B: Books>(rt: &impl Abort, alloc: Global, beneath: B) -> u64 {
    play(rt, alloc, beneath, &STEPS)
}

/// Looks up twice which accounting registers (named counters) a Modbus read covers: before and
/// after these registers are cached. `place` is the index of the read in `READS`.
pub(crate) fn read_twice<B: Books>(
    rt: &impl Abort,
    alloc: Global,
    beneath: B,
    place: usize,
) -> u64 {
    match READS.get(place) {
        Some(read) => play(rt, alloc, beneath, &[REGISTERS, *read, *read]),
        None => panic!(rt; "no read"),
    }
}

// Asserts that a test makes exactly `calls` calls to the store below the cache of lookup results.
fn assert_calls(rt: &impl Abort, alloc: Global, trial: Trial, calls: u64) {
    for failing in 1..=calls.saturating_add(1) {
        let faults = try_failing(rt, alloc, failing, trial);
        assert!(rt;
            faults == u64::from(failing <= calls),
            "call {failing} of {calls}"
        );
    }
}

/// If any one call to the store that the cache of lookup results queries fails, the cache still
/// returns correct results.
#[test]
fn kept_answers_outlive_failures(rt: HostRuntime) {
    assert_calls(&rt, rt.alloc(), Trial::Kept, CALLS);
}

/// The store below the cache of lookup results is queried only once for the accounting registers
/// (named counters) that a Modbus read covers.
#[test]
fn a_read_is_asked_of_the_store_once(rt: HostRuntime) {
    for place in 0..READS.len() {
        assert_calls(&rt, rt.alloc(), Trial::Read(place), 2);
    }
}
