//! Tests the English texts of the faults of frames, servers, sessions, memory images, scans, chains
//! of models and point lists. For the faults that no golden test covers, also tests the numeric
//! codes.
use mb_device::{BankFault, ServeFault};
use mb_wire::{ReplyFault, RequestFault};
use point_list::{FaultyRow, FaultyRows, ListFault, RowFault, WriteListFault};
use poll_core::{LostCause, Malformation, StartFault};
use std::alloc::Global;
use std::fmt::Display;
use std::process::Abort;
use sun_chain::scans::ScanFault;
use sun_chain::{ChainFault, ImageFault};

// Asserts that each fault is printed as its expected text, which does not end with a full stop.
fn assert_texts<F: Display>(rt: &impl Abort, alloc: Global, texts: &[(F, &str)]) {
    for (fault, text) in texts {
        let said = format!(in alloc; "{fault}").expect(rt, "no memory");
        assert!(rt; said.as_str() == *text, "{text}");
        assert!(rt; !text.ends_with('.'));
    }
}

const REQUESTS: [(RequestFault, &str); 5] = [
    (
        RequestFault::UnknownFunction,
        "the request's function code is none of 1 to 6, 15 and 16",
    ),
    (
        RequestFault::WrongLength,
        "the request is empty, or not as long as its function and byte count say",
    ),
    (
        RequestFault::WrongQuantity,
        "the request's quantity is not one that its function allows",
    ),
    (
        RequestFault::WrongByteCount,
        "the request's byte count is not what its quantity needs",
    ),
    (
        RequestFault::WrongCoilValue,
        "the request sets a coil to another value than 0x0000 and 0xFF00",
    ),
];

const REPLIES: [(ReplyFault, &str); 4] = [
    (
        ReplyFault::WrongFunction,
        "the reply's function code is not the request's",
    ),
    (
        ReplyFault::WrongLength,
        "the reply is empty, or not as long as its function and byte count say",
    ),
    (
        ReplyFault::WrongByteCount,
        "the reply's byte count is not what the request asked for",
    ),
    (
        ReplyFault::WrongEcho,
        "the reply to a write does not repeat the request",
    ),
];

const BANKS: [(BankFault, &str); 3] = [
    (
        BankFault::AreasOverlap,
        "two areas of one kind share an address",
    ),
    (
        BankFault::OutOfRange,
        "an area is empty, or reaches past address 65535",
    ),
    (BankFault::Memory, "memory ran out"),
];

const SERVERS: [(ServeFault, &str); 4] = [
    (ServeFault::Read, "a read of the connection failed"),
    (
        ServeFault::Write,
        "a write to the connection failed, or took nothing",
    ),
    (
        ServeFault::Garbled,
        "a frame's length field is not 2 to 254, or the server had failed before",
    ),
    (
        ServeFault::TurnsUsed,
        "the input had not ended after the last turn",
    ),
];

const STARTS: [(StartFault, &str); 4] = [
    (
        StartFault::WindowFull,
        "as many polls wait as the device's window holds",
    ),
    (
        StartFault::IdBusy,
        "a poll that waits has the next transaction identifier",
    ),
    (StartFault::ClockBack, "the moment is before the latest one"),
    (
        StartFault::Closed,
        "the session was closed, or its stream is garbled",
    ),
];

const MALFORMED: [(Malformation, &str); 5] = [
    (
        Malformation::WrongFunction,
        "the reply's function code is not the request's",
    ),
    (
        Malformation::WrongLength,
        "the reply is empty, or not as long as its function and byte count say",
    ),
    (
        Malformation::WrongByteCount,
        "the reply's byte count is not what the request asked for",
    ),
    (
        Malformation::WrongEcho,
        "the reply to a write does not repeat the request",
    ),
    (Malformation::WrongUnit, "the reply comes from another unit"),
];

const LOST: [(LostCause, &str); 4] = [
    (LostCause::Gone, "the device closed the connection"),
    (LostCause::Garbled, "a frame's length field is not 2 to 254"),
    (
        LostCause::Failed,
        "a read or a write of the connection failed",
    ),
    (LostCause::Restart, "the program was started again"),
];

/// Each fault of a request or a response, and each kind of malformed outcome, is printed as its
/// expected text.
#[test]
fn frames(rt: HostRuntime) {
    assert_texts(&rt, rt.alloc(), &REQUESTS);
    assert_texts(&rt, rt.alloc(), &REPLIES);
    assert_texts(&rt, rt.alloc(), &MALFORMED)
}

/// Each fault of a device's areas (address ranges) or of a server is printed as its expected text.
#[test]
fn servers(rt: HostRuntime) {
    assert_texts(&rt, rt.alloc(), &BANKS);
    assert_texts(&rt, rt.alloc(), &SERVERS)
}

/// Each fault of starting a poll, and each cause of a lost poll, is printed as its expected text.
#[test]
fn sessions(rt: HostRuntime) {
    assert_texts(&rt, rt.alloc(), &STARTS);
    assert_texts(&rt, rt.alloc(), &LOST)
}

const IMAGES: [(ImageFault, &str); 2] = [
    (
        ImageFault::PastEnd,
        "the words would end past address 65535",
    ),
    (ImageFault::Memory, "memory ran out"),
];

const SCANS: [(ScanFault, &str); 4] = [
    (ScanFault::Gone, "the device closed the connection"),
    (ScanFault::Failed, "the connection failed"),
    (
        ScanFault::Garbled,
        "the device sent bytes that are not Modbus",
    ),
    (ScanFault::Memory, "memory ran out"),
];

const CHAINS: [(ChainFault, &str); 5] = [
    (
        ChainFault::NoMark,
        "the mark SunS stands at none of the addresses 40000, 50000 and 0",
    ),
    (
        ChainFault::Unreadable(40069),
        "the chain needs address 40069, which was not read",
    ),
    (ChainFault::PastEnd, "the chain goes on past address 65535"),
    (ChainFault::TooMany, "the chain has more than 64 models"),
    (ChainFault::Memory, "memory ran out"),
];

const ROWS: [(RowFault, &str); 12] = [
    (RowFault::Csv, "the row does not have six fields"),
    (
        RowFault::Header,
        "the header is not name,function,area,address,type,scale",
    ),
    (
        RowFault::Name,
        "the name is not 1 to 32 letters, digits, _ and ., a letter first",
    ),
    (RowFault::DoubleName, "an earlier row has the same name"),
    (RowFault::Function, "the function is not 3 or 4"),
    (RowFault::Area, "the area is not 0 to 255"),
    (
        RowFault::Address,
        "the address is not 0 to 65535, or the point reaches past 65535",
    ),
    (
        RowFault::Type,
        "the type is not int16, uint16, enum16, int32, uint32, bitfield32, acc32, sunssf or string1 to string125",
    ),
    (
        RowFault::Scale,
        "the scale is not empty, -10 to 10 or a name, or the type takes none",
    ),
    (
        RowFault::NoSuchScale,
        "no point of the type sunssf has the scale's name",
    ),
    (
        RowFault::GroupTooWide,
        "the point and its scale point differ in function or area, or span more than 125 registers",
    ),
    (RowFault::TooMany, "the list has more than 512 points"),
];

const WRITES: [(WriteListFault, &str); 2] = [
    (WriteListFault::Write, "the list could not be written"),
    (WriteListFault::Memory, "memory ran out"),
];

// Each fault of a memory image, a scan, a chain of SunSpec models or a point list is printed as its
// expected text.
#[test]
fn each_fault_has_its_text(rt: HostRuntime) {
    assert_texts(&rt, rt.alloc(), &IMAGES);
    assert_texts(&rt, rt.alloc(), &SCANS);
    assert_texts(&rt, rt.alloc(), &CHAINS);
    assert_texts(&rt, rt.alloc(), &ROWS);
    assert_texts(&rt, rt.alloc(), &WRITES)
}

const FAULTY: [FaultyRow; 2] = [
    FaultyRow {
        row: 2,
        fault: RowFault::Function,
    },
    FaultyRow {
        row: 7,
        fault: RowFault::Area,
    },
];

// Returns the fault of a point list that lists the first `count` rows of `FAULTY`, the faulty rows
// that this test uses.
fn faulty(rt: &impl Abort, alloc: Global, count: usize) -> FaultyRows {
    let mut rows = Vec::new(alloc);
    for row in FAULTY.iter().take(count) {
        rows.push(*row).expect(rt, "no memory");
    }
    FaultyRows::new(rows)
}

// The text for the faults of a point list has the first faulty row and the number of faulty rows.
#[test]
fn list_fault_shows_its_first_row(rt: HostRuntime) {
    let lists = [
        (
            ListFault::Faults(faulty(&rt, rt.alloc(), 0)),
            "no row is faulty",
        ),
        (
            ListFault::Faults(faulty(&rt, rt.alloc(), 1)),
            "row 2: the function is not 3 or 4",
        ),
        (
            ListFault::Faults(faulty(&rt, rt.alloc(), 2)),
            "row 2: the function is not 3 or 4 (faulty rows: 2)",
        ),
        (ListFault::Memory, "memory ran out"),
    ];
    assert_texts(&rt, rt.alloc(), &lists)
}

// The faults of device images, model chains and point lists that no test of a golden (expected)
// output covers have their expected numeric codes.
#[test]
fn faults_have_numbers(rt: HostRuntime) {
    assert!(rt; ImageFault::PastEnd.number() == 1);
    assert!(rt; ImageFault::Memory.number() == 2);
    assert!(rt; ChainFault::Memory.number() == 5);
    assert!(rt; WriteListFault::Write.number() == 1);
    assert!(rt; WriteListFault::Memory.number() == 2);
    assert!(rt; ListFault::Memory.number() == Some(13));
    let faults = faulty(&rt, rt.alloc(), 2);
    assert!(rt; faults.rows() == FAULTY.as_slice());
    assert!(rt; ListFault::Faults(faults).number().is_none());
    let kept = faulty(&rt, rt.alloc(), 1).into_rows();
    assert!(rt; kept.as_slice() == &FAULTY[..1]);
}
