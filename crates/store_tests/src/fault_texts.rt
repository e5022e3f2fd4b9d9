//! Tests the texts of faults in a database's tables and in its file, and the numeric codes of
//! faults. No command prints these texts.
use sqlite::Error;
use std::alloc::Global;
use std::fmt::Display;
use std::process::Abort;
use store_tables::{OpenFault, RowFault};
use stored_files::FileFault;

/// Asserts that each fault has its expected text, without a full stop.
fn assert_texts<F: Display>(rt: &impl Abort, alloc: Global, texts: &[(F, &str)]) {
    for (fault, text) in texts {
        let said = format!(in alloc; "{fault}").expect(rt, "no memory");
        assert!(rt; said.as_str() == *text, "{text}");
        assert!(rt; !text.ends_with('.'), "{text}");
    }
}

const FILES: [(OpenFault, &str); 4] = [
    (
        OpenFault::NotOurs,
        "the file holds other tables than those of books, or books of a version that is not known",
    ),
    (
        OpenFault::Zone,
        "the text is no POSIX time zone of at most 64 bytes, as UTC0 or CET-1CEST,M3.5.0,M10.5.0/3",
    ),
    (OpenFault::Store, "the database refused or failed"),
    (OpenFault::Memory, "memory ran out"),
];

const ROWS: [(RowFault, &str); 2] = [
    (
        RowFault::Sql(Error::QueryReturnedNoRows),
        "the database refused or failed: query returned no rows",
    ),
    (
        RowFault::Damaged,
        "the database is damaged: a row has a value that none may have",
    ),
];

/// The faults with which opening a store can fail, with their numeric codes.
static OPENINGS: [(OpenFault, u8); 4] = [
    (OpenFault::NotOurs, 1),
    (OpenFault::Zone, 2),
    (OpenFault::Store, 3),
    (OpenFault::Memory, 4),
];

static CONNECTIONS: [(FileFault, u8); 5] = [
    (FileFault::Missing, 1),
    (FileFault::Busy, 2),
    (FileFault::NoDatabase, 3),
    (FileFault::Unreadable, 4),
    (FileFault::Memory, 5),
];

// Checks that each fault of a database's tables and of its file has the expected text and numeric
// code.
#[test]
fn faults_have_their_texts_and_numbers(rt: HostRuntime) {
    assert_texts(&rt, rt.alloc(), &FILES);
    assert_texts(&rt, rt.alloc(), &ROWS);
    for (fault, number) in &OPENINGS {
        assert!(rt; fault.number() == *number);
    }
    for (fault, number) in &CONNECTIONS {
        assert!(rt; fault.number() == *number);
    }
}
