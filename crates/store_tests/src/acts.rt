//! Tasks that tests run over a database in memory. Only the functions of this source file run the
//! tasks with the concrete type of a store, because each use of this type makes the proofs take
//! longer.
use crate::stops::asked::Asked;
use crate::stops::files::{Stop, Stopping, connected, files};
use crate::stops::offices::play;
use crate::stops::standing::assert_recovered;
use crate::stops::work::{bring, is_brought, prepare};
use crate::{damage, databases, held_readings, laws, refused_facts};
use sqlite::{Alter, Connection, Files};
use sqlite_disk::{Fuse, Memory};
use std::alloc::Global;
use std::process::Abort;

/// A task that a test runs over a database.
#[derive(Clone, Copy)]
pub(crate) enum Act {
    /// Creates a file of version 1 for a test.
    Prepare,
    /// Opens a file of version 1, which upgrades it to version 3.
    Bring,
    /// Runs all steps of a test over a new store: the events of a script, and then a request.
    Play(Asked),
    /// Asserts which rows the file of version 1 has after a simulated crash during its upgrade. The
    /// number says how many steps of the upgrade had succeeded before the crash.
    Brought(usize),
    /// Asserts which rows the database file has after a simulated crash, given the test's request
    /// and how many steps of the test had succeeded before the crash.
    Played(Asked, usize),
    /// The variant `Damage` and the variants below it each run a test that begins with an empty
    /// database.
    Damage,
    Databases,
    HeldReadings,
    Ranges,
    RefusedFacts,
}

/// Runs a test's task over a database. Returns how many steps of the task succeeded, and the store.
fn act_over<S: Alter + Drop>(
    rt: &impl Abort,
    alloc: Global,
    connection: Connection<S>,
    act: Act,
) -> (usize, S) {
    match act {
        Act::Prepare => prepare(rt, connection),
        Act::Bring => bring(rt, connection),
        Act::Play(asked) => play(rt, alloc, connection, asked),
        Act::Brought(steps) => (0, is_brought(rt, connection, steps)),
        Act::Played(asked, steps) => (0, assert_recovered(rt, alloc, connection, asked, steps)),
        Act::Damage => (0, damage::failures_are_counted(rt, alloc, connection)),
        Act::Databases => (0, databases::each_is_handed_back(rt, alloc, connection)),
        Act::HeldReadings => (0, held_readings::they_are_handed_on(rt, alloc, connection)),
        Act::Ranges => (
            0,
            laws::files_and_ranges_have_their_days(rt, alloc, connection),
        ),
        Act::RefusedFacts => (0, refused_facts::they_leave_no_row(rt, alloc, connection)),
    }
}

/// Runs a test's task over the database in the given files. Returns how many steps of the task
/// succeeded, and the files.
pub(crate) fn act_in(
    rt: &impl Abort,
    alloc: Global,
    files: Files<Fuse<Memory>>,
    act: Act,
) -> (usize, Files<Fuse<Memory>>) {
    match connected(alloc, files) {
        Ok(connection) => {
            let (steps, store) = act_over(rt, alloc, connection, act);
            (steps, store.close())
        }
        Err(files) => {
            assert!(rt; matches!(act, Act::Bring | Act::Play(_)), "not opened");
            (0, files)
        }
    }
}

/// Returns the files of an empty database in memory. No call to these files fails.
pub(crate) fn empty_files(rt: &impl Abort, alloc: Global) -> Files<Fuse<Memory>> {
    let never = Stop {
        file: Stopping::Log,
        calls: u64::MAX,
        is_lost: true,
    };
    files(rt, alloc, b"", b"", never)
}

/// The tests that begin with an empty database.
static TESTS: [Act; 5] = [
    Act::Damage,
    Act::Databases,
    Act::HeldReadings,
    Act::Ranges,
    Act::RefusedFacts,
];

// Checks that a store counts its failed calls. Also checks that a caller that opens a database
// without the tables of a store gets the connection back. Also checks the fields of the rejected
// readings that queries return, the number of days in a time range, and that refused records leave
// no row.
#[test]
fn stores_keep_what_they_promise(rt: HostRuntime) {
    for act in &TESTS {
        let (_steps, _files) = act_in(&rt, rt.alloc(), empty_files(&rt, rt.alloc()), *act);
    }
}
