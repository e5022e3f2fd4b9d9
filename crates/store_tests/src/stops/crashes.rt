//! Tests crashes of the machine at each call to the write-ahead log and to the database file.
use crate::acts::{Act, act_in, empty_files};
use crate::stops::asked::Asked;
use crate::stops::files::{Stop, Stopping, files, restarted};
use sqlite::Files;
use sqlite_disk::{Fuse, Memory};
use std::alloc::Global;
use std::process::Abort;

/// A task that the test interrupts by crashes, with its number of steps. For each number of steps
/// in `after`, the test must have a crash at which exactly this many steps had succeeded. The task
/// makes more than `calls` calls to the write-ahead log.
struct Case {
    act: Act,
    steps: usize,
    after: &'static [usize],
    calls: usize,
}

// The tasks that the test interrupts by crashes. In the last two tasks, the first step creates the
// tables, and the fifth step connects the device and records nothing.
static CASES: [Case; 3] = [
    Case {
        act: Act::Bring,
        steps: 1,
        after: &[0],
        calls: 5,
    },
    Case {
        act: Act::Play(Asked::Exchange),
        steps: 8,
        after: &[0, 1, 2, 3, 5, 6, 7],
        calls: 30,
    },
    Case {
        act: Act::Play(Asked::Void),
        steps: 8,
        after: &[0, 1, 2, 3, 5, 6, 7],
        calls: 30,
    },
];

/// Returns the database files in their state before a test's task begins.
fn given(rt: &impl Abort, alloc: Global, act: Act) -> Files<Fuse<Memory>> {
    let empty = empty_files(rt, alloc);
    match act {
        Act::Bring => {
            let (_steps, old) = act_in(rt, alloc, empty, Act::Prepare);
            old
        }
        _ => empty,
    }
}

/// Runs a task with a crash, and asserts which rows the files have afterwards. Returns how many
/// steps of the task succeeded before the crash.
fn stopped(
    rt: &impl Abort,
    alloc: Global,
    given: &Files<Fuse<Memory>>,
    act: Act,
    stop: Stop,
) -> usize {
    let (log, db) = (given.log.inner().bytes(), given.db.inner().bytes());
    let (steps, files) = act_in(rt, alloc, files(rt, alloc, log, db, stop), act);
    let after = match act {
        Act::Play(asked) => Act::Played(asked, steps),
        _ => Act::Brought(steps),
    };
    let (_, _files) = act_in(rt, alloc, restarted(rt, alloc, files, stop.is_lost), after);
    steps
}

/// Repeats a task with a crash at each call to a file, until the task ends without a crash. Returns
/// how many steps of the task succeeded before each crash.
fn stop_each(
    rt: &impl Abort,
    alloc: Global,
    case: &Case,
    file: Stopping,
    is_lost: bool,
) -> Vec<usize> {
    let given = given(rt, alloc, case.act);
    let mut stops = Vec::new(alloc);
    for calls in 0..1000 {
        let stop = Stop {
            file,
            calls,
            is_lost,
        };
        let steps = stopped(rt, alloc, &given, case.act, stop);
        if steps == case.steps {
            return stops;
        }
        stops.push(steps).expect(rt, "no memory");
    }
    panic!(rt; "it stops each time")
}

/// Returns true if, for each number of steps in `after`, some crash occurred when exactly this many
/// steps of the task had succeeded.
fn each_came_up(after: &[usize], stops: &[usize]) -> bool {
    for steps in after {
        if !stops.contains(steps) {
            return false;
        }
    }
    true
}

/// Repeats a task with a crash at each call to each file. In the first series of crashes, data that
/// was not synced is lost. In the second series, this data is in the file.
fn stop_all(rt: &impl Abort, alloc: Global, case: &Case) {
    for is_lost in [true, false] {
        let of_log = stop_each(rt, alloc, case, Stopping::Log, is_lost);
        assert!(rt; case.calls < of_log.len() && each_came_up(case.after, &of_log));
        let of_database = stop_each(rt, alloc, case, Stopping::Database, is_lost);
        assert!(rt; 5 < of_database.len());
    }
}

// Checks that a crash leaves the file either without the change in progress, or with all of it.
// Every acknowledged change is in the file.
#[test]
fn what_was_acknowledged_is_kept(rt: HostRuntime) {
    for case in &CASES {
        stop_all(&rt, rt.alloc(), case);
    }
}
