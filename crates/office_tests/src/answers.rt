//! Tests that write answers and notifications (the printed results of events) to a failing writer.
//! In attempt N, call N to the writer fails.
use crate::streams::Kept;
use energy_core::Cause;
use office_events::{Answer, Name, Note};
use poll_core::Outcome;
use script_text::write_accepted;
use std::alloc::Global;
use std::process::Abort;

const STARTED: Answer = Answer::Started {
    first: 1,
    count: 1,
    of: 2,
};

// Returns the three kinds of notifications: the outcome of a poll, an accepted reading, and a
// rejected reading.
fn notes(rt: &impl Abort) -> [Note; 3] {
    let meter = Name::new(b"m1").expect(rt, "no name");
    let answered = Note::Outcome {
        poll: 1,
        outcome: Outcome::Answered,
    };
    let reading = Note::Reading {
        meter,
        raw: 5200,
        rolls: 0,
        step: 200_000,
    };
    let held = Note::Held {
        meter,
        raw: 4_294_967_295,
        cause: Cause::TooFast,
    };
    [answered, reading, held]
}

const WHOLE: &str = "\
    poll 1 answered\n\
    reading m1 5200 rolls 0 step 200000\n\
    held m1 4294967295 cause 6\n\
    started 1 1 2 00ff\n";

// Writes the output repeatedly, and asserts that each failing write is reported. In repetition N,
// write number N fails. The repetitions end when no write fails. Each write accepts at most `most`
// bytes. Returns the number of writes in the complete output.
fn assert_failing_writes(
    rt: &impl Abort,
    alloc: Global,
    notes: &[Note],
    frames: &[u8],
    most: usize,
    text: &str,
) -> usize {
    for failing in 1..80usize {
        let mut kept = Kept::new(alloc, failing, most);
        let ended = write_accepted(&STARTED, notes, frames, &mut kept);
        let whole = kept.assert_written(rt, text);
        assert!(rt; ended.is_ok() == whole, "{failing}");
        if whole {
            return failing.saturating_sub(1);
        }
    }
    panic!(rt; "a write fails each time")
}

/// A test case: request frames, the line that prints these frames in hex, and the number of writes
/// for this line if each write accepts at most 50 bytes.
struct Case {
    frames: &'static [u8],
    line: &'static str,
    calls: usize,
}

// Test cases with frames whose hex text needs several writes of at most 64 digits.
static CASES: [Case; 5] = [
    Case {
        frames: b"\x00\x00\x00\x00\x00\x06\x01\x03\x9c\x9e\x00\x03",
        line: "started 1 1 2 00000000000601039c9e0003\n",
        calls: 3,
    },
    Case {
        frames: b"abcdefghijklmnopqrstuvwxyz01234",
        line: "started 1 1 2 \
            6162636465666768696a6b6c6d6e6f707172737475767778797a3031323334\n",
        calls: 4,
    },
    Case {
        frames: b"abcdefghijklmnopqrstuvwxyz012345",
        line: "started 1 1 2 \
            6162636465666768696a6b6c6d6e6f707172737475767778797a303132333435\n",
        calls: 4,
    },
    Case {
        frames: b"abcdefghijklmnopqrstuvwxyz0123456",
        line: "started 1 1 2 \
            6162636465666768696a6b6c6d6e6f707172737475767778797a30313233343536\n",
        calls: 5,
    },
    Case {
        frames: b"abcdefghijklmnopqrstuvwxyz0123456789abcdefghijklmnopqrstuvwxyz012",
        line: "started 1 1 2 \
            6162636465666768696a6b6c6d6e6f707172737475767778797a303132333435\
            36373839\
            6162636465666768696a6b6c6d6e6f707172737475767778797a303132\n",
        calls: 7,
    },
];

// Every failed write of an event's notifications or of its answer is reported, and the
// notifications are written before the answer.
#[test]
fn each_failing_write_is_reported(rt: HostRuntime) {
    let notes = notes(&rt);
    let count = assert_failing_writes(&rt, rt.alloc(), &notes, b"\x00\xff", 2, WHOLE);
    assert!(rt; count < 79);
    for case in &CASES {
        let count = assert_failing_writes(&rt, rt.alloc(), &[], case.frames, 50, case.line);
        assert!(rt; count == case.calls, "{count}");
    }
}
