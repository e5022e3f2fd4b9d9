//! Tests of inputs with megabytes of text, and of the number of writes for an output of many lines.
use crate::streams::{Kept, Slow, run};
use command_io::{ExitStatus, MOST_BYTES, ReadFault, read_whole};
use std::alloc::Global;
use std::process::Abort;

// Returns the given text, repeated `count` times.
fn repeated(rt: &impl Abort, alloc: Global, count: usize, text: &str) -> String {
    let mut all = String::new(alloc);
    for _line in 0..count {
        all.push_str(text).expect(rt, "no memory");
    }
    all
}

#[test]
fn no_more_reads_are_made_than_bytes_fit(rt: HostRuntime) {
    let mut text = repeated(&rt, rt.alloc(), MOST_BYTES, "\n");
    text.push_str("\n").expect(&rt, "no memory");
    let mut slow = Slow::whole(text.as_bytes());
    let fault = read_whole(rt.alloc(), &mut slow).err();
    assert!(rt; fault == Some(ReadFault::TooLong));
    assert!(rt; slow.calls == 4_194_305);
}

// Printing 2,000 answers of 10 bytes each takes few calls to the writer. Each call except the last
// ends with a complete line.
#[test]
fn whole_lines_are_given_out(rt: HostRuntime) {
    let text = repeated(&rt, rt.alloc(), 2000, "poll 1\n");
    let mut slow = Slow::whole(text.as_bytes());
    let ended = run(&rt, rt.alloc(), &mut slow, Kept::whole(rt.alloc()));
    assert!(rt; ended.status == ExitStatus::Fine);
    assert!(rt; ended.output.got.len() == 20_000);
    assert!(rt; ended.output.calls == 3);
}
