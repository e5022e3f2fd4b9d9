//! Tests a complete run of events: a device is polled, and the reading of its meter is recorded.
use crate::offices::event_of;
use crate::runs::run_created;
use interval_core::Zone;
use office_books::Books;
use office_core::{Run, run};
use office_events::{Answer, CommandKind, EndedPoll, Event, Name, Refusal};
use poll_core::{LostCause, Outcome};
use std::alloc::Global;
use std::process::Abort;

// The events of the tested run, each with its expected answer.
static EVENTS: [(&str, Result<Answer, Refusal>); 8] = [
    (
        "1000 device inv 1 5 1",
        Ok(Answer::Done(CommandKind::Device)),
    ),
    (
        "1000 register main inv 3 40094 @40096",
        Ok(Answer::Done(CommandKind::Register)),
    ),
    (
        "1000 install main m1 5000 0 100000",
        Ok(Answer::Done(CommandKind::Install)),
    ),
    ("1898 connect inv", Ok(Answer::Noted)),
    (
        "1898 start inv 3 40094 3",
        Ok(Answer::Started {
            first: 1,
            count: 1,
            of: 1,
        }),
    ),
    // The response of the device, which contains the count 5200 at the scale factor 0.
    (
        "1900 bytes inv 000000000009010306000014500000",
        Ok(Answer::Noted),
    ),
    ("1899 tick", Err(Refusal::ClockBack)),
    (
        "1901 start inv 3 40094 3",
        Ok(Answer::Started {
            first: 2,
            count: 1,
            of: 1,
        }),
    ),
];

fn events(rt: &impl Abort, alloc: Global) -> Vec<(u64, Event)> {
    let mut events = Vec::new(alloc);
    for (line, _) in &EVENTS {
        events.push(event_of(rt, alloc, *line)).expect(rt, "memory");
    }
    events
}

// Asserts that the events of the tested run have these answers, in order.
fn assert_answers(rt: &impl Abort, answers: &[Result<Answer, Refusal>]) {
    assert!(rt; answers.len() == EVENTS.len());
    for (answer, (line, expected)) in answers.iter().zip(&EVENTS) {
        assert!(rt; answer == expected, "{line}");
    }
}

// The expected outcome of the poll that is pending at the end of the tested run. When the store is
// opened again, this poll is lost.
const LOST: EndedPoll = EndedPoll {
    poll: 2,
    at: 1902,
    outcome: Outcome::Lost(LostCause::Restart),
};

// Asserts that the store of the tested run cannot be opened at a time before its latest event, but
// can be opened at a later time.
fn assert_opened_again<B: Books>(rt: &impl Abort, alloc: Global, books: B) {
    let (books, why) = run(alloc, books, 1900, &[]).err().expect(rt, "a refusal");
    assert!(rt; why == Refusal::ClockBack);
    let mut again = run(alloc, books, 1902, &[]).ok().expect(rt, "a run");
    let row = again.office.poll(2).ok().expect(rt, "a poll");
    assert!(rt; row.ended == Some(LOST));
}

fn assert_run<B: Books>(rt: &impl Abort, alloc: Global, mut done: Run<B>) {
    assert_answers(rt, &done.results);
    assert!(rt; done.office.outgoing().len() == 12);
    let meter = done
        .office
        .meter(&Name::new(b"m1"))
        .ok()
        .expect(rt, "a meter");
    assert!(rt; meter.last.raw == 5200 && meter.total == 200_000);
    assert_opened_again(rt, alloc, done.office.into_books());
}

/// Running a list of events returns the answer to each event. A poll that is pending at the end
/// gets the outcome `lost` when the store is opened again.
#[test]
fn a_run_keeps_each_answer(rt: HostRuntime) {
    let zone = Zone::read("UTC0").expect(&rt, "a zone");
    let events = events(&rt, rt.alloc());
    let done = run_created(rt.alloc(), zone, 0, &events)
        .ok()
        .expect(&rt, "a run");
    assert_run(&rt, rt.alloc(), done);
}
