//! Tests messages that are printed only once, and a log queue whose reader is too slow.
use office_events::Name;
use run_http::status::{LineQueue, Reported, ReportedNumber, Topic};

fn refused(name: &[u8], number: u8) -> ReportedNumber {
    ReportedNumber {
        topic: Topic::Round,
        name: Name::new(name),
        number,
    }
}

fn held(name: &[u8], number: u8) -> ReportedNumber {
    ReportedNumber {
        topic: Topic::Meter,
        name: Name::new(name),
        number,
    }
}

/// Tests that a refusal is reported once for each device. It is reported again after a different
/// refusal of the device, or after its entry was deleted from the list of reported error numbers.
#[test]
fn a_number_is_reported_once_until_it_changes(rt: HostRuntime) {
    let mut reported = Reported::new(rt.alloc());
    let cases = [
        (refused(b"inv", 1), true),
        (refused(b"inv", 1), false),
        (held(b"inv", 1), true),
        (refused(b"two", 1), true),
        (refused(b"inv", 10), true),
        (refused(b"inv", 1), true),
        (held(b"inv", 1), false),
    ];
    for (number, is_reported) in cases {
        assert!(rt; reported.report_once(number) == is_reported);
    }
    reported.forget(Topic::Round, Name::new(b"inv"));
    assert!(rt; reported.report_once(refused(b"inv", 1)));
    assert!(rt; !reported.report_once(refused(b"two", 1)));
}

const FIRST: &[u8] = b"one\ntwo\n";

const DROPPED: &[u8] = b"1700000000 - dropped 3 lines\n";

/// If a log queue has no space for a line, the queue drops and counts the line. In this test the
/// queue is full with 65,536 bytes, and has no space until all of these bytes are written.
#[test]
fn lines_that_nobody_reads_are_counted(rt: HostRuntime) {
    let long = vec![in rt.alloc(); b'x'; 65_528].expect(&rt, "some room");
    let mut queue = LineQueue::new(rt.alloc());
    queue.push_lines(FIRST);
    queue.push_lines(&long);
    queue.push_lines(b"dropped\n");
    queue.push_lines(b"two more\ndropped\n");
    queue.append_dropped(1_699_999_999);
    assert!(rt; queue.waiting().len() == 65_536);
    assert!(rt; queue.waiting().starts_with(FIRST));
    queue.advance(65_536);
    queue.append_dropped(1_700_000_000);
    assert!(rt; queue.waiting() == DROPPED);
    queue.advance(11);
    queue.push_lines(FIRST);
    assert!(rt; queue.waiting() == b"- dropped 3 lines\none\ntwo\n".as_slice());
}
