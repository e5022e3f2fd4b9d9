//! Tests that names are equal if their texts are equal, and that copies equal their originals. Also
//! tests that timeouts and windows (limits on pending polls) return the numbers from which they
//! were created.
use crate::offices::{LIST, name_of, planned};
use office_events::{Piece, Timeout, Window};
use read_plan::lists_are_planned_once;

/// Two names are equal if and only if their texts are equal.
#[test]
fn a_name_is_its_text(rt: HostRuntime) {
    let name = name_of(&rt, b"m1");
    assert!(rt; name.as_bytes() == b"m1".as_slice());
    assert!(rt; name.is(&name));
    assert!(rt; !name.is(&name_of(&rt, b"m2")));
}

/// A timeout and a window (a limit on pending polls) return the numbers from which they were
/// created.
#[test]
fn a_timeout_and_a_window_are_their_numbers(rt: HostRuntime) {
    let (timeout, window) = (Timeout::new(60), Window::new(16));
    assert!(rt; timeout.expect(&rt, "a timeout").seconds() == 60);
    assert!(rt; window.expect(&rt, "a window").polls() == 16);
}

/// A copy of bytes or of a planned point list is equal to the original.
#[test]
fn copies_are_the_same(rt: HostRuntime) {
    let bytes = b"abc".to_vec(rt.alloc()).expect(&rt, "bytes");
    let copy = Piece::new(bytes).clone().expect(&rt, "a copy");
    assert!(rt; copy.as_slice() == b"abc".as_slice());
    lists_are_planned_once();
    let list = planned(&rt, rt.alloc(), LIST);
    let copy = list.clone().expect(&rt, "a copy");
    assert!(rt; copy.points().len() == 3);
    assert!(rt; copy.reads() == list.reads());
}
