//! Tests the function that writes lines to an output without waiting until a reader has read them.
use office_running::write_without_waiting;

// Checks that `write_without_waiting` writes lines completely, although it does not wait until a
// reader has read them.
#[test]
fn what_nobody_waits_for_is_written_whole(rt: HostRuntime) {
    let mut written = Vec::new(rt.alloc());
    let lines: &[u8] = b"one\ntwo\n";
    assert!(rt; write_without_waiting(&rt, rt.alloc(), None, lines, &mut written).is_ok());
    assert!(rt; written.as_slice() == lines);
    assert!(rt; write_without_waiting(&rt, rt.alloc(), None, b"", &mut written).is_ok());
    assert!(rt; written.as_slice() == lines);
}
