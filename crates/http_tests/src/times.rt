//! Tests of the program's own time, which advances with the monotonic clock.
use run_schedule::RunTime;

// Test cases: a reading of the monotonic clock in ms, the program's resulting time in s, and the ms
// until the program's next second. The program began at 1,000.999 s, when the monotonic clock
// showed 50 s.
static READ: [(u64, u64, u64); 6] = [
    (50_000, 1000, 1),
    (50_001, 1001, 1000),
    (51_500, 1002, 501),
    (0, 1002, 501),
    (3_651_000, 4601, 1),
    (3_651_000, 4601, 1),
];

// The program's time advances with the monotonic clock, and never goes back.
#[test]
fn a_run_goes_on_evenly(rt: HostRuntime) {
    let mut time = RunTime::new(1_000_999, 50_000);
    assert!(rt; time.seconds() == 1000);
    for (even, seconds, left) in &READ {
        time.read(*even);
        assert!(rt; time.seconds() == *seconds, "{even}");
        assert!(rt; time.to_next_second() == *left, "{even}");
    }
}
