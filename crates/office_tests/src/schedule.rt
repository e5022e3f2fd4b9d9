//! Tests when devices are due to be polled.
use run_schedule::{Phase, SteadyClock, Timing, next_due, next_pause, retry_at, round_until};

/// A device is due at multiples of its polling interval. The time 1,700,000,000 is 2023-11-14
/// 22:13:20 UTC, which is not a multiple of 900 seconds.
#[test]
fn a_device_is_due_at_multiples(rt: HostRuntime) {
    let cases = [
        (60, 0, 60),
        (60, 59, 60),
        (60, 60, 120),
        // Missed polls of a device are not made up for. The next poll is due at the next multiple
        // of the polling interval.
        (60, 187, 240),
        (1, 41, 42),
        (900, 1_700_000_000, 1_700_000_100),
        (86_400, 1_700_000_000, 1_700_006_400),
    ];
    for (every, now, due) in cases {
        if 0 < every && every < 100_000 && now < 2_000_000_000 {
            assert!(rt; next_due(every, now) == due);
        }
    }
}

/// The pauses between attempts to connect to a device double, up to a minute. A pause never ends
/// after the next time at which a polling round of the device is due.
#[test]
fn pauses_grow(rt: HostRuntime) {
    let mut pause = 0;
    for longer in [1, 2, 4, 8, 16, 32, 60, 60] {
        pause = next_pause(pause);
        assert!(rt; pause == longer);
    }
    assert!(rt; retry_at(100, 8, 120) == 108);
    assert!(rt; retry_at(100, 32, 120) == 120);
}

/// A polling round is allowed to take as long as its polling interval, and always at least a
/// minute.
#[test]
fn a_round_lasts_a_minute_at_least(rt: HostRuntime) {
    assert!(rt; round_until(10, 1000) == 1060);
    assert!(rt; round_until(900, 1000) == 1900);
}

/// A clock that was set back is reported once. In this test the clock is set back by 40 seconds and
/// then catches up.
#[test]
fn a_clock_that_is_set_back_is_reported_once(rt: HostRuntime) {
    let mut steady_clock = SteadyClock::new(1000);
    let cases = [
        (1001, 1001, None),
        (961, 1001, Some(40)),
        (962, 1001, None),
        (1002, 1002, None),
        (1000, 1002, Some(2)),
    ];
    for (now, moment, reported) in cases {
        let reading = steady_clock.read(now);
        assert!(rt; reading.moment == moment);
        assert!(rt; reading.set_back == reported);
        assert!(rt; reading.ahead_from == None);
    }
}

/// If the clock jumps ahead by more than a minute, the jump is reported. In this test the clock
/// jumps by a minute, by 61 seconds, and by an hour after it was set back.
#[test]
fn a_clock_that_goes_ahead_is_reported(rt: HostRuntime) {
    let mut steady_clock = SteadyClock::new(1000);
    let cases = [
        (1060, None),
        (1121, Some(1060)),
        (1122, None),
        (1000, None),
        (4722, Some(1122)),
    ];
    for (now, ahead_from) in cases {
        assert!(rt; steady_clock.read(now).ahead_from == ahead_from);
    }
}

/// Attempts to connect to a device are repeated after growing pauses, and each has a limit of five
/// seconds. In this test three attempts fail, and the fourth succeeds.
#[test]
fn a_device_is_tried_again(rt: HostRuntime) {
    let mut timing = Timing::new(60, 100);
    assert!(rt; !timing.is_due(119));
    assert!(rt; timing.is_due(120));
    for (now, again) in [(120, 121), (121, 123), (125, 129)] {
        if now < 1000 {
            timing.begin(now);
            assert!(rt; timing.is_over(now + 5));
            timing.fail(60, now);
            assert!(rt; timing.at == again);
        }
    }
    timing.begin_round(60, 129);
    assert!(rt; timing.phase == Phase::Polling);
    assert!(rt; timing.is_over(189));
    timing.rest(60, 130);
    assert!(rt; timing.at == 180);
}
