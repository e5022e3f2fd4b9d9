//! Tests meter entries by hand. The meter's last reading showed 5200 counts at 1900 s, and the
//! energy so far is 200 Wh.
use crate::terms::{PREVIOUS, booked, last};
use energy_core::{Acc32, Last, Step, TermFault, Terms, close, manual, rescale, reset};

type Answer = Result<(Last, Step), TermFault>;

const TERMS: Terms = Terms {
    ceiling: 100_000,
    total: 200_000,
};

const BY_HAND: Answer = booked!(last!(2000, 5300, 0), 1900, 100_000);

const OVER_A_TURN: Answer = booked!(last!(2000, 5100, 0), 1900, 4_294_967_196_000);

const AT_CLOSING: Answer = booked!(last!(2000, 5200, 0), 1900, 0);

const SET_TO_0: Answer = booked!(last!(2000, 0, 0), 1900, 50_000);

const AT_TEN_WATT_HOURS: Answer = booked!(last!(2000, 520, 1), 1900, 0);

/// Checks that a reading by hand is recorded as an entry.
#[test]
fn readings_by_hand_are_entries(rt: HostRuntime) {
    let answer = manual(&Acc32, &TERMS, &PREVIOUS, 2000, 5300, 0);
    assert!(rt; answer == BY_HAND);
    let answer = manual(&Acc32, &TERMS, &PREVIOUS, 2000, 5100, 1);
    assert!(rt; answer == OVER_A_TURN);
}

/// Checks that the reading at the closing of a meter is recorded as an entry.
#[test]
fn readings_at_closing_are_entries(rt: HostRuntime) {
    let answer = close(&Acc32, &TERMS, &PREVIOUS, 2000, 5200, 0);
    assert!(rt; answer == AT_CLOSING);
    let answer = close(&Acc32, &TERMS, &PREVIOUS, 2000, 5199, 0);
    assert!(rt; answer == Err(TermFault::NegativeStep));
}

/// Checks that a reset and a rescale are recorded as entries.
#[test]
fn resets_and_rescales_are_entries(rt: HostRuntime) {
    let answer = reset(&Acc32, &TERMS, &PREVIOUS, 2000, 5250, 0);
    assert!(rt; answer == SET_TO_0);
    let answer = rescale(&Acc32, &TERMS, &PREVIOUS, 2000, 5200, 520, 1);
    assert!(rt; answer == AT_TEN_WATT_HOURS);
}
