//! Tests how `sunreg run` assigns its 64 slots for HTTP connections to clients.
use run_schedule::{Admission, ClientSlots};

fn at(place: usize) -> Option<Admission> {
    Some(Admission {
        place,
        drops: false,
    })
}

// Returns 64 client connections that have not sent a request, opened one second apart.
fn full() -> ClientSlots {
    let mut client_slots = ClientSlots::new();
    for second in 0..64 {
        let _place = client_slots.admit(second, 10);
    }
    client_slots
}

/// A new client connection gets the first free one of the server's 64 slots (places for
/// connections).
#[test]
fn places_are_given_in_order(rt: HostRuntime) {
    let mut client_slots = ClientSlots::new();
    for place in 0..64 {
        assert!(rt; client_slots.admit(100, 10) == at(place));
    }
    client_slots.free_slot(7);
    assert!(rt; client_slots.admit(101, 10) == at(7));
}

/// If all 64 slots are occupied, a new client connection replaces the oldest connection that has
/// not sent a request.
#[test]
fn the_oldest_that_has_not_asked_makes_room(rt: HostRuntime) {
    let mut client_slots = full();
    client_slots.ask(0);
    for place in 1..4 {
        let drops = true;
        assert!(rt; client_slots.admit(64, 10) == Some(Admission { place, drops }));
    }
}

/// If all 64 slots are occupied and each connection has sent a request, then a new client
/// connection is rejected.
#[test]
fn none_makes_room_where_all_have_asked(rt: HostRuntime) {
    let mut client_slots = full();
    for place in 0..64 {
        client_slots.ask(place);
    }
    assert!(rt; client_slots.admit(64, 10) == None);
    client_slots.free_slot(63);
    assert!(rt; client_slots.admit(64, 10) == at(63));
}

/// A client connection times out after ten seconds in this test, with or without a request. A free
/// slot does not time out.
#[test]
fn a_silent_connection_lasts_ten_seconds(rt: HostRuntime) {
    let mut client_slots = full();
    assert!(rt; !client_slots.is_over(5, 14));
    assert!(rt; client_slots.is_over(5, 15));
    client_slots.ask(5);
    assert!(rt; client_slots.is_over(5, 15));
    client_slots.free_slot(5);
    assert!(rt; !client_slots.is_over(5, 1000));
}
