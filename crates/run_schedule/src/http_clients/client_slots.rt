//! The 64 slots of HTTP connections, and how a new connection gets a slot.
use crate::http_clients::choice::choose_slot;
use crate::http_clients::place::Place;

/// The maximum number of HTTP connections that are open at the same time.
pub const MOST_CLIENTS: usize = 64;

/// The HTTP connection slot that a new connection got.
#[derive(Clone, Copy, PartialEq, Eq)]
pub struct Admission {
    pub place: usize,
    /// Whether the slot had an idle HTTP connection before the new one. The caller must close the
    /// idle connection.
    pub drops: bool,
}

/// The slots of the HTTP connections that are open at the same time.
#[derive(Drop)]
pub struct ClientSlots {
    pub places: [Place; 64],
}

impl ClientSlots {
    ghost use Rattle.std.specs.Prelude.{◌≡◌, ◌-◌, ◌+◌, ◌^◌, ◌<◌, min, slice_set, replicate};
    ghost use Rattle.run_schedule.specs.HttpClients.Places as places;
    ghost use Rattle.run_schedule.specs.HttpClients.Places.{Admits};

    /// Makes 64 free slots for HTTP connections.
    pub fn new() -> ClientSlots
        ensures { result.places ≡ replicate 64 Place.Free }
    {
        ClientSlots {
            places: [Place::Free; 64],
        }
    }

    /// Assigns a slot to a new HTTP connection, whose deadline is `seconds` after `now`. The slot
    /// is free or has an idle connection; without such a slot the result is `None`.
    pub fn admit(&mut self, now: u64, seconds: u64) -> Option<Admission>
        ensures { Admits (min (now + seconds) (2 ^ 64 - 1)) self.old.places self.new.places result }
    {
        let place = choose_slot(&self.places)?;
        if place >= MOST_CLIENTS {
            return None;
        }
        let drops = !self.places[place].is_free();
        self.places[place] = Place::Silent(now.saturating_add(seconds));
        Some(Admission { place, drops })
    }

    /// Records that the client in slot `place` (the index of its HTTP connection) has sent its
    /// request.
    pub fn ask(&mut self, place: usize)
        requires { place < 64 }
        ensures { self.new.places ≡ places.asked_at place self.old.places }
    {
        self.places[place] = self.places[place].asked();
    }

    /// Records that the client in a slot got its response. The HTTP connection becomes idle with
    /// the deadline `until`, and a new connection may replace it.
    pub fn set_idle(&mut self, place: usize, until: u64)
        requires { place < 64 }
        ensures { self.new.places ≡ slice_set self.old.places place (Place.Silent until) }
    {
        self.places[place] = Place::Silent(until);
    }

    /// Frees the slot of an HTTP connection that has ended.
    pub fn free_slot(&mut self, place: usize)
        requires { place < 64 }
        ensures { self.new.places ≡ slice_set self.old.places place Place.Free }
    {
        self.places[place] = Place::Free;
    }

    /// Closes a slot to new connections. The slot then looks like an HTTP connection that waits for
    /// its response without a deadline.
    pub fn shut(&mut self, place: usize)
        requires { place < 64 }
        ensures { self.new.places ≡ slice_set self.old.places place (Place.Asked (2 ^ 64 - 1)) }
    {
        self.places[place] = Place::Asked(u64::MAX);
    }

    /// Returns whether the deadline of the HTTP connection in a slot has passed.
    pub fn is_over(&self, place: usize, now: u64) -> bool
        requires { place < 64 }
        ensures { result ≡ places.is_over_at place now self.now.places }
    {
        self.places[place].is_over(now)
    }
}
