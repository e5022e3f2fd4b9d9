//! Chooses the slot for a new HTTP connection: the first free slot, otherwise that of the idle
//! connection with the earliest deadline.
ghost use Rattle.std.specs.Prelude.{◌≡◌, position};
ghost use Rattle.std.specs.Option.{option_map};
ghost use Rattle.run_schedule.specs.HttpClients.Places as specs;
ghost use Rattle.run_schedule.specs.HttpClients.Places.{IsChosen, IsOldest};

use crate::http_clients::place::Place;

// Returns the idle HTTP connection with the earlier deadline: `best` or the connection in slot `i`.
// If slot `i` has no idle connection, returns `best`. The result and `best` are pairs of a slot and
// its deadline.
fn older(best: Option<(usize, u64)>, i: usize, place: Place) -> Option<(usize, u64)>
    ensures { result ≡ specs.older best i place }
{
    match (best, place) {
        (best, Place::Free) => best,
        (best, Place::Asked(_)) => best,
        (None, Place::Silent(until)) => Some((i, until)),
        (Some(best), Place::Silent(until)) => {
            if until < best.1 {
                Some((i, until))
            } else {
                Some(best)
            }
        }
    }
}

// Returns the slot and the deadline of the idle HTTP connection with the earliest deadline, or
// `None` if no connection is idle.
fn oldest_silent(places: &[Place]) -> Option<(usize, u64)>
    ensures { IsOldest places.now (option_map (λ best. best.0) result) }
{
    let mut oldest = None;
    for (i, place) in places.iter().enumerate() {
        oldest = older(oldest, i, *place);
    }
    oldest
}

fn first_free(places: &[Place]) -> Option<usize>
    ensures { result ≡ position specs.is_free places.now }
{
    places.iter().position(|place| place.is_free())
}

/// Returns the slot for a new HTTP connection: the first free slot, otherwise the slot of the idle
/// connection with the earliest deadline. Returns `None` if all connections wait for a response.
pub fn choose_slot(places: &[Place]) -> Option<usize>
    ensures { IsChosen places.now result }
{
    match first_free(places) {
        Some(place) => Some(place),
        None => match oldest_silent(places) {
            Some(oldest) => Some(oldest.0),
            None => None,
        },
    }
}
