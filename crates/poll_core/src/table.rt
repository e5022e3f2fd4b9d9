//! Searches the table of a polling session's pending polls, and removes completed polls from it.
ghost use Rattle.std.specs.Prelude.{◌≡◌, ℕ, ◌+◌, ◌≤◌, ◌<◌, List, length, take, true, false, ◌%◌};
ghost use Rattle.std.specs.Prelude.{IsSome, Option};
ghost use Rattle.std.specs.List.{list_any};
ghost use Rattle.mb_wire.specs.Frames.{IsOwn, is_bad};
ghost use Rattle.poll_core.specs.Polls.{due, has_id};
ghost use Rattle.poll_core.specs.Steps.{AreApart, TakesOut, ReportsOwed, FindsFirst, FindsBy, Finds};
ghost use Rattle.poll_core.specs.Steps.{OneLess, CanTell};

use crate::limits::MAX_WINDOW;
use crate::outcome::LostCause;
use crate::poll::{PendingPoll, SettledBy, SettledPoll};
use arrayvec::ArrayVec;
use mb_wire::{FrameReader, Framing};

pub type Table = ArrayVec<PendingPoll, MAX_WINDOW>;

// Returns the index of the first poll whose deadline is at or before the time `moment`, or `None`.
fn first_due(polls: &[PendingPoll], moment: u64) -> Option<usize>
    ensures { FindsFirst (due moment) polls.now result }
{
    for (i, poll) in polls.iter().enumerate() {
        if poll.is_due(moment) {
            return Some(i);
        }
    }
    None
}

// Returns the index of the poll with the transaction identifier `id`, or `None`.
fn first_with_id(polls: &[PendingPoll], id: u16) -> Option<usize>
    ensures { FindsFirst (has_id id) polls.now result }
{
    for (i, poll) in polls.iter().enumerate() {
        if poll.has_id(id) {
            return Some(i);
        }
    }
    None
}

/// Returns the number of consecutive transaction identifiers, from `next`, that no pending poll
/// uses, at most `room`.
pub fn free_ids(polls: &[PendingPoll], next: u16, room: usize) -> usize
    requires { room ≤ MAX_WINDOW }
    ensures room { result ≤ room }
    ensures free { (k : ℕ) → k < result → list_any (has_id ((next + k) % 65536)) polls.now ≡ false }
    ensures busy { result < room → list_any (has_id ((next + result) % 65536)) polls.now ≡ true }
{
    for k in 0..room {
        if has_poll(polls, next.wrapping_add(k as u16)) {
            return k;
        }
    }
    room
}

/// Returns whether a pending poll has the transaction identifier `id`.
pub fn has_poll(polls: &[PendingPoll], id: u16) -> bool
    ensures { result ≡ list_any (has_id id) polls.now }
{
    polls.iter().any(|poll| poll.has_id(id))
}

// Removes and returns the first poll whose deadline is at or before the time `moment`, if any.
pub fn take_due(polls: &mut Table, moment: u64) -> Option<PendingPoll>
    ensures taken { TakesOut (due moment) polls.old.items result polls.new.items }
    ensures apart { AreApart polls.old.items → AreApart polls.new.items }
{
    match first_due(polls.as_slice(), moment) {
        Some(i) => Some(polls.remove(i)),
        None => None,
    }
}

// Removes and returns the poll with the transaction identifier `id`, if any.
pub fn take_by_id(polls: &mut Table, id: u16) -> Option<PendingPoll>
    ensures taken { TakesOut (has_id id) polls.old.items result polls.new.items }
    ensures apart { AreApart polls.old.items → AreApart polls.new.items }
{
    match first_with_id(polls.as_slice(), id) {
        Some(i) => Some(polls.remove(i)),
        None => None,
    }
}

// Removes and returns the first poll that has timed out. If no poll has timed out and the polling
// session ended, removes and returns the first poll as lost.
pub fn take_owed(polls: &mut Table, ending: Option<LostCause>, moment: u64) -> Option<SettledPoll>
    ensures reported { ReportsOwed moment ending polls.old.items result polls.new.items }
    ensures by_itself { (frame : Option (List ℕ)) → CanTell result frame }
    ensures apart { AreApart polls.old.items → AreApart polls.new.items }
{
    if let Some(poll) = take_due(polls, moment) {
        return Some(SettledPoll {
            poll,
            by: SettledBy::Silence,
        });
    }
    match ending {
        None => None,
        Some(cause) => {
            if polls.is_empty() {
                return None;
            }
            Some(SettledPoll {
                poll: polls.remove(0),
                by: SettledBy::End(cause),
            })
        }
    }
}

// Removes and returns the pending poll with the transaction identifier of the frame in the frame
// reader. Returns `None` if no pending poll has this identifier.
fn take_framed(reader: &FrameReader, polls: &mut Table) -> Option<PendingPoll>
    requires buffered { IsSome reader.now.frame }
    requires apart { AreApart polls.old.items }
    ensures apart { AreApart polls.new.items }
    ensures less { OneLess polls.old.items result polls.new.items }
    ensures found { (frame : List ℕ) → reader.now.frame ≡ Some frame → IsOwn frame
        → FindsBy frame polls.old.items result polls.new.items }
{
    let Some(frame) = reader.frame() else {
        unreachable!()
    };
    take_by_id(polls, frame.tid)
}

/// The result of `feed_until`, which feeds a chunk to the frame reader. It has the number of bytes
/// consumed, whether these bytes end with an invalid length field, and the poll that a frame
/// completed, if any.
#[derive(Drop)]
pub struct Found {
    pub taken: usize,
    pub is_garbled: bool,
    pub poll: Option<PendingPoll>,
}

// Feeds the bytes `piece` to the frame reader, up to the first frame that completes a pending poll,
// and removes that poll from the table of pending polls.
pub fn feed_until(reader: &mut FrameReader, polls: &mut Table, piece: &[u8]) -> Found
    requires { AreApart polls.old.items }
    ensures apart { AreApart polls.new.items }
    ensures less { OneLess polls.old.items result.poll polls.new.items }
    ensures taken { result.taken ≤ length piece.now }
    ensures all { result.poll ≡ None → result.is_garbled ≡ false → result.taken ≡ length piece.now }
    ensures clean { IsSome result.poll → result.is_garbled ≡ false }
    ensures buffered { IsSome result.poll → IsSome reader.new.frame }
    ensures garbled { is_bad reader.new.rest ≡ result.is_garbled }
    ensures found { Finds reader.old.rest
        (take result.taken piece.now) polls.old.items result.poll reader.new polls.new.items }
{
    let mut at = 0;
    'feeds: loop {
        let fed = reader.feed(&piece[at..]);
        at += fed.taken;
        match fed.what {
            Framing::Need => {
                return Found {
                    taken: at,
                    is_garbled: false,
                    poll: None,
                };
            }
            Framing::Garbled => {
                return Found {
                    taken: at,
                    is_garbled: true,
                    poll: None,
                };
            }
            Framing::Foreign => {}
            Framing::Whole => {
                if let Some(poll) = take_framed(reader, polls) {
                    return Found {
                        taken: at,
                        is_garbled: false,
                        poll: Some(poll),
                    };
                }
            }
        }
    }
}
