//! Reads from a client's connection until the head of a request, and then its body, is complete.
ghost use Rattle.std.specs.Prelude.{◌≡◌, ◌≤◌, ◌<◌, OnOk, length};
ghost use Rattle.std.specs.Io.KnownBytes.{Keeps};
ghost use Rattle.mb_wire.specs.Links.{risen};
ghost use Rattle.office_http.specs.Messages.Reading.Taking.{CountsTakes, EndedBy, bytes_in, is_read_fault, room_of};
ghost use Rattle.office_http.specs.Messages.Reading.HeadAndBody.{ReadsHead, ReadsUpTo, StopsAtOnce};
ghost use Rattle.office_http.specs.Messages.Head.Heads.{IsOpenHead};

use crate::messages::head::{HeadState, parse_head};
use crate::messages::reading::inbox::{Inbox, TakeFault};
use mb_wire::Link;

/// Reads from a client's connection until the buffer has a complete or an invalid request head. The
/// returned state is never `Open` (an incomplete head). Fails if a read fails, the input ends, or
/// the buffer has made 100,000 reads.
pub fn read_head<L: Link>(inbox: &mut Inbox<'_>, link: &mut L) -> Result<HeadState, TakeFault>
    requires { 8192 ≤ room_of inbox.old }
    ensures reads { ReadsHead result (bytes_in inbox.old) (bytes_in inbox.new)
        (L.remaining link.old) (L.remaining link.new) }
    ensures takes { CountsTakes result inbox.old inbox.new (L.taken link.old) (L.taken link.new) }
    ensures last { EndedBy result (L.last link.new) }
    ensures stops { OnOk result
        (StopsAtOnce IsOpenHead inbox.old inbox.new (L.last link.old) (L.last link.new)) }
    ensures given { Keeps (L.given link.old) (L.given link.new) }
    ensures failures { L.failed link.new ≡ risen (is_read_fault result) (L.failed link.old) }
{
    'takes: loop {
        let head_state = parse_head(inbox.bytes());
        if !head_state.is_open() {
            return Ok(head_state);
        }
        inbox.take_more(link)?;
    }
}

/// Reads from a client's connection until the buffer has `count` bytes in all. Fails if a read
/// fails, the input ends, or the buffer has made 100,000 reads.
pub fn read_body<L: Link>(
    inbox: &mut Inbox<'_>,
    link: &mut L,
    count: usize,
) -> Result<(), TakeFault>
    requires { count ≤ room_of inbox.old }
    ensures reads { ReadsUpTo count result (bytes_in inbox.old) (bytes_in inbox.new)
        (L.remaining link.old) (L.remaining link.new) }
    ensures takes { CountsTakes result inbox.old inbox.new (L.taken link.old) (L.taken link.new) }
    ensures last { EndedBy result (L.last link.new) }
    ensures stops { OnOk result (StopsAtOnce (λ bytes. length bytes < count)
        inbox.old inbox.new (L.last link.old) (L.last link.new)) }
    ensures given { Keeps (L.given link.old) (L.given link.new) }
    ensures failures { L.failed link.new ≡ risen (is_read_fault result) (L.failed link.old) }
{
    'takes: loop {
        if inbox.bytes().len() >= count {
            return Ok(());
        }
        inbox.take_more(link)?;
    }
}
