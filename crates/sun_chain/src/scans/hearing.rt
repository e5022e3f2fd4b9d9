//! Waits for a device's response to a read request.
ghost use Rattle.std.specs.Prelude.{◌≡◌, ◌≤◌, ◌<◌, ◌+◌, ◌-◌, ◌^◌, ◌++◌, length, true, false, Err, Ok, IfOk, IsOk, IfSome};
ghost use Rattle.std.specs.Option.{option_map};
ghost use Rattle.mb_wire.specs.Bytes.{words_of};
ghost use Rattle.mb_wire.specs.Frames.{IsBad, IsOpen, IsOwn, frames, rest};
ghost use Rattle.mb_wire.specs.Links.{risen};
ghost use Rattle.mb_wire.specs.Reader.{spelled};
ghost use Rattle.mb_wire.specs.Replies.{read_as};
ghost use Rattle.std.specs.Io.KnownBytes.{Keeps};
ghost use Rattle.sun_chain.specs.Scanning.Answers.{ask_of, brought, first_of, frames_held, seen, settled};
ghost use Rattle.sun_chain.specs.Scanning.Answers.{words_in, words_seen};
ghost use Rattle.sun_chain.specs.Scanning.Lines.{Garbles, HearsAnswer, HearsTurn, IsIdle, has_failed, is_gone};

use crate::scans::fault::ScanFault;
use crate::scans::tries::Try;
use crate::scans::words::words_of_bytes;
use mb_wire::{
    Frame, FrameReader, Framing, Link, LinkFailed, MAX_ADU, Reply, ReplyFault, Took, decode_reply,
};
use std::alloc::{AllocError, Global};

/// The maximum number of reads of the link to the device while waiting for one response.
pub const MOST_TAKES: u64 = 1000;

/// The registers in a device's response, or `None` if the response has none.
pub(crate) type Answer = Option<Vec<u16>>;

/// The result of one read of the link to the device while waiting for a response.
#[derive(Drop)]
pub(crate) enum Turn {
    /// The read of the link to the device timed out.
    Idle,
    /// Bytes arrived, but no complete response to the request.
    More,
    /// The response to the request arrived, with or without registers.
    Settled(Answer),
}

fn registers<'a>(read: Result<Reply<'a>, ReplyFault>) -> Option<&'a [u8]>
    ensures { option_map (λ bytes. words_of bytes.now) result ≡ brought (read_as read.entry) }
{
    match read {
        Ok(Reply::Words(bytes)) => Some(bytes),
        Ok(Reply::Bits { .. }) => None,
        Ok(Reply::Echo) => None,
        Ok(Reply::Exception(_)) => None,
        Err(_) => None,
    }
}

// Returns the registers in a response frame. A response from another unit has none.
fn answer(alloc: Global, frame: &Frame<'_>, attempt: &Try) -> Result<Answer, AllocError>
    ensures { IfOk result
        (λ answer. words_seen answer ≡ words_in (ask_of attempt.now) (spelled frame.now)) }
{
    if frame.unit != attempt.unit {
        return Ok(None);
    }
    match registers(decode_reply(&attempt.span.request(), frame.pdu)) {
        Some(bytes) => Ok(Some(words_of_bytes(alloc, bytes)?)),
        None => Ok(None),
    }
}

// Returns the response to the request after one more frame arrived, or `None` if no response has
// arrived yet. If `heard` is a response, the new frame does not replace it.
fn settle_by_frame(
    alloc: Global,
    reader: &FrameReader,
    attempt: &Try,
    heard: Option<Answer>,
) -> Result<Option<Answer>, AllocError>
    requires { IfSome reader.now.frame IsOwn }
    ensures { IfOk result (λ later. seen later ≡ first_of (seen heard)
        (settled (ask_of attempt.now) (frames_held reader.now.frame))) }
{
    match heard {
        Some(answer) => Ok(Some(answer)),
        None => settle_by_held_frame(alloc, reader, attempt),
    }
}

fn settle_by_held_frame(
    alloc: Global,
    reader: &FrameReader,
    attempt: &Try,
) -> Result<Option<Answer>, AllocError>
    requires { IfSome reader.now.frame IsOwn }
    ensures { IfOk result (λ heard.
        seen heard ≡ settled (ask_of attempt.now) (frames_held reader.now.frame)) }
{
    let Some(frame) = reader.frame() else {
        return Ok(None);
    };
    if frame.tid != attempt.id {
        return Ok(None);
    }
    Ok(Some(answer(alloc, &frame, attempt)?))
}

// Returns the response to the request after one more chunk of bytes arrived, or `None` if no
// response has arrived yet. If `heard` is a response, the frames of the chunk do not replace it.
fn hear_piece(
    alloc: Global,
    reader: &mut FrameReader,
    attempt: &Try,
    heard: Option<Answer>,
    piece: &[u8],
) -> Result<Option<Answer>, ScanFault>
    ensures heard { IfOk result (λ later. seen later ≡ first_of (seen heard)
        (settled (ask_of attempt.now) (frames (reader.old.rest ++ piece.now)))) }
    ensures rest { IfOk result (λ later. reader.new.rest ≡ rest (reader.old.rest ++ piece.now)) }
    ensures open { IfOk result (λ later. IsOpen reader.new.rest) }
    ensures garbled { result ≡ Err ScanFault.Garbled → IsBad (rest (reader.old.rest ++ piece.now)) }
    ensures failed { has_failed result ≡ false }
    ensures gone { is_gone result ≡ false }
{
    let fed = reader.feed(piece);
    let Ok(later) = settle_by_frame(alloc, reader, attempt, heard) else {
        return Err(ScanFault::Memory);
    };
    match fed.what {
        Framing::Need => Ok(later),
        Framing::Garbled => Err(ScanFault::Garbled),
        Framing::Whole | Framing::Foreign => {
            hear_piece(alloc, reader, attempt, later, &piece[fed.taken..])
        }
    }
}

fn hear_turn<L: Link>(
    alloc: Global,
    link: &mut L,
    reader: &mut FrameReader,
    attempt: &Try,
) -> Result<Turn, ScanFault>
    requires { IsOpen reader.old.rest }
    ensures heard { IfOk result (HearsTurn (ask_of attempt.now)
        (L.remaining link.old) (L.remaining link.new) reader.old.rest reader.new.rest) }
    ensures garbled { result ≡ Err ScanFault.Garbled
        → Garbles (L.remaining link.old) (L.remaining link.new) reader.old.rest }
    ensures given { Keeps (L.given link.old) (L.given link.new) }
    ensures failures { L.failed link.new ≡ risen (has_failed result) (L.failed link.old) }
    ensures ends { L.ended link.new ≡ risen (is_gone result) (L.ended link.old) }
    ensures takes { L.taken link.new ≡ risen true (L.taken link.old) }
    ensures idle { result ≡ Ok Turn.Idle → IsIdle (L.last link.new) }
{
    let mut piece = [0; MAX_ADU];
    match link.take(&mut piece) {
        Ok(Took::Bytes(count)) => match hear_piece(alloc, reader, attempt, None, &piece[..count]) {
            Ok(Some(answer)) => Ok(Turn::Settled(answer)),
            Ok(None) => Ok(Turn::More),
            Err(fault) => Err(fault),
        },
        Ok(Took::Idle) => Ok(Turn::Idle),
        Ok(Took::End) => Err(ScanFault::Gone),
        Err(LinkFailed) => Err(ScanFault::Failed),
    }
}

/// Reads the link to the device until the response to the request arrives or a read times out, at
/// most `MOST_TAKES` times. Returns the registers in the response, or `None`.
pub(crate) fn hear<L: Link>(
    alloc: Global,
    link: &mut L,
    reader: &mut FrameReader,
    attempt: &Try,
) -> Result<Answer, ScanFault>
    requires { IsOpen reader.old.rest }
    ensures heard { IfOk result (λ answer. HearsAnswer (ask_of attempt.now)
        (L.remaining link.old) (L.remaining link.new) reader.old.rest reader.new.rest
        (words_seen answer)) }
    ensures garbled { result ≡ Err ScanFault.Garbled
        → Garbles (L.remaining link.old) (L.remaining link.new) reader.old.rest }
    ensures given { Keeps (L.given link.old) (L.given link.new) }
    ensures failures { L.failed link.new ≡ risen (has_failed result) (L.failed link.old) }
    ensures ends { L.ended link.new ≡ risen (is_gone result) (L.ended link.old) }
    ensures takes { L.taken link.new ≤ L.taken link.old + MOST_TAKES }
    ensures listens { IsOk result → L.taken link.old < 2 ^ 64 - 1
        → L.taken link.old < L.taken link.new }
{
    for _turn in 0..MOST_TAKES {
        match hear_turn(alloc, link, reader, attempt) {
            Ok(Turn::Settled(answer)) => return Ok(answer),
            Ok(Turn::Idle) => return Ok(None),
            Ok(Turn::More) => {}
            Err(fault) => return Err(fault),
        }
    }
    Ok(None)
}
