//! Passes the responses of the simulated devices to the program.
ghost use Rattle.std.specs.Prelude.{codes};
ghost use Rattle.script_run.specs.Looping.Answers.{AnswersPrint, FedPrints};
ghost use Rattle.script_run.specs.Looping.Standings.{Carries};
ghost use Rattle.sun_points.specs.Writing.{GotText};

use crate::looping::wires::MOST_TAKES;
use mb_wire::{Link, MAX_ADU, Took};
use memory_books::ListBooks;
use office_core::Office;
use office_events::{Event, Name, Piece};
use poll_core::Closing;
use script_text::{write_notes, write_refusal};
use std::alloc::{AllocError, Global};
use std::io::{self, Write};
use sun_points::Sink;

/// The result of a read from a device's connection to the simulator: bytes, or the end of the
/// connection.
#[derive(Drop)]
pub(crate) enum Came {
    Piece(Piece),
    /// The connection to the simulator ended.
    Over(Closing),
}

impl Came {
    ghost use Rattle.std.specs.Prelude.{◌≡◌};
    ghost use Rattle.script_run.specs.Looping.Answers.{fed};

    fn is_over(&self) -> bool {
        match self {
            Came::Piece(_) => false,
            Came::Over(_) => true,
        }
    }

    fn into_event(self, device: &Option<Name>) -> Event
        ensures { result ≡ fed device.now self }
    {
        match self {
            Came::Piece(piece) => Event::Bytes(*device, piece),
            Came::Over(closing) => Event::Gone(*device, closing),
        }
    }
}

// Reads once from the program's end of a device's connection. Returns `None` after a timeout.
fn next_came<L: Link>(alloc: Global, near: &mut L) -> Result<Option<Came>, AllocError> {
    let mut piece = [0; MAX_ADU];
    match near.take(&mut piece) {
        Ok(Took::Bytes(count)) => {
            let bytes = Vec::from_slice(alloc, &piece[..count])?;
            Ok(Some(Came::Piece(Piece::new(bytes))))
        }
        Ok(Took::Idle) => Ok(None),
        Ok(Took::End) => Ok(Some(Came::Over(Closing::Gone))),
        Err(_) => Ok(Some(Came::Over(Closing::Failed))),
    }
}

// Passes an event to the program (`Office`), and prints the notifications or the refusal. Returns
// whether the event was accepted.
fn feed<W: Write>(
    office: &mut Office<ListBooks>,
    at: u64,
    event: &Event,
    output: &mut W,
) -> io::Result<bool>
    ensures { Carries result
        (λ accepted now printed next. FedPrints now at event.now accepted printed next)
        office.old office.new (W.contents output.old) (W.contents output.new) }
{
    match office.feed(at, event) {
        Ok(_) => match write_notes(office.notes(), output) {
            Ok(()) => Ok(true),
            Err(error) => Err(error),
        },
        Err(why) => match write_refusal(why, output) {
            Ok(()) => Ok(false),
            Err(error) => Err(error),
        },
    }
}

/// Passes everything that arrives on a device's connection to the program (`Office`), until a read
/// times out. Prints the notifications and `ok`, or the first refusal. Returns whether the
/// connection stays open.
pub(crate) fn feed_answers<L: Link, W: Write>(
    alloc: Global,
    office: &mut Office<ListBooks>,
    at: u64,
    device: &Option<Name>,
    near: &mut L,
    output: &mut W,
) -> io::Result<bool>
    ensures { Carries result
        (λ stays now printed next. AnswersPrint device.now at now printed next)
        office.old office.new (W.contents output.old) (W.contents output.new) }
{
    for _take in 0..MOST_TAKES {
        let Some(came) = next_came(alloc, near)? else {
            return end_well(true, output);
        };
        let over = came.is_over();
        let accepted = feed(office, at, &came.into_event(device), output)?;
        if !accepted {
            return Ok(!over);
        }
        if over {
            return end_well(false, output);
        }
    }
    end_well(true, output)
}

// Prints `ok`, and returns `stays`, which is true if the connection to the simulator stays open.
fn end_well<W: Write>(stays: bool, output: &mut W) -> io::Result<bool>
    ensures { GotText result (codes "ok\n") (W.contents output.old) (W.contents output.new) }
{
    match write_ok(output) {
        Ok(()) => Ok(stays),
        Err(error) => Err(error),
    }
}

pub(crate) fn write_ok<W: Write>(output: &mut W) -> io::Result<()>
    ensures { GotText result (codes "ok\n") (W.contents output.old) (W.contents output.new) }
{
    output.take_text(b"ok\n")
}
