//! Executes the lines of a loop (a script with simulated devices) that exchange data with the
//! simulator.
ghost use Rattle.std.specs.Prelude.{Bool};
ghost use Rattle.office_events.specs.declared.events.Event.TheVariants as event;
ghost use Rattle.script_run.specs.Looping.Answers.{AnswersPrint};
ghost use Rattle.script_run.specs.Looping.Standings.{Carries, loop_state};
ghost use Rattle.script_run.specs.Looping.TextRun.{StartRuns};
ghost use Rattle.script_run.specs.Replaying.Events.{EventPrints};

use crate::looping::answers::{feed_answers, write_ok};
use crate::looping::wires::{Connects, Wires};
use mb_device::Bank;
use mb_wire::Link;
use memory_books::ListBooks;
use office_core::Office;
use office_events::{Answer, Event, Name};
use script_text::{write_accepted, write_refusal};
use std::alloc::Global;
use std::io::{self, Write};

/// Starts a read or a round of reads. If the program (`Office`) accepts the start, the request
/// frames go to the simulated device, and the responses go back to the program.
pub(crate) fn start<L: Link + Drop, W: Write>(
    alloc: Global,
    office: &mut Office<ListBooks>,
    wires: &mut Wires<'_, L>,
    bank: &mut Bank,
    at: u64,
    device: &Option<Name>,
    event: &Event,
    output: &mut W,
) -> io::Result<()>
    ensures { (connected : Bool) → StartRuns result at device.now event.now
        (loop_state office.old bank.old connected (W.contents output.old))
        (loop_state office.new bank.new connected (W.contents output.new)) }
{
    match office.feed(at, event) {
        Ok(answer) => {
            write_accepted(&answer, office.notes(), office.outgoing(), output)?;
            wires.send(device, office.outgoing(), count_of(&answer), bank);
            feed_responses(alloc, office, wires, at, device, output)
        }
        Err(why) => write_refusal(why, output),
    }
}

fn count_of(answer: &Answer) -> u64 {
    match *answer {
        Answer::Started { count, .. } => count,
        Answer::Noted | Answer::Done(_) | Answer::Again(_) => 0,
    }
}

// Passes the responses on a device's connection to the program (`Office`). Does nothing without a
// connection.
fn feed_responses<L: Link + Drop, W: Write>(
    alloc: Global,
    office: &mut Office<ListBooks>,
    wires: &mut Wires<'_, L>,
    at: u64,
    device: &Option<Name>,
    output: &mut W,
) -> io::Result<()>
    ensures { Carries result
        (λ done now printed next. AnswersPrint device.now at now printed next)
        office.old office.new (W.contents output.old) (W.contents output.new) }
{
    match wires.place_of(device) {
        Some(place) => {
            let stays = feed_answers(alloc, office, at, device, wires.near(place), output)?;
            if !stays {
                wires.drop_wire(device);
            }
            Ok(())
        }
        None => write_ok(output),
    }
}

/// Connects a device: passes the event to the program (`Office`), and opens a connection from the
/// program to the simulator.
pub(crate) fn connect<C: Connects, W: Write>(
    office: &mut Office<ListBooks>,
    wires: &mut Wires<'_, C::End>,
    connects: &mut C,
    at: u64,
    device: &Option<Name>,
    output: &mut W,
) -> io::Result<()>
    ensures { Carries result
        (λ done now printed next. EventPrints now at (event.Connected device.now) printed next)
        office.old office.new (W.contents output.old) (W.contents output.new) }
{
    match office.feed(at, &Event::Connected(*device)) {
        Ok(answer) => {
            wires.connect(device, connects.connect()?)?;
            write_accepted(&answer, office.notes(), office.outgoing(), output)
        }
        Err(why) => write_refusal(why, output),
    }
}

/// Ends the connection of a device: passes the event to the program (`Office`), and closes the
/// connection to the simulator.
pub(crate) fn leave<L: Link + Drop, W: Write>(
    office: &mut Office<ListBooks>,
    wires: &mut Wires<'_, L>,
    at: u64,
    device: &Option<Name>,
    event: &Event,
    output: &mut W,
) -> io::Result<()>
    ensures { Carries result (λ done now printed next. EventPrints now at event.now printed next)
        office.old office.new (W.contents output.old) (W.contents output.new) }
{
    match office.feed(at, event) {
        Ok(answer) => {
            wires.drop_wire(device);
            write_accepted(&answer, office.notes(), office.outgoing(), output)
        }
        Err(why) => write_refusal(why, output),
    }
}
