//! Executes the lines of a loop, a script with simulated devices.
ghost use Rattle.std.specs.Prelude.{◌≡◌, true, false};
ghost use Rattle.script_run.specs.Bank.Settings as setting;
ghost use Rattle.script_run.specs.Looping.Lines as form;
ghost use Rattle.script_run.specs.Looping.Lines.{BankPrints, SaidPrints};
ghost use Rattle.script_run.specs.Looping.TextRun.{LineRuns, WordsRun};
ghost use Rattle.script_run.specs.Looping.Standings.{CarriesOut, loop_state};
ghost use Rattle.script_text.specs.LineWords.Words.{words_of};
ghost use Rattle.sun_points.specs.Writing.{GotText};

use crate::bank::{add_in, set_in};
use crate::looping::answers::write_ok;
use crate::looping::stand_in_lines::{connect, leave, start};
use crate::looping::wires::{Connects, Wires};
use crate::replaying::{carry_out, feed};
use mb_device::Bank;
use mb_wire::Link;
use memory_books::ListBooks;
use office_core::Office;
use office_events::{Command, Event, Name, Refusal, StartPoll};
use script_text::{BankLine, GivenStart, LineFault, ScriptLine, write_refusal};
use std::alloc::Global;
use std::io::{self, ErrorKind, Write};

/// The state of a running loop (a script with simulated devices): the program (`Office`), the
/// simulator, and the connections between them.
#[derive(Drop)]
pub(crate) struct Run<'t, L: Link + Drop> {
    pub(crate) office: Office<ListBooks>,
    pub(crate) bank: Bank,
    pub(crate) wires: Wires<'t, L>,
    /// True if an earlier line of the script has connected a device.
    pub(crate) connected: bool,
}

/// Executes a line of a loop (a script with simulated devices). Returns whether the line can be
/// parsed and is allowed at this position.
pub(crate) fn run_line<C: Connects, W: Write>(
    alloc: Global,
    run: &mut Run<'_, C::End>,
    line: &[u8],
    connects: &mut C,
    output: &mut W,
) -> io::Result<bool>
    ensures { WordsRun result (words_of line.now)
        (loop_state run.old.office run.old.bank run.old.connected (W.contents output.old))
        (loop_state run.new.office run.new.bank run.new.connected (W.contents output.new)) }
{
    match BankLine::read(line) {
        Some(said) => run_bank_line(run, &said, output),
        None => match ScriptLine::read(alloc, line) {
            Ok(said) => run_script_line(alloc, run, said, connects, output),
            Err(LineFault::Bad) => Ok(false),
            Err(LineFault::Memory) => Err(io::Error::from(ErrorKind::OutOfMemory)),
        },
    }
}

// Returns whether a setup line of the simulated devices is allowed at this position. Lines that add
// addresses (`area`) or inject faults (`trick`) are allowed only before a device is connected.
fn is_allowed(connected: bool, said: &BankLine) -> bool
    ensures yes { result ≡ true → form.MayStand connected said.now }
    ensures no { result ≡ false → form.MayNotStand connected said.now }
{
    match *said {
        BankLine::Area(_) => !connected,
        BankLine::Set(_) => true,
        BankLine::Trick { .. } => !connected,
    }
}

// Applies a setup line to the register map of the simulated devices, and returns whether the map
// accepts the line. Skips a line that injects a fault: each connection gets these faults when it is
// opened.
fn apply_bank_line(bank: &mut Bank, said: &BankLine) -> bool
    ensures taken { result ≡ setting.takes bank.old said.now }
    ensures after { bank.new ≡ form.maps_with bank.old said.now }
{
    match *said {
        BankLine::Area(area) => add_in(bank, area),
        BankLine::Set(cell) => set_in(bank, cell),
        BankLine::Trick { .. } => true,
    }
}

// Prints `ok` or a refusal, depending on whether the simulator's register map accepted a setup
// line.
fn print_acceptance<W: Write>(taken: bool, output: &mut W) -> io::Result<()>
    ensures { GotText result (form.taken_text taken)
        (W.contents output.old) (W.contents output.new) }
{
    if taken {
        write_ok(output)
    } else {
        write_refusal(Refusal::Limit, output)
    }
}

// Executes a setup line in a loop (a script with simulated devices). Returns whether the line is
// allowed at this position.
fn run_bank_line<L: Link + Drop, W: Write>(
    run: &mut Run<'_, L>,
    said: &BankLine,
    output: &mut W,
) -> io::Result<bool>
    ensures { LineRuns result (BankPrints said.now) (form.MayNotStand run.old.connected said.now)
        (loop_state run.old.office run.old.bank run.old.connected (W.contents output.old))
        (loop_state run.new.office run.new.bank run.new.connected (W.contents output.new)) }
{
    if !is_allowed(run.connected, said) {
        return Ok(false);
    }
    let taken = apply_bank_line(&mut run.bank, said);
    print_acceptance(taken, output)?;
    Ok(true)
}

// Executes a script line with simulated devices. Returns false for a line with bytes that a device
// sends, because only the simulated devices may send bytes.
fn run_script_line<C: Connects, W: Write>(
    alloc: Global,
    run: &mut Run<'_, C::End>,
    said: ScriptLine,
    connects: &mut C,
    output: &mut W,
) -> io::Result<bool>
    ensures { LineRuns result (SaidPrints said) (form.SaysBytes said)
        (loop_state run.old.office run.old.bank run.old.connected (W.contents output.old))
        (loop_state run.new.office run.new.bank run.new.connected (W.contents output.new)) }
{
    match said {
        ScriptLine::Event { at, event } => run_event(alloc, run, at, &event, connects, output),
        ScriptLine::Start { at, start } => run_start(alloc, run, at, &start, output),
        ScriptLine::List { .. } => {
            execute_as_script(alloc, run, said, output)?;
            Ok(true)
        }
        ScriptLine::Meter { .. } => {
            execute_as_script(alloc, run, said, output)?;
            Ok(true)
        }
        ScriptLine::Intervals { .. } => {
            execute_as_script(alloc, run, said, output)?;
            Ok(true)
        }
        ScriptLine::Days { .. } => {
            execute_as_script(alloc, run, said, output)?;
            Ok(true)
        }
        ScriptLine::Poll { .. } => {
            execute_as_script(alloc, run, said, output)?;
            Ok(true)
        }
    }
}

// Executes a script line that does not use the simulated devices.
fn execute_as_script<L: Link + Drop, W: Write>(
    alloc: Global,
    run: &mut Run<'_, L>,
    said: ScriptLine,
    output: &mut W,
) -> io::Result<()>
    ensures { CarriesOut result (λ done. form.AlikePrints said)
        (loop_state run.old.office run.old.bank run.old.connected (W.contents output.old))
        (loop_state run.new.office run.new.bank run.new.connected (W.contents output.new)) }
{
    carry_out(alloc, &mut run.office, said, output)
}

// Executes an event of a script with simulated devices. Returns false for an event with bytes that
// a device sends, because only the simulated devices may send bytes.
fn run_event<C: Connects, W: Write>(
    alloc: Global,
    run: &mut Run<'_, C::End>,
    at: u64,
    event: &Event,
    connects: &mut C,
    output: &mut W,
) -> io::Result<bool>
    ensures { LineRuns result (form.HappensPrints at event.now) (form.IsBytes event.now)
        (loop_state run.old.office run.old.bank run.old.connected (W.contents output.old))
        (loop_state run.new.office run.new.bank run.new.connected (W.contents output.new)) }
{
    match event {
        Event::Bytes(_, _) => Ok(false),
        Event::Connected(device) => {
            run.connected = true;
            connect(
                &mut run.office,
                &mut run.wires,
                connects,
                at,
                device,
                output,
            )?;
            Ok(true)
        }
        Event::Command(command) => {
            run_command(alloc, run, at, round_of(command), event, output)?;
            Ok(true)
        }
        Event::Gone(device, _) => {
            leave(&mut run.office, &mut run.wires, at, device, event, output)?;
            Ok(true)
        }
        Event::Tick => {
            feed(&mut run.office, at, event, output)?;
            Ok(true)
        }
        Event::Asked(_) => {
            feed(&mut run.office, at, event, output)?;
            Ok(true)
        }
    }
}

// Returns the name of the device for which a command starts a round of reads (one for each read of
// the device's plan), or `None` for any other command.
fn round_of(command: &Command) -> Option<Option<Name>>
    ensures { result ≡ form.round_of command.now }
{
    match command {
        Command::StartRound(round) => Some(round.device),
        Command::AddDevice(_) => None,
        Command::PutList(_) => None,
        Command::AddRegister(_) => None,
        Command::Install(_) => None,
        Command::Exchange(_) => None,
        Command::Reset(_) => None,
        Command::Rescale(_) => None,
        Command::Manual(_) => None,
        Command::Close(_) => None,
        Command::Void(_) => None,
        Command::StartPoll(_) => None,
    }
}

// Executes a command of a script with simulated devices. A command that starts a round of reads
// (one for each read of the device's plan) also exchanges frames with the simulated device.
fn run_command<L: Link + Drop, W: Write>(
    alloc: Global,
    run: &mut Run<'_, L>,
    at: u64,
    round: Option<Option<Name>>,
    event: &Event,
    output: &mut W,
) -> io::Result<()>
    ensures { CarriesOut result (λ done. form.CommandPrints round at event.now)
        (loop_state run.old.office run.old.bank run.old.connected (W.contents output.old))
        (loop_state run.new.office run.new.bank run.new.connected (W.contents output.new)) }
{
    match round {
        Some(device) => start(
            alloc,
            &mut run.office,
            &mut run.wires,
            &mut run.bank,
            at,
            &device,
            event,
            output,
        ),
        None => feed(&mut run.office, at, event, output),
    }
}

// Starts a Modbus read, or prints a refusal if one read request cannot cover the Modbus registers.
fn run_start<L: Link + Drop, W: Write>(
    alloc: Global,
    run: &mut Run<'_, L>,
    at: u64,
    given: &GivenStart,
    output: &mut W,
) -> io::Result<bool>
    ensures { LineRuns result (form.ReadPrints at given.now) ⊥
        (loop_state run.old.office run.old.bank run.old.connected (W.contents output.old))
        (loop_state run.new.office run.new.bank run.new.connected (W.contents output.new)) }
{
    match given.span() {
        Some(span) => {
            let event = Event::Command(Command::StartPoll(StartPoll {
                device: given.device,
                span,
            }));
            start(
                alloc,
                &mut run.office,
                &mut run.wires,
                &mut run.bank,
                at,
                &given.device,
                &event,
                output,
            )?;
            Ok(true)
        }
        None => {
            write_refusal(Refusal::Limit, output)?;
            Ok(true)
        }
    }
}
