//! Parses the words that follow the verb in a command's script line.
ghost use Rattle.std.specs.Prelude.{◌≡◌};
ghost use Rattle.script_text.specs.LineReader.{said_by, said_last};
ghost use Rattle.office_events.specs.declared.events.Event.TheVariants as event;
ghost use Rattle.script_text.specs.declared.script.ScriptLine.TheVariants as line;
ghost use Rattle.script_text.specs.declared.verbs.Verb.TheVariants as verb;

use crate::happenings::event_line;
use crate::line_words::{
    Words, next_moment, next_name, next_number, next_range, next_scale, next_signed,
};
use crate::script::ScriptLine;
use office_events::{
    AddDevice, AddRegister, Close, Command, Event, Exchange, Install, Manual, Rescale, Reset,
    StartRound, VoidEntry,
};

// Returns the script line of a command, or `None` if words are left after the command's arguments.
fn command_line(at: u64, command: Command, words: &mut Words<'_>) -> Option<ScriptLine>
    ensures { result ≡ said_last (line.Event at (event.Command command)) words.old }
{
    event_line(at, Event::Command(command), words)
}

// Parses `NAME UNIT TIMEOUT WINDOW`, the words after `device` in a script line. These words
// describe a new Modbus device.
pub(crate) fn device(at: u64, words: &mut Words<'_>) -> Option<ScriptLine>
    ensures { result ≡ said_by verb.Device at words.old }
{
    let command = Command::AddDevice(AddDevice {
        name: next_name(words)?,
        unit: next_number(words)?,
        timeout: next_number(words)?,
        window: next_number(words)?,
    });
    command_line(at, command, words)
}

// Parses `NAME DEVICE FUNCTION ADDRESS SCALE`, the words after `register` in a script line. These
// words describe a new accounting register (a named counter).
pub(crate) fn register(at: u64, words: &mut Words<'_>) -> Option<ScriptLine>
    ensures { result ≡ said_by verb.Register at words.old }
{
    let command = Command::AddRegister(AddRegister {
        name: next_name(words)?,
        device: next_name(words)?,
        function: next_number(words)?,
        address: next_number(words)?,
        scale: next_scale(words)?,
    });
    command_line(at, command, words)
}

// Parses `REGISTER METER RAW SF CEILING [RANGE]`, the words after `install` in a script line. These
// words describe the installation of a meter.
pub(crate) fn install(at: u64, words: &mut Words<'_>) -> Option<ScriptLine>
    ensures { result ≡ said_by verb.Install at words.old }
{
    let command = Command::Install(Install {
        register: next_name(words)?,
        meter: next_name(words)?,
        raw: next_number(words)?,
        sf: next_signed(words)?,
        ceiling: next_number(words)?,
        range: next_range(words)?,
    });
    command_line(at, command, words)
}

// Parses `REGISTER LAST ROLLS METER RAW SF CEILING [RANGE]`, the words after `exchange` in a script
// line. These words describe the exchange of a meter for another meter.
pub(crate) fn exchange(at: u64, words: &mut Words<'_>) -> Option<ScriptLine>
    ensures { result ≡ said_by verb.Exchange at words.old }
{
    let command = Command::Exchange(Exchange {
        register: next_name(words)?,
        last: next_number(words)?,
        rolls: next_number(words)?,
        meter: next_name(words)?,
        raw: next_number(words)?,
        sf: next_signed(words)?,
        ceiling: next_number(words)?,
        range: next_range(words)?,
    });
    command_line(at, command, words)
}

// Parses `REGISTER BEFORE AFTER`, the words after `reset` in a script line. These words describe
// the reset of a meter's counter.
pub(crate) fn reset(at: u64, words: &mut Words<'_>) -> Option<ScriptLine>
    ensures { result ≡ said_by verb.Reset at words.old }
{
    let command = Command::Reset(Reset {
        register: next_name(words)?,
        before: next_number(words)?,
        after: next_number(words)?,
    });
    command_line(at, command, words)
}

// Parses `REGISTER BEFORE AFTER SF`, the words after `rescale` in a script line. The line reports
// that a meter's counter gets a new count and a new scale factor.
pub(crate) fn rescale(at: u64, words: &mut Words<'_>) -> Option<ScriptLine>
    ensures { result ≡ said_by verb.Rescale at words.old }
{
    let command = Command::Rescale(Rescale {
        register: next_name(words)?,
        before: next_number(words)?,
        after: next_number(words)?,
        sf: next_signed(words)?,
    });
    command_line(at, command, words)
}

// Parses `REGISTER RAW ROLLS [AT]`, the words after `manual` in a script line. These words describe
// a reading entered by hand.
pub(crate) fn manual(at: u64, words: &mut Words<'_>) -> Option<ScriptLine>
    ensures { result ≡ said_by verb.Manual at words.old }
{
    let command = Command::Manual(Manual {
        register: next_name(words)?,
        raw: next_number(words)?,
        rolls: next_number(words)?,
        at: next_moment(words)?,
    });
    command_line(at, command, words)
}

// Parses `REGISTER RAW ROLLS`, the words after `close` in a script line. These words describe the
// closing of a meter with its last count.
pub(crate) fn close(at: u64, words: &mut Words<'_>) -> Option<ScriptLine>
    ensures { result ≡ said_by verb.Close at words.old }
{
    let command = Command::Close(Close {
        register: next_name(words)?,
        raw: next_number(words)?,
        rolls: next_number(words)?,
    });
    command_line(at, command, words)
}

// Parses `METER PLACE`, the words after `void` in a script line. The command cancels (voids) the
// meter's entry with index PLACE.
pub(crate) fn void_entry(at: u64, words: &mut Words<'_>) -> Option<ScriptLine>
    ensures { result ≡ said_by verb.Void at words.old }
{
    let command = Command::Void(VoidEntry {
        meter: next_name(words)?,
        place: next_number(words)?,
    });
    command_line(at, command, words)
}

// Parses `DEVICE FROM`, the words after `round` in a script line. The command starts a round of
// polls: one poll for each Modbus read of the device's plan, from index FROM on.
pub(crate) fn round(at: u64, words: &mut Words<'_>) -> Option<ScriptLine>
    ensures { result ≡ said_by verb.Round at words.old }
{
    let command = Command::StartRound(StartRound {
        device: next_name(words)?,
        from: next_number(words)?,
    });
    command_line(at, command, words)
}
