//! Finds the request in a line of a script (a text of commands). In an input of requests, the first
//! word of a line is the request's number instead of a timestamp.
ghost use Rattle.std.specs.Prelude.{◌≡◌};
ghost use Rattle.office_program.specs.Entering.Lines as lines;

use crate::entering::marks::is_by_hand;
use office_events::{Command, Event};
use script_text::{GivenList, ScriptLine};

/// The request in a line of a script (a text of commands), with the request's number, by which a
/// retry is found.
#[derive(Drop)]
pub(crate) enum Wanted {
    Command(u64, Command),
    List(u64, GivenList),
    /// The line of the script (a text of commands) contains no request.
    Nothing,
}

// Returns true if the command is allowed in an input (a text of request lines). Commands that start
// polls are not allowed.
fn is_request(command: &Command) -> bool
    ensures { result ≡ lines.is_request command.now }
{
    match command {
        Command::AddDevice(_) => true,
        Command::PutList(_) => true,
        Command::AddRegister(_) => true,
        Command::Install(_) => true,
        Command::Exchange(_) => true,
        Command::Reset(_) => true,
        Command::Rescale(_) => true,
        Command::Manual(_) => true,
        Command::Close(_) => true,
        Command::Void(_) => true,
        Command::StartPoll(_) => false,
        Command::StartRound(_) => false,
    }
}

fn can_be_asked(marked: bool, command: &Command) -> bool
    ensures { result ≡ lines.can_be_asked marked command.now }
{
    if marked {
        is_by_hand(command)
    } else {
        is_request(command)
    }
}

fn wanted_by(marked: bool, number: u64, command: Command) -> Wanted
    ensures { result ≡ lines.wanted_by marked number command }
{
    if can_be_asked(marked, &command) {
        Wanted::Command(number, command)
    } else {
        Wanted::Nothing
    }
}

fn wanted_of(marked: bool, number: u64, event: Event) -> Wanted
    ensures { result ≡ lines.wanted_of marked number event }
{
    match event {
        Event::Connected(_) => Wanted::Nothing,
        Event::Bytes(_, _) => Wanted::Nothing,
        Event::Tick => Wanted::Nothing,
        Event::Gone(_, _) => Wanted::Nothing,
        Event::Command(command) => wanted_by(marked, number, command),
        Event::Asked(_) => Wanted::Nothing,
    }
}

fn wanted_list(marked: bool, number: u64, list: GivenList) -> Wanted
    ensures { result ≡ lines.wanted_list marked number list }
{
    if marked {
        Wanted::Nothing
    } else {
        Wanted::List(number, list)
    }
}

/// Returns the request in a line of a script (a text of commands). A line with the mark ` !` (a
/// confirmation) can contain only an entry by hand.
pub(crate) fn wanted_in(marked: bool, said: ScriptLine) -> Wanted
    ensures { result ≡ lines.wanted_in marked said }
{
    match said {
        ScriptLine::Event { at, event } => wanted_of(marked, at, event),
        ScriptLine::List { at, list } => wanted_list(marked, at, list),
        ScriptLine::Start { .. } => Wanted::Nothing,
        ScriptLine::Meter { .. } => Wanted::Nothing,
        ScriptLine::Intervals { .. } => Wanted::Nothing,
        ScriptLine::Days { .. } => Wanted::Nothing,
        ScriptLine::Poll { .. } => Wanted::Nothing,
    }
}
