//! Builds the stored answer to a request, by which the program recognizes a retry of the request.
ghost use Rattle.std.specs.Prelude.{◌≡◌, [], List, IfOk};
ghost use Rattle.std.specs.Option.{option_to_list};
ghost use Rattle.office_events.specs.declared.facts.Fact.{Fact};
ghost use Rattle.office_books.specs.History as history;
ghost use Rattle.office_core.specs.Commands.Effects.{replies_by};

use office_events::{Asked, Command, CommandKind, Event, Fact, Reply};
use std::alloc::AllocError;

/// Returns the kind of a command, which is stored with the answer to the command's request.
pub fn kind_of(command: &Command) -> CommandKind
    ensures { result ≡ history.kind_of command.now }
{
    match command {
        Command::AddDevice(_) => CommandKind::Device,
        Command::PutList(_) => CommandKind::List,
        Command::AddRegister(_) => CommandKind::Register,
        Command::Install(_) => CommandKind::Install,
        Command::Exchange(_) => CommandKind::Exchange,
        Command::Reset(_) => CommandKind::Reset,
        Command::Rescale(_) => CommandKind::Rescale,
        Command::Manual(_) => CommandKind::Manual,
        Command::Close(_) => CommandKind::Close,
        Command::Void(_) => CommandKind::Void,
        Command::StartPoll(_) => CommandKind::Start,
        Command::StartRound(_) => CommandKind::Start,
    }
}

/// Returns the record of the answer to a request, or `None` if the caller's name is invalid. The
/// record has a copy of the request's bytes.
fn kept_of(moment: u64, asked: &Asked) -> Result<Option<Fact>, AllocError>
    ensures { IfOk result (λ kept. option_to_list kept ≡ history.reply_by moment asked.now) }
{
    let Some(caller) = asked.caller else {
        return Ok(None);
    };
    Ok(Some(Fact::Reply(Reply {
        caller,
        number: asked.number,
        request: asked.request.clone()?,
        kind: kind_of(&asked.command),
        at: moment,
    })))
}

/// Returns the record that stores the answer to an event, or `None` if the event has no idempotency
/// key.
pub fn reply_of(moment: u64, event: &Event) -> Result<Option<Fact>, AllocError>
    ensures { IfOk result (λ kept. option_to_list kept ≡ replies_by moment event.now) }
{
    match event {
        Event::Asked(asked) => kept_of(moment, asked),
        Event::Connected(_) => Ok(None),
        Event::Bytes(_, _) => Ok(None),
        Event::Tick => Ok(None),
        Event::Gone(_, _) => Ok(None),
        Event::Command(_) => Ok(None),
    }
}
