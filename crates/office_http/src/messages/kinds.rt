//! The kind of an executed command, as the response reports it.
ghost use Rattle.std.specs.Prelude.{◌≡◌};
ghost use Rattle.office_http.specs.Messages.Kinds.{done_text, kind_answered};

use office_events::{Answer, CommandKind};

/// Returns the JSON body of the response to an executed command.
pub fn done_body(kind: CommandKind) -> &'static [u8]
    ensures { result.now ≡ done_text kind }
{
    match kind {
        CommandKind::Device => b"{\"done\":\"device\"}",
        CommandKind::List => b"{\"done\":\"list\"}",
        CommandKind::Register => b"{\"done\":\"register\"}",
        CommandKind::Install => b"{\"done\":\"install\"}",
        CommandKind::Exchange => b"{\"done\":\"exchange\"}",
        CommandKind::Reset => b"{\"done\":\"reset\"}",
        CommandKind::Rescale => b"{\"done\":\"rescale\"}",
        CommandKind::Manual => b"{\"done\":\"manual\"}",
        CommandKind::Close => b"{\"done\":\"close\"}",
        CommandKind::Void => b"{\"done\":\"void\"}",
        CommandKind::Start => b"{\"done\":\"start\"}",
    }
}

/// Returns the kind of the executed command. For a duplicate request (same idempotency key), this
/// is the kind of the earlier command. `None` if the event was no command.
pub fn kind_answered(answer: Answer) -> Option<CommandKind>
    ensures { result ≡ kind_answered answer }
{
    match answer {
        Answer::Done(kind) | Answer::Again(kind) => Some(kind),
        Answer::Started { .. } => Some(CommandKind::Start),
        Answer::Noted => None,
    }
}
