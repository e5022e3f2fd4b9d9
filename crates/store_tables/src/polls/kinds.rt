//! Conversions between kinds of commands and the words that the table `replies` stores for them.
ghost use Rattle.std.specs.Prelude.{◌≡◌};
ghost use Rattle.store_tables.specs.Polls.Rows.{kind_word, kind_of};

use office_events::CommandKind;

/// Returns the kind of command that a word in the table `replies` names, or None for any other
/// word.
pub(crate) fn parse_kind(word: &[u8]) -> Option<CommandKind>
    ensures { result ≡ kind_of word.now }
{
    if word == b"device".as_slice() {
        Some(CommandKind::Device)
    } else if word == b"list".as_slice() {
        Some(CommandKind::List)
    } else if word == b"register".as_slice() {
        Some(CommandKind::Register)
    } else if word == b"install".as_slice() {
        Some(CommandKind::Install)
    } else if word == b"exchange".as_slice() {
        Some(CommandKind::Exchange)
    } else if word == b"reset".as_slice() {
        Some(CommandKind::Reset)
    } else if word == b"rescale".as_slice() {
        Some(CommandKind::Rescale)
    } else if word == b"manual".as_slice() {
        Some(CommandKind::Manual)
    } else if word == b"close".as_slice() {
        Some(CommandKind::Close)
    } else if word == b"void".as_slice() {
        Some(CommandKind::Void)
    } else if word == b"start".as_slice() {
        Some(CommandKind::Start)
    } else {
        None
    }
}

/// Returns the word that the table `replies` stores for a kind of command.
pub(crate) fn word_of(kind: CommandKind) -> &'static str
    ensures { result.now ≡ kind_word kind }
{
    match kind {
        CommandKind::Device => "device",
        CommandKind::List => "list",
        CommandKind::Register => "register",
        CommandKind::Install => "install",
        CommandKind::Exchange => "exchange",
        CommandKind::Reset => "reset",
        CommandKind::Rescale => "rescale",
        CommandKind::Manual => "manual",
        CommandKind::Close => "close",
        CommandKind::Void => "void",
        CommandKind::Start => "start",
    }
}
