//! The mark ` !` at the end of an input line, which confirms the line's entry by hand.
ghost use Rattle.std.specs.Prelude.{◌≡◌, ◌≤◌, IsTrue, length};
ghost use Rattle.office_program.specs.Entering.Lines as lines;
ghost use Rattle.office_program.specs.Entering.Marks as spec;

use office_events::Command;

/// Returns true if the input line ends with the mark ` !`, which confirms an entry by hand.
pub(crate) fn is_marked(line: &[u8]) -> bool
    ensures marked { result ≡ spec.is_marked line.now }
    ensures long { IsTrue result → 2 ≤ length line.now }
{
    line.ends_with(b" !")
}

/// Returns the input line without its mark ` !` (a confirmation), or the complete line if it has no
/// mark.
pub(crate) fn unmarked(line: &[u8]) -> &[u8]
    ensures { result.now ≡ spec.unmarked line.now }
{
    if is_marked(line) {
        &line[..line.len() - 2]
    } else {
        line
    }
}

/// Returns true if the command makes an entry by hand. Only lines of such commands may end with the
/// mark ` !`, which confirms the entry.
pub(crate) fn is_by_hand(command: &Command) -> bool
    ensures { result ≡ lines.is_by_hand command.now }
{
    match command {
        Command::AddDevice(_) => false,
        Command::PutList(_) => false,
        Command::AddRegister(_) => false,
        Command::Install(_) => false,
        Command::Exchange(_) => true,
        Command::Reset(_) => true,
        Command::Rescale(_) => true,
        Command::Manual(_) => true,
        Command::Close(_) => true,
        Command::Void(_) => false,
        Command::StartPoll(_) => false,
        Command::StartRound(_) => false,
    }
}
