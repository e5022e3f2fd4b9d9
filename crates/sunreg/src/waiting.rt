//! A message for a user who starts the program at a terminal without arguments.
use std::io::{IsTerminal, Write};

const WAITS: &[u8] =
    b"sunreg: reading a script from this terminal; end it with Ctrl-D, or see sunreg --help\n";

/// Reports on standard error that the program reads a script (a text of commands, events and
/// queries) from the terminal, if standard input is a terminal.
pub(crate) fn say_waiting(rt: &HostRuntime) {
    if rt.stdin().is_terminal() {
        let mut errors = rt.stderr();
        let _said = errors.write_all(WAITS);
    }
}
