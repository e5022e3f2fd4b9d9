//! Prints the program's version, and whether the program was proved.
use command_words::program;
use std::io::{self, Write};
use stored_files::{Ending, Failure};

/// The text that says that the program was not proved.
///
/// In the program that it proved, `./sunreg-build` replaces the text of `BUILD` by a text of the
/// same length. That text has the logic of the proofs and the checksum of the sources
/// (bench/identity.py). A source file can't contain the checksum of all sources.
static BUILD: &str =
    "not proved: compiled without ./sunreg-build, which proves the sources and marks the result";

/// Prints the program's version, and the proof logic and sources with which the program was proved.
pub(crate) fn version(rt: &HostRuntime) -> Ending<'static> {
    let text = program();
    let mut output = io::writer(rt);
    match write!(output, "{} {}\n{BUILD}\n", text.name, text.version) {
        Ok(()) => Ending::Fine,
        Err(_) => Ending::Failed(Failure::Streams),
    }
}
