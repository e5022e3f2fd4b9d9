//! The program `sunreg`: polls SunSpec devices, and records their energy.
#![tactic(auto)]

ghost use Rattle.std.specs.Prelude.{◌≡◌};
ghost use Rattle.std.specs.Process.{exit_status};
ghost use Rattle.stored_files.specs.Ends.Endings.{ending_number};

mod command_output;
mod commands;
mod completions;
mod counters;
mod entering;
mod explain;
mod offices;
mod onward_clock;
mod period_files;
mod period_runs;
mod replays;
mod reports;
mod run_words;
mod scans;
mod surroundings;
mod version;
mod waiting;

use crate::commands::carry_out;
use crate::version::version;
use crate::waiting::say_waiting;
use command_words::{WordsFault, command_of};
use file_commands::Escaped;
use std::alloc::{AllocError, Global};
use std::env;
use std::io::{self, ErrorKind, Write};
use std::process::ExitCode;
use stored_files::{Ending, Failure, say};

fn main(rt: HostRuntime) -> ExitCode {
    let args = match env::args(&rt) {
        Ok(args) => args,
        Err(error) if error.kind() == ErrorKind::OutOfMemory => {
            return ended(&rt, &Ending::Failed(Failure::Memory));
        }
        Err(_) => return ended(&rt, &Ending::NoText),
    };
    let Ok(words) = words_in(rt.alloc(), args) else {
        return ended(&rt, &Ending::Failed(Failure::Memory));
    };
    let Ok(texts) = texts_of(rt.alloc(), &words) else {
        return ended(&rt, &Ending::Failed(Failure::Memory));
    };
    if texts.is_empty() {
        say_waiting(&rt);
    }
    match command_of(rt.alloc(), &texts) {
        Ok(line) => carry_out(&rt, &line),
        Err(WordsFault::Help(text)) => ended(&rt, &print_help(&rt, text.as_str())),
        Err(WordsFault::Version) => ended(&rt, &version(&rt)),
        Err(WordsFault::Wrong(text)) => ended(&rt, &Ending::Wrong(text)),
        Err(WordsFault::Memory) => ended(&rt, &Ending::Failed(Failure::Memory)),
    }
}

// Returns the command line arguments after the program's name.
fn words_in(alloc: Global, args: env::Args) -> Result<Vec<String>, AllocError> {
    let mut args = args;
    let _program = args.next();
    let mut words = Vec::new(alloc);
    for word in args {
        words.push(word)?;
    }
    Ok(words)
}

fn texts_of<'a>(alloc: Global, words: &'a [String]) -> Result<Vec<&'a str>, AllocError> {
    let mut texts = Vec::new(alloc);
    for word in words {
        texts.push(word.as_str())?;
    }
    Ok(texts)
}

fn print_help(rt: &HostRuntime, text: &str) -> Ending<'static> {
    match io::writer(rt).write_all(text.as_bytes()) {
        Ok(()) => Ending::Fine,
        Err(_) => Ending::Failed(Failure::Streams),
    }
}

// Reports how the program ended, and returns its exit status.
fn ended(rt: &HostRuntime, ending: &Ending<'_>) -> ExitCode
    ensures { exit_status result ≡ ending_number ending.now }
{
    let mut errors = Escaped::new(rt.stderr());
    say(ending, &mut errors);
    ExitCode::from(ending.number())
}
