//! Runs the golden tests of HTTP below the folder that the first argument names, by default the
//! working directory. A golden test has HTTP requests and their expected responses. The program
//! reports each test that differs, and at the end how many tests passed.
#![tactic(auto)]

mod comparing;
mod folders;
mod requests;
mod responses;
mod spelled;

use crate::comparing::differs_at;
use crate::folders::{folders_in, names_in};
use std::process::ExitCode;
use std::{env, fs, io};

/// The number of golden tests that passed, and the number that differ from the expected output.
#[derive(Clone, Copy)]
struct Tally {
    agree: u64,
    differ: u64,
}

impl Tally {
    fn count(&mut self, agrees: bool) {
        if agrees {
            self.agree = self.agree.saturating_add(1);
        } else {
            self.differ = self.differ.saturating_add(1);
        }
    }
}

fn main(rt: HostRuntime) -> ExitCode {
    match play_all(&rt) {
        Ok(tally) => ExitCode::from(u8::from(tally.differ > 0)),
        Err(error) => {
            let _said = eprintln!(rt; "http_cases: {error}");
            ExitCode::from(3)
        }
    }
}

// Runs the golden tests in the subfolders of the top folder. Each subfolder is for one subject.
fn play_all(rt: &HostRuntime) -> io::Result<Tally> {
    let mut tally = Tally {
        agree: 0,
        differ: 0,
    };
    let top = env::args(rt)?.nth(1);
    for subject in &folders_in(rt, top.as_deref().unwrap_or("."))? {
        play_subject(rt, subject.as_str(), &mut tally)?;
    }
    let Tally { agree, differ } = tally;
    println!(rt; "{agree} cases agree, {differ} differ")?;
    Ok(tally)
}

// Runs the golden tests of a folder, in the order of their names. Only a file with the extension
// `http` is a golden test.
fn play_subject(rt: &HostRuntime, subject: &str, tally: &mut Tally) -> io::Result<()> {
    for name in &names_in(rt, subject)? {
        let Some((stem, ending)) = name.as_str().rsplit_once('.') else {
            continue;
        };
        if ending != "http" {
            continue;
        }
        let input = format!(in rt.alloc(); "{subject}/{name}")?;
        let wanted = format!(in rt.alloc(); "{subject}/{stem}.out")?;
        let agrees = play_case(rt, input.as_str(), wanted.as_str())?;
        tally.count(agrees);
    }
    Ok(())
}

// Runs the golden test in a file, and reports the first line in which its responses differ from the
// expected responses. Each test runs twice: with requests that arrive at once, and with requests
// that arrive byte by byte.
fn play_case(rt: &HostRuntime, input: &str, wanted: &str) -> io::Result<bool> {
    let text = fs::read(rt, input)?;
    let wanted = fs::read(rt, wanted)?;
    let text = str::from_utf8(&text).unwrap_or("");
    let at_once = requests::play(rt.alloc(), text, 65_536)?;
    let by_bytes = requests::play(rt.alloc(), text, 1)?;
    let is_same = agrees(rt, input, "responses", &at_once, &wanted)?;
    Ok(is_same && agrees(rt, input, "responses to single bytes", &by_bytes, &wanted)?)
}

// Returns whether two texts are the same, and reports the first line in which they differ.
fn agrees(
    rt: &HostRuntime,
    input: &str,
    what: &str,
    printed: &[u8],
    wanted: &[u8],
) -> io::Result<bool> {
    let Some(line) = differs_at(printed, wanted) else {
        return Ok(true);
    };
    println!(rt; "{input} differs in line {line} of its {what}")?;
    Ok(false)
}
