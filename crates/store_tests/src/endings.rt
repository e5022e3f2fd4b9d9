//! Tests the exit status for each way in which a command can end, and the text that the command
//! prints on standard error.
use stored_files::{Ending, Failure, say};

// Checks that a command prints nothing on standard error if it succeeded or was refused. If a
// command failed, it prints `failed` and a line with details.
#[test]
fn endings_have_their_statuses_and_texts(rt: HostRuntime) {
    let text = String::from_str(rt.alloc(), "error: x\n").expect(&rt, "no memory");
    let host = "no.such.invalid";
    let endings = [
        (Ending::Fine, 0, ""),
        (Ending::Refused, 1, ""),
        (Ending::Wrong(text), 2, "error: x\n"),
        (
            Ending::NoText,
            2,
            "error: the arguments are not valid UTF-8\n",
        ),
        (
            Ending::NoDay {
                option: "from",
                word: "2023-02-29",
            },
            2,
            "error: invalid value '2023-02-29' for '--from <DAY>': not a calendar date (like 2026-11-25)\n",
        ),
        (
            Ending::Backward,
            2,
            "error: '--till <DAY>' is before '--from <DAY>'\n",
        ),
        (
            Ending::NoSeal("seal.txt"),
            2,
            "error: invalid value 'seal.txt' for '--against <SEAL>': not a seal of this version: make a new one with sunreg audit --seal\n",
        ),
        (
            Ending::Twice("o.db"),
            2,
            "error: invalid value 'o.db' for '--db <FILE>': given twice\n",
        ),
        (
            Ending::NoZone("nowhere"),
            2,
            "error: invalid value 'nowhere' for '--zone <TEXT>': not a POSIX time zone; Berlin is CET-1CEST,M3.5.0,M10.5.0/3\n",
        ),
        (
            Ending::Failed(Failure::Memory),
            3,
            "failed\nsunreg: out of memory\n",
        ),
        (
            Ending::Failed(Failure::Host { host }),
            3,
            "failed\nsunreg: can't resolve no.such.invalid: check the host name and this machine's DNS\n",
        ),
    ];
    for (ending, status, text) in &endings {
        assert!(rt; ending.number() == *status, "{text}");
        let mut errors = Vec::new(rt.alloc());
        say(ending, &mut errors);
        assert!(rt; errors.as_slice() == text.as_bytes(), "{text}");
    }
}
