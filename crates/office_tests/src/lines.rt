//! Tests of lines that the parser never gets from a script, because reading a script skips empty
//! lines and drops carriage returns. Also tests lines of the maximum length.
use script_text::{BankLine, LineFault, ScriptLine};
use std::alloc::Global;
use std::process::Abort;

static BAD: [&[u8]; 4] = [b"", b" ", b"1903 tick\r", b"# a comment"];

// The parser of script lines rejects an empty line, a carriage return and a comment.
#[test]
fn reads_no_other_lines(rt: HostRuntime) {
    for text in &BAD {
        let read = ScriptLine::read(rt.alloc(), text);
        assert!(rt; matches!(&read, Err(LineFault::Bad)), "{text:?}");
    }
    assert!(rt; LineFault::Bad.number() == 1);
    assert!(rt; LineFault::Memory.number() == 2);
    assert!(rt; BankLine::read(b"").is_none());
    assert!(rt; BankLine::read(b"area coil 0 1\r").is_none());
}

// Returns the script line that sets a device's point list. The text of the list is `count` bytes of
// value 0, written in hex.
fn zeros_listed(rt: &impl Abort, alloc: Global, count: usize) -> Vec<u8> {
    let mut text = b"1900 list inv ".to_vec(alloc).expect(rt, "no memory");
    text.resize(14 + 2 * count.min(70_000), b'0')
        .expect(rt, "no memory");
    text
}

static ZEROS: [u8; 65_536] = [0; 65_536];

// The parser accepts a script line with 65,536 bytes in hex, and rejects more bytes.
#[test]
fn pieces_have_at_most_65536_bytes(rt: HostRuntime) {
    let most = zeros_listed(&rt, rt.alloc(), 65_536);
    match ScriptLine::read(rt.alloc(), &most) {
        Ok(ScriptLine::List { list, .. }) => {
            assert!(rt; list.text.as_slice() == ZEROS.as_slice());
        }
        _ => panic!(rt; "no list"),
    }
    let past = zeros_listed(&rt, rt.alloc(), 65_537);
    assert!(rt; ScriptLine::read(rt.alloc(), &past).is_err());
}
