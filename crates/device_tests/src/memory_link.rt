//! Tests the connection in memory (`MemoryLink`) that other tests use instead of a TCP connection.
use mb_wire::{LastTake, Link, LinkFailed, MemoryLink, Took};

// The result of each read from the connection in memory, and the buffer after the read.
static TAKES: [(Took, [u8; 4]); 3] = [
    (Took::Bytes(2), [1, 2, 9, 9]),
    (Took::Bytes(1), [3, 2, 9, 9]),
    (Took::End, [3, 2, 9, 9]),
];

/// Reads from the connection in memory return the input in chunks, in order.
#[test]
fn an_input_is_handed_out_in_pieces(rt: HostRuntime) {
    let mut output = [0; 5];
    let mut link = MemoryLink::new(&[1, 2, 3], &mut output, 2, None);
    let mut piece = [9; 4];
    assert!(rt; link.last_take().is_none());
    for (answer, after) in TAKES {
        let answer = Ok(answer);
        assert!(rt; link.take(&mut piece) == answer && piece == after);
        assert!(rt; link.last_take() == Some(LastTake { room: 4, answer }));
    }
    assert!(rt; (link.takes(), link.failures()) == (3, 0));
}

// The bytes of each write to an output with room for five bytes, and the result of the write. A
// call accepts at most two bytes.
static GIVES: [(&[u8], Result<usize, LinkFailed>); 5] = [
    (&[7, 8, 9], Ok(2)),
    (&[9], Ok(1)),
    (&[], Ok(0)),
    (&[5, 6, 7], Ok(2)),
    (&[4], Err(LinkFailed)),
];

/// Writes to the connection in memory fill the output in chunks, in order.
#[test]
fn an_output_is_given_in_pieces(rt: HostRuntime) {
    let mut output = [0; 5];
    let mut link = MemoryLink::new(&[1, 2, 3], &mut output, 2, None);
    for (bytes, answer) in GIVES {
        assert!(rt; link.failures() == 0 && link.give(bytes) == answer);
    }
    assert!(rt; (link.takes(), link.failures()) == (0, 1));
    assert!(rt; link.given() == [7, 8, 9, 5, 6].as_slice());
}

// Returns whether, of two reads and two writes that alternate, exactly the call with the number
// `fails` (counted from 1) fails.
fn is_reported(fails: u64) -> bool {
    let mut output = [0; 4];
    let mut link = MemoryLink::new(&[1, 2], &mut output, 1, Some(fails));
    let mut piece = [0; 4];
    let first = (link.take(&mut piece).is_err(), link.give(&[1]).is_err());
    let second = (link.take(&mut piece).is_err(), link.give(&[2]).is_err());
    first == (fails == 1, fails == 2)
        && second == (fails == 3, fails == 4)
        && (link.failures(), link.takes()) == (1, 2)
}

/// A test can make any single call to the connection in memory fail.
#[test]
fn each_call_fails_in_turn(rt: HostRuntime) {
    for fails in 1..5u64 {
        assert!(rt; is_reported(fails), "call {fails}");
    }
}
