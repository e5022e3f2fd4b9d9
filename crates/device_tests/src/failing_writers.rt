//! Tests writing points, texts and point lists to writers that accept a few bytes at a time, are
//! interrupted, and then fail or accept no byte.
ghost use Rattle.std.specs.Prelude.{◌≤◌, IfOk, length};

use crate::given::list_of;
use point_list::{PointList, WriteListFault, write_list};
use std::alloc::Global;
use std::io::{self, ErrorKind};
use std::process::Abort;
use sun_points::{Point, Scale, Text, write_scaled};

// A writer that accepts up to three bytes at a time until it is full. Each write is interrupted
// once before it succeeds. A full writer fails or accepts no byte.
#[derive(Drop)]
struct Narrow {
    taken: Vec<u8>,
    room: usize,
    fails: bool,
    interrupted: bool,
}

impl Narrow {
    fn new(alloc: Global, room: usize, fails: bool) -> Narrow {
        Narrow {
            taken: Vec::new(alloc),
            room,
            fails,
            interrupted: false,
        }
    }

    fn write_some(&mut self, bytes: &[u8]) -> io::Result<usize>
        ensures { IfOk result (λ n. n ≤ length bytes.now) }
    {
        let count = bytes.len().min(self.room).min(3);
        self.taken.extend_from_slice(&bytes[..count])?;
        self.room -= count;
        Ok(count)
    }
}

impl io::Write for Narrow {
    fn write(&mut self, bytes: &[u8]) -> io::Result<usize> {
        self.interrupted = !self.interrupted;
        if self.interrupted {
            return Err(io::Error::from(ErrorKind::Interrupted));
        }
        if self.fails && self.room == 0 {
            return Err(io::Error::from(ErrorKind::StorageFull));
        }
        self.write_some(bytes)
    }

    fn flush(&mut self) -> io::Result<()> {
        Ok(())
    }
}

// Returns whether a writer with room for `room` bytes received the first `room` bytes of a text. If
// the text is longer, the result of writing it must also be the expected error.
fn is_cut(output: &Narrow, outcome: io::Result<()>, room: usize, text: &str) -> bool {
    let all = text.as_bytes();
    let reported = match outcome {
        Ok(()) => room >= all.len(),
        Err(error) if output.fails => room < all.len() && error.kind() == ErrorKind::StorageFull,
        Err(error) => room < all.len() && error.kind() == ErrorKind::WriteZero,
    };
    reported && output.taken.as_slice() == &all[..room.min(all.len())]
}

fn cut_value(rt: &impl Abort, alloc: Global, room: usize, fails: bool) -> bool {
    let scale = Scale::new(0xFFFE).expect(rt, "no scale");
    let mut output = Narrow::new(alloc, room, fails);
    let outcome = write_scaled(-1234, scale, &mut output);
    is_cut(&output, outcome, room, "-12.34")
}

// A scaled value is written until the writer is full, and then the error is returned.
#[test]
fn a_scaled_value_is_cut(rt: HostRuntime) {
    for room in 0..8usize {
        for fails in [true, false] {
            assert!(rt; cut_value(&rt, rt.alloc(), room, fails), "{room} {fails}");
        }
    }
}

// SunSpec points of each kind, and their texts at the scale factor -1.
static POINTS: [(Point<'static>, &str); 6] = [
    (Point::Absent, "absent"),
    (Point::Signed(-15), "-1.5"),
    (Point::Unsigned(4294967295), "429496729.5"),
    (Point::Bits(0xAB), "0x000000ab"),
    (
        Point::Text(Text {
            words: &[0x4142, 0x4344, 0x4500],
        }),
        "ABCDE",
    ),
    (Point::Text(Text { words: &[0, 0, 0] }), ""),
];

// Returns whether a writer with room for `room` bytes received the first `room` bytes of a point's
// text, and the result is the expected one: success, or the error of the full writer.
fn cut_point(
    rt: &impl Abort,
    alloc: Global,
    point: &Point<'_>,
    room: usize,
    fails: bool,
    text: &str,
) -> bool {
    let tenth = Scale::new(0xFFFF).expect(rt, "no scale");
    let mut output = Narrow::new(alloc, room, fails);
    let outcome = point.write(tenth, &mut output);
    is_cut(&output, outcome, room, text)
}

// Test: a SunSpec point of each type is written as text to a writer with too little room. The
// writer gets the first bytes of the text, and the call returns the writer's error.
#[test]
fn a_point_is_cut(rt: HostRuntime) {
    for (point, text) in &POINTS {
        for room in 0..12usize {
            for fails in [true, false] {
                let is_so = cut_point(&rt, rt.alloc(), point, room, fails, text);
                assert!(rt; is_so, "{text} {room} {fails}");
            }
        }
    }
}

static TEXT: &[u8] = b"name,function,area,address,type,scale\na,3,0,5,int16,0\n";

// Returns whether the writer received exactly the first `room` bytes of the point list's text, and
// the result is the fault `Write`.
fn fails_after(alloc: Global, list: &PointList, room: usize, fails: bool) -> bool {
    let mut output = Narrow::new(alloc, room, fails);
    write_list(alloc, list, &mut output) == Err(WriteListFault::Write)
        && Some(output.taken.as_slice()) == TEXT.get(..room)
}

// A writer that fails or accepts no byte after `room` bytes has received exactly the first `room`
// bytes of the point list's text.
#[test]
fn fails_at_each_byte(rt: HostRuntime) {
    let list = list_of(&rt, rt.alloc(), TEXT);
    for room in 0..TEXT.len() {
        assert!(rt;
            fails_after(rt.alloc(), &list, room, true),
            "fails at {room}"
        );
        assert!(rt;
            fails_after(rt.alloc(), &list, room, false),
            "takes nothing at {room}"
        );
    }
}

// A point list is written completely even if each write is interrupted once.
#[test]
fn a_list_is_written_after_an_interruption(rt: HostRuntime) {
    let list = list_of(&rt, rt.alloc(), TEXT);
    let mut output = Narrow::new(rt.alloc(), TEXT.len(), true);
    assert!(rt; write_list(rt.alloc(), &list, &mut output).is_ok());
    assert!(rt; output.taken.as_slice() == TEXT);
}
