//! Tests the reading of frames from streams of bytes.
use mb_wire::{Fed, FrameReader, Framing, Request, decode_reply, encode_request, write_frame};

// A request to unit 17 for three registers from address 107, and the response.
static REQUEST: [u8; 12] = [0, 1, 0, 0, 0, 6, 17, 3, 0, 107, 0, 3];

static REPLY: [u8; 15] = [0, 1, 0, 0, 0, 9, 17, 3, 6, 2, 43, 0, 0, 0, 100];

static ASKED: Request<'static> = Request::ReadHolding {
    address: 107,
    quantity: 3,
};

// A test case: bytes that are fed to a frame reader, and the expected result. If `anew` is true,
// the reader is new, otherwise the reader of the previous case continues.
struct Feed {
    anew: bool,
    bytes: &'static [u8],
    taken: usize,
    what: Framing,
    buffered: bool,
}

static FEEDS: [Feed; 6] = [
    // Two responses in one stream of bytes. The second response ends in the next chunk.
    Feed {
        anew: true,
        bytes: &[0, 1, 0, 0, 0, 9, 17, 3, 6, 2, 43, 0, 0, 0, 100, 0, 1, 0, 0],
        taken: 15,
        what: Framing::Whole,
        buffered: true,
    },
    Feed {
        anew: false,
        bytes: &[0],
        taken: 1,
        what: Framing::Need,
        buffered: false,
    },
    Feed {
        anew: false,
        bytes: &[1, 0, 0, 0, 9, 17, 3, 6, 2, 43, 0, 0, 0, 100],
        taken: 14,
        what: Framing::Whole,
        buffered: true,
    },
    // A frame with a protocol identifier other than 0 (Modbus).
    Feed {
        anew: true,
        bytes: &[0, 1, 0, 1, 0, 6, 17, 3, 0, 107, 0, 3, 0],
        taken: 12,
        what: Framing::Foreign,
        buffered: false,
    },
    // A length field of 1, after which the frame reader consumes no further bytes.
    Feed {
        anew: true,
        bytes: &[0, 1, 0, 0, 0, 1, 9],
        taken: 6,
        what: Framing::Garbled,
        buffered: false,
    },
    Feed {
        anew: false,
        bytes: &[0, 1, 0, 0, 0, 9, 17, 3, 6, 2, 43, 0, 0, 0, 100],
        taken: 0,
        what: Framing::Garbled,
        buffered: false,
    },
];

/// A frame reader consumes the bytes that it is fed only up to the end of a frame.
#[test]
fn a_feed_ends_with_a_frame(rt: HostRuntime) {
    let mut reader = FrameReader::new();
    for (i, feed) in FEEDS.iter().enumerate() {
        if feed.anew {
            reader = FrameReader::new();
        }
        let fed = reader.feed(feed.bytes);
        assert!(rt;
            fed == Fed {
                taken: feed.taken,
                what: feed.what
            },
            "feed {i}"
        );
        assert!(rt; reader.frame().is_some() == feed.buffered, "feed {i}");
    }
}

/// A request is written as the bytes of a Modbus TCP frame.
#[test]
fn a_request_is_written(rt: HostRuntime) {
    let mut pdu = [0; 253];
    let count = encode_request(&ASKED, &mut pdu);
    let mut out = [0; 260];
    let size = write_frame(1, 17, &pdu[..count], &mut out);
    assert!(rt; out.get(..size) == Some(REQUEST.as_slice()));
}

// Returns whether the frame reader has a complete frame with these fields.
fn holds(reader: &FrameReader, tid: u16, unit: u8, pdu: &[u8]) -> bool {
    match reader.frame() {
        Some(frame) => frame.tid == tid && frame.unit == unit && frame.pdu == pdu,
        None => false,
    }
}

/// A frame may arrive one byte at a time.
#[test]
fn single_bytes_make_a_frame(rt: HostRuntime) {
    let mut reader = FrameReader::new();
    for i in 0..15usize {
        assert!(rt; reader.frame().is_none());
        let fed = reader.feed(&REPLY[i..i + 1]);
        let what = if i < 14 {
            Framing::Need
        } else {
            Framing::Whole
        };
        assert!(rt; fed == Fed { taken: 1, what }, "byte {i}");
    }
    assert!(rt; holds(&reader, 1, 17, &REPLY[7..]));
}

/// The longest frame of 260 bytes is read.
#[test]
fn the_longest_frame_is_read(rt: HostRuntime) {
    let mut longest = [0; 260];
    longest[1] = 5;
    longest[5] = 254;
    let mut reader = FrameReader::new();
    let fed = reader.feed(&longest);
    assert!(rt;
        fed == Fed {
            taken: 260,
            what: Framing::Whole
        }
    );
    assert!(rt; holds(&reader, 5, 0, &longest[7..]));
}

// Returns whether the bytes are accepted as a response to the example request, a read of three
// registers of unit 17.
fn is_taken(bytes: &[u8; 15]) -> bool {
    let mut reader = FrameReader::new();
    let fed = reader.feed(bytes);
    match reader.frame() {
        Some(frame) => {
            fed.what == Framing::Whole
                && frame.tid == 1
                && frame.unit == 17
                && decode_reply(&ASKED, frame.pdu).is_ok()
        }
        None => false,
    }
}

/// A frame with a wrong byte in its header is not accepted as a response to the example request, a
/// read of three registers of unit 17.
#[test]
fn a_corrupt_header_is_no_reply(rt: HostRuntime) {
    assert!(rt; is_taken(&REPLY));
    for place in 0..9usize {
        for value in 0..=255u8 {
            let mut bytes = REPLY;
            bytes[place] = value;
            let same = value == REPLY[place];
            assert!(rt; same || !is_taken(&bytes), "byte {place} as {value}");
        }
    }
}
