//! Tests the valid length fields of a Modbus TCP header: a unit identifier and a PDU of 1 to 253
//! bytes (Messaging on TCP/IP Implementation Guide V1.0b, section 3.1.3).
use crate::devices::bank_with_nine;
use mb_device::{ServeFault, Server};
use mb_wire::{Fed, FrameReader, Framing, MemoryLink, write_frame};
use std::alloc::Global;
use std::process::Abort;

// A length field, the number of bytes that the frame reader consumes of a frame with this field,
// and the result of feeding the frame.
static LENGTHS: [(u16, usize, Framing); 7] = [
    (0, 6, Framing::Garbled),
    (1, 6, Framing::Garbled),
    (2, 8, Framing::Whole),
    (254, 260, Framing::Whole),
    (255, 6, Framing::Garbled),
    (256, 6, Framing::Garbled),
    (65535, 6, Framing::Garbled),
];

// Returns a frame with this length field and an unknown function code.
fn frame_of(length: u16) -> [u8; 261] {
    let [high, low] = length.to_be_bytes();
    let mut frame = [0x2B; 261];
    frame[..7].copy_from_slice(&[0, 9, 0, 0, high, low, 7]);
    frame
}

/// A reader of Modbus TCP frames accepts length fields from 2 to 254.
#[test]
fn frames_have_lawful_lengths(rt: HostRuntime) {
    for (length, taken, what) in LENGTHS {
        let fed = FrameReader::new().feed(&frame_of(length));
        assert!(rt; fed == Fed { taken, what }, "length {length}");
    }
}

// A length field, the result of a simulated device that reads one frame with this length field, and
// the bytes that the device writes.
static SERVED: [(u16, Result<u64, ServeFault>, &[u8]); 4] = [
    (1, Err(ServeFault::Garbled), &[]),
    (2, Ok(1), &[0, 9, 0, 0, 0, 3, 7, 0xAB, 1]),
    (254, Ok(1), &[0, 9, 0, 0, 0, 3, 7, 0xAB, 1]),
    (255, Err(ServeFault::Garbled), &[]),
];

fn is_served(
    rt: &impl Abort,
    alloc: Global,
    length: u16,
    answer: Result<u64, ServeFault>,
    given: &[u8],
) -> bool {
    let mut bank = bank_with_nine(rt, alloc);
    let frame = frame_of(length);
    let input = &frame[..usize::from(length).min(255) + 6];
    let mut output = [0; 16];
    let mut link = MemoryLink::new(input, &mut output, 300, None);
    let served = Server::new().serve(&mut link, &mut bank, 2);
    served == answer && link.given() == given
}

/// A simulated device responds to frames with length fields from 2 to 254.
#[test]
fn frames_of_lawful_lengths_are_served(rt: HostRuntime) {
    for (length, answer, given) in SERVED {
        let served = is_served(&rt, rt.alloc(), length, answer, given);
        assert!(rt; served, "length {length}");
    }
}

// The length of a PDU in bytes, the length of its frame, and the two bytes of the frame's length
// field.
static WRITTEN: [(usize, usize, [u8; 2]); 2] = [(1, 8, [0, 2]), (253, 260, [0, 254])];

/// A frame is written with the length field that its PDU requires.
#[test]
fn frames_are_written_with_their_lengths(rt: HostRuntime) {
    let pdu = [3; 253];
    for (count, size, length) in WRITTEN {
        let mut out = [0; 260];
        let written = write_frame(5, 1, &pdu[..count.clamp(1, 253)], &mut out);
        assert!(rt; written == size && out[4..6] == length[..], "{count}");
    }
}
