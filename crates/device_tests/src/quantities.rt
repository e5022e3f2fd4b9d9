//! Tests each quantity limit of the Modbus standard and the first value beyond it (Modbus
//! Application Protocol V1.1b3, sections 6.1 to 6.12).
use crate::replies::{bit_in, comes_back, word_in};
use crate::requests::{self, is_written_as};
use mb_wire::{Request, decode_reply, decode_request};

// A request PDU: its function code, the number after its address, its byte count, and its length in
// bytes. The last number is the numeric code of the PDU's fault, or 0 if the PDU is valid.
static REQUESTS: [(u8, u16, u8, usize, u8); 36] = [
    // Test cases: requests that read coils and discrete inputs, with quantities within the limits
    // and beyond them.
    (1, 0, 0, 5, 3),
    (1, 1, 0, 5, 0),
    (1, 2000, 0, 5, 0),
    (1, 2001, 0, 5, 3),
    (1, 65535, 0, 5, 3),
    (2, 0, 0, 5, 3),
    (2, 1, 0, 5, 0),
    (2, 2000, 0, 5, 0),
    (2, 2001, 0, 5, 3),
    (2, 65535, 0, 5, 3),
    // Test cases: requests that read registers, with quantities within the limits and beyond them.
    (3, 0, 0, 5, 3),
    (3, 1, 0, 5, 0),
    (3, 125, 0, 5, 0),
    (3, 126, 0, 5, 3),
    (3, 65535, 0, 5, 3),
    (4, 0, 0, 5, 3),
    (4, 1, 0, 5, 0),
    (4, 125, 0, 5, 0),
    (4, 126, 0, 5, 3),
    (4, 65535, 0, 5, 3),
    // Test cases: requests that write one coil with a valid or an invalid value, or one register.
    (5, 0x0000, 0, 5, 0),
    (5, 0xFF00, 0, 5, 0),
    (5, 0xFF01, 0, 5, 5),
    (5, 0x00FF, 0, 5, 5),
    (6, 0, 0, 5, 0),
    (6, 65535, 0, 5, 0),
    // Test cases: requests that write several coils, with quantities within the limits and beyond
    // them.
    (15, 0, 0, 6, 3),
    (15, 8, 1, 7, 0),
    (15, 1968, 246, 252, 0),
    (15, 1968, 247, 253, 4),
    (15, 1969, 247, 253, 3),
    // Test cases: requests that write several registers, with quantities within the limits and
    // beyond them.
    (16, 0, 0, 6, 3),
    (16, 1, 2, 8, 0),
    (16, 123, 246, 252, 0),
    (16, 123, 244, 250, 4),
    (16, 124, 248, 254, 3),
];

/// Returns a request PDU that has the value `following` in each byte after the byte count.
pub(crate) fn request_of(
    function: u8,
    address: u16,
    number: u16,
    count: u8,
    following: u8,
) -> [u8; 254] {
    let [address_high, address_low] = address.to_be_bytes();
    let [high, low] = number.to_be_bytes();
    let mut pdu = [following; 254];
    pdu[..6].copy_from_slice(&[function, address_high, address_low, high, low, count]);
    pdu
}

// Returns the numeric code of the PDU's fault as a request, or 0 if the PDU decodes and encodes to
// the same bytes.
fn reported_quantity(pdu: &[u8]) -> Option<u8> {
    if is_written_as(pdu, pdu) {
        Some(0)
    } else {
        requests::fault_in(pdu)
    }
}

/// Requests are accepted with exactly the quantities that the Modbus standard allows.
#[test]
fn requests_have_lawful_quantities(rt: HostRuntime) {
    for (function, number, count, length, fault) in REQUESTS {
        let pdu = request_of(function, 0, number, count, 1);
        let found = reported_quantity(&pdu[..length.min(254)]);
        assert!(rt; found == Some(fault), "function {function}, {number}");
    }
}

// The function code and quantity of a read, and the byte count and length in bytes of a response
// PDU. The last number is the numeric code of the response's fault, or 0 if the PDU is valid.
static REPLIES: [(u8, u16, u8, usize, u8); 20] = [
    (1, 1, 1, 3, 0),
    (1, 8, 1, 3, 0),
    (1, 9, 1, 3, 3),
    (1, 9, 2, 4, 0),
    (1, 2000, 250, 252, 0),
    (1, 2000, 249, 251, 3),
    (1, 2000, 251, 253, 3),
    (1, 2000, 250, 253, 2),
    (2, 2000, 250, 252, 0),
    (2, 2000, 249, 251, 3),
    (2, 2000, 251, 253, 3),
    (3, 1, 2, 4, 0),
    (3, 125, 250, 252, 0),
    (3, 125, 248, 250, 3),
    (3, 125, 252, 254, 3),
    (3, 125, 250, 251, 2),
    (4, 1, 2, 4, 0),
    (4, 125, 250, 252, 0),
    (4, 125, 248, 250, 3),
    (4, 125, 252, 254, 3),
];

// Returns a response in which all bytes after the byte count are 1.
fn reply_of(function: u8, count: u8) -> [u8; 254] {
    let mut pdu = [1; 254];
    pdu[..2].copy_from_slice(&[function, count]);
    pdu
}

// Returns the numeric code of the PDU's fault as a response, or 0 if the PDU decodes and encodes to
// the same bytes.
fn reported_response(asked: &[u8], pdu: &[u8]) -> Option<u8> {
    if comes_back(asked, pdu) == Some(true) {
        return Some(0);
    }
    let request = decode_request(asked).ok()?;
    Some(decode_reply(&request, pdu).err()?.number())
}

/// Responses are accepted with exactly the quantity of data that was requested.
#[test]
fn replies_bring_what_was_asked_for(rt: HostRuntime) {
    for (function, quantity, count, length, fault) in REPLIES {
        let asked = request_of(function, 0, quantity, 0, 1);
        let pdu = reply_of(function, count);
        let found = reported_response(&asked[..5], &pdu[..length.min(254)]);
        assert!(rt; found == Some(fault), "function {function}, {quantity}");
    }
}

// The index and the value of the last two coils of the longest response, and the index after them.
// Only the highest bit of each byte is on.
static LAST_BITS: [(usize, Option<bool>); 3] = [
    (1998, Some(false)),
    (1999, Some(true)),
    (2000, None),
];

static LAST_WORDS: [(usize, Option<u16>); 2] = [(124, Some(0x8080)), (125, None)];

// Returns a response of 252 bytes, all 0x80 except the function code and the byte count.
fn longest_reply(function: u8) -> [u8; 252] {
    let mut pdu = [0x80; 252];
    pdu[..2].copy_from_slice(&[function, 250]);
    pdu
}

/// The longest responses can be read up to their last value.
#[test]
fn the_longest_replies_are_read_to_their_ends(rt: HostRuntime) {
    let inputs = Request::ReadDiscrete {
        address: 0,
        quantity: 2000,
    };
    for (i, on) in LAST_BITS {
        assert!(rt; bit_in(&inputs, &longest_reply(2), i) == on, "input {i}");
    }
    let registers = Request::ReadInput {
        address: 0,
        quantity: 125,
    };
    for (i, word) in LAST_WORDS {
        let found = word_in(&registers, &longest_reply(4), i);
        assert!(rt; found == word, "register {i}");
    }
}
