//! Tests the decoding and encoding of Modbus responses.
use crate::examples::EXAMPLES;
use mb_wire::{Reply, ReplyFault, Request, decode_reply, decode_request, encode_reply};

static HOLDING: Request<'static> = Request::ReadHolding {
    address: 107,
    quantity: 3,
};

static INPUT: Request<'static> = Request::ReadInput {
    address: 8,
    quantity: 1,
};

static COIL: Request<'static> = Request::WriteCoil {
    address: 172,
    on: true,
};

/// Returns whether the response `answered` to the request `asked` decodes and encodes to the same
/// bytes, or `None` if it does not decode.
pub(crate) fn comes_back(asked: &[u8], answered: &[u8]) -> Option<bool> {
    let mut out = [0; 253];
    let request = decode_request(asked).ok()?;
    let reply = decode_reply(&request, answered).ok()?;
    let count = encode_reply(&request, &reply, &mut out);
    Some(out.get(..count) == Some(answered))
}

/// The responses in the Modbus standard's examples decode, and encode to the same bytes.
#[test]
fn examples_of_the_standard_come_back(rt: HostRuntime) {
    for (i, example) in EXAMPLES.iter().enumerate() {
        assert!(rt;
            comes_back(example.request, example.reply) == Some(true),
            "example {i}"
        );
    }
}

// Invalid responses to a read of holding registers, and then invalid responses to a write of a
// coil. Each has its expected fault and the fault's numeric code.
static READ_FAULTS: [(&[u8], ReplyFault, u8); 6] = [
    (&[0x84, 2], ReplyFault::WrongFunction, 1),
    (&[4, 6, 0, 1, 0, 2, 0, 3], ReplyFault::WrongFunction, 1),
    (&[], ReplyFault::WrongLength, 2),
    (&[0x83, 2, 0], ReplyFault::WrongLength, 2),
    (&[3, 6, 0, 1], ReplyFault::WrongLength, 2),
    (&[3, 4, 0, 0, 0, 0], ReplyFault::WrongByteCount, 3),
];

static ECHO_FAULTS: [(&[u8], ReplyFault, u8); 2] = [
    (&[5, 0, 173, 0xFF, 0], ReplyFault::WrongEcho, 4),
    (&[5, 0, 172, 0xFF], ReplyFault::WrongLength, 2),
];

// Decodes a PDU as the response to a request. Returns the fault that the decoder finds in the PDU,
// and the fault's numeric code.
fn fault_in(request: &Request<'_>, pdu: &[u8]) -> Option<(ReplyFault, u8)> {
    let fault = decode_reply(request, pdu).err()?;
    Some((fault, fault.number()))
}

/// Each fault of a Modbus response has its expected numeric code.
#[test]
fn faults_have_their_numbers(rt: HostRuntime) {
    for (pdu, fault, number) in READ_FAULTS {
        assert!(rt; fault_in(&HOLDING, pdu) == Some((fault, number)));
    }
    for (pdu, fault, number) in ECHO_FAULTS {
        assert!(rt; fault_in(&COIL, pdu) == Some((fault, number)));
    }
}

/// Returns register `i` of a response, or `None` if the response does not decode or has no such
/// register.
pub(crate) fn word_in(request: &Request<'_>, pdu: &[u8], i: usize) -> Option<u16> {
    decode_reply(request, pdu).ok()?.word(i)
}

/// Returns coil or discrete input `i` of a response, or `None` if the response does not decode or
/// has no such bit.
pub(crate) fn bit_in(request: &Request<'_>, pdu: &[u8], i: usize) -> Option<bool> {
    decode_reply(request, pdu).ok()?.bit(i)
}

static WORDS: [(usize, Option<u16>); 4] = [(0, Some(555)), (1, Some(0)), (2, Some(100)), (3, None)];

/// The registers of a response have the values that its bytes encode.
#[test]
fn registers_are_read(rt: HostRuntime) {
    for (i, word) in WORDS {
        let found = word_in(&HOLDING, &[3, 6, 2, 43, 0, 0, 0, 100], i);
        assert!(rt; found == word, "register {i}");
    }
    assert!(rt; word_in(&INPUT, &[4, 2, 0, 10], 0) == Some(10));
    assert!(rt; word_in(&INPUT, &[4, 2, 0, 10], 1).is_none());
}

/// Exception responses and responses to writes have the values that their bytes encode.
#[test]
fn exceptions_and_echoes_are_read(rt: HostRuntime) {
    let refused = decode_reply(&HOLDING, &[0x83, 2]);
    assert!(rt; matches!(refused, Ok(Reply::Exception(2))));
    let echo = decode_reply(&COIL, &[5, 0, 172, 0xFF, 0]);
    assert!(rt; matches!(echo, Ok(Reply::Echo)));
    assert!(rt; word_in(&COIL, &[5, 0, 172, 0xFF, 0], 0).is_none());
    assert!(rt; bit_in(&COIL, &[5, 0, 172, 0xFF, 0], 0).is_none());
}

static COILS: Request<'static> = Request::ReadCoils {
    address: 19,
    quantity: 19,
};

static BITS: [(usize, Option<bool>); 10] = [
    (0, Some(true)),
    (1, Some(false)),
    (2, Some(true)),
    (7, Some(true)),
    (8, Some(true)),
    (9, Some(true)),
    (10, Some(false)),
    (17, Some(false)),
    (18, Some(true)),
    (19, None),
];

/// The first coil of a response is the lowest bit of the first byte.
#[test]
fn coils_are_read_from_the_lowest_bit(rt: HostRuntime) {
    for (i, on) in BITS {
        assert!(rt;
            bit_in(&COILS, &[1, 3, 0xCD, 0x6B, 0x05], i) == on,
            "coil {i}"
        );
    }
    assert!(rt; word_in(&COILS, &[1, 3, 0xCD, 0x6B, 0x05], 0).is_none());
}
