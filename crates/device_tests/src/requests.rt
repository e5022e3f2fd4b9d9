//! Tests the decoding and encoding of Modbus requests.
use crate::examples::EXAMPLES;
use mb_wire::{decode_request, encode_request};

// PDUs that are not valid requests, and the numeric codes of their faults.
static FAULTS: [(&[u8], u8); 12] = [
    (&[0x2B, 0x0E], 1),
    (&[0x83, 0], 1),
    (&[3, 0, 107, 0], 2),
    (&[], 2),
    (&[16, 0, 1], 2),
    (&[16, 0, 0, 0, 0, 0], 3),
    (&[1, 0, 0, 0x07, 0xD1], 3),
    (&[3, 0, 0, 0, 126], 3),
    (&[15, 0, 19, 0, 10, 1, 0xCD], 4),
    (&[16, 0, 1, 0, 2, 2, 0, 10], 4),
    (&[5, 0, 1, 0x12, 0x34], 5),
    (&[5, 0, 1, 0, 1], 5),
];

/// Returns whether `pdu` decodes as a request that encodes to `bytes`.
pub(crate) fn is_written_as(pdu: &[u8], bytes: &[u8]) -> bool {
    let mut out = [0; 253];
    match decode_request(pdu) {
        Ok(request) => {
            let count = encode_request(&request, &mut out);
            out.get(..count) == Some(bytes)
        }
        Err(_) => false,
    }
}

/// The requests in the Modbus standard's examples decode, and encode to the same bytes.
#[test]
fn examples_of_the_standard_come_back(rt: HostRuntime) {
    for (i, example) in EXAMPLES.iter().enumerate() {
        assert!(rt;
            is_written_as(example.request, example.request),
            "example {i}"
        );
    }
}

/// The unused bits in the last byte of a request's coils are encoded as 0.
#[test]
fn spare_bits_are_written_as_zero(rt: HostRuntime) {
    let asked = [15, 0, 19, 0, 10, 2, 0xCD, 0xFD];
    let written = [15, 0, 19, 0, 10, 2, 0xCD, 1];
    assert!(rt; is_written_as(&asked, &written));
}

// Returns the function code and the address of the request that a PDU encodes.
fn head_of(pdu: &[u8]) -> Option<(u8, u16)> {
    let request = decode_request(pdu).ok()?;
    Some((request.function(), request.address()))
}

/// A decoded request has the function code and the address of its PDU.
#[test]
fn a_request_has_its_function_and_address(rt: HostRuntime) {
    assert!(rt; head_of(&[1, 0, 19, 0, 19]) == Some((1, 19)));
}

/// Returns the numeric code of the PDU's fault as a request, or `None` if the PDU is valid.
pub(crate) fn fault_in(pdu: &[u8]) -> Option<u8> {
    let fault = decode_request(pdu).err()?;
    Some(fault.number())
}

/// Each fault of a Modbus request has its expected numeric code.
#[test]
fn faults_have_their_numbers(rt: HostRuntime) {
    for (i, (pdu, number)) in FAULTS.iter().enumerate() {
        assert!(rt; fault_in(pdu) == Some(*number), "PDU {i}");
    }
}
