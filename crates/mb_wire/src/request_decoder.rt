//! Decodes Modbus requests from PDUs, as a device does.
ghost use Rattle.std.specs.Prelude.{◌≡◌, ◌≤◌, ◌<◌, ◌+◌, length, false, None, IfOk};
ghost use Rattle.mb_wire.specs.Requests.{IsLawful, query_of, request_bytes};
ghost use Rattle.mb_wire.specs.RequestFaults.{asked_as, bytes_of, carries_bytes, function_in};
ghost use Rattle.mb_wire.specs.RequestFaults.{is_known, is_unknown_function};
ghost use Rattle.mb_wire.specs.RequestFaults.{is_wrong_request_length, is_wrong_quantity};
ghost use Rattle.mb_wire.specs.RequestFaults.{is_wrong_carried_count, is_wrong_coil_value, most_of};
ghost use Rattle.mb_wire.specs.RequestFaults.{query_from, query_in, request_cleared, request_fault};
ghost use Rattle.mb_wire.specs.RequestFaults.{writes_one};

use crate::bytes::read_number;
use crate::limits::{MAX_READ_COILS, MAX_READ_REGISTERS, MAX_WRITE_COILS, MAX_WRITE_REGISTERS};
use crate::requests::{Request, RequestFault};

// Returns whether the function code is one of the eight that the decoder of requests supports (1 to
// 6, 15 and 16).
fn is_known_function(function: u8) -> bool
    ensures { result ≡ is_known function }
{
    (1 <= function && function <= 6) || function == 15 || function == 16
}

// Returns whether requests with this function code have a byte count and data bytes.
fn carries(function: u8) -> bool
    ensures { result ≡ carries_bytes function }
{
    function == 15 || function == 16
}

fn has_unknown_function(pdu: &[u8]) -> bool
    ensures { result ≡ is_unknown_function pdu.now }
{
    !pdu.is_empty() && !is_known_function(pdu[0])
}

fn has_wrong_length(pdu: &[u8]) -> bool
    ensures { result ≡ is_wrong_request_length pdu.now }
{
    if pdu.is_empty() {
        true
    } else if carries(pdu[0]) {
        pdu.len() < 6 || pdu.len() != 6 + usize::from(pdu[5])
    } else {
        pdu.len() != 5
    }
}

// Returns the greatest quantity that the standard allows for a function code.
fn greatest_quantity(function: u8) -> u16
    ensures { result ≡ most_of function }
{
    if function <= 2 {
        MAX_READ_COILS
    } else if function <= 4 {
        MAX_READ_REGISTERS
    } else if function == 15 {
        MAX_WRITE_COILS
    } else {
        MAX_WRITE_REGISTERS
    }
}

fn has_wrong_quantity(pdu: &[u8]) -> bool
    requires { 5 ≤ length pdu.now }
    ensures { result ≡ is_wrong_quantity pdu.now }
{
    let quantity = read_number(pdu, 3);
    let writes_one = pdu[0] == 5 || pdu[0] == 6;
    !writes_one && (quantity < 1 || quantity > greatest_quantity(pdu[0]))
}

// Returns the number of data bytes in a write request with function code 15 or 16 and the given
// quantity.
fn carried_count(function: u8, quantity: u16) -> u32
    ensures { result ≡ bytes_of function quantity }
{
    if function == 15 {
        (u32::from(quantity) + 7) / 8
    } else {
        2 * u32::from(quantity)
    }
}

fn has_wrong_carried_count(pdu: &[u8]) -> bool
    requires head { 5 ≤ length pdu.now }
    requires length { is_wrong_request_length pdu.now ≡ false }
    ensures { result ≡ is_wrong_carried_count pdu.now }
{
    carries(pdu[0]) && u32::from(pdu[5]) != carried_count(pdu[0], read_number(pdu, 3))
}

fn has_wrong_coil_value(pdu: &[u8]) -> bool
    requires { 5 ≤ length pdu.now }
    ensures { result ≡ is_wrong_coil_value pdu.now }
{
    let value = read_number(pdu, 3);
    let is_coil_value = value == 0 || value == 0xFF00;
    pdu[0] == 5 && !is_coil_value
}

// Returns the first fault of the PDU as a request, or `None` if the PDU is valid.
fn find_fault(pdu: &[u8]) -> Option<RequestFault>
    ensures { result ≡ request_fault pdu.now }
{
    if has_unknown_function(pdu) {
        Some(RequestFault::UnknownFunction)
    } else if has_wrong_length(pdu) {
        Some(RequestFault::WrongLength)
    } else if has_wrong_quantity(pdu) {
        Some(RequestFault::WrongQuantity)
    } else if has_wrong_carried_count(pdu) {
        Some(RequestFault::WrongByteCount)
    } else if has_wrong_coil_value(pdu) {
        Some(RequestFault::WrongCoilValue)
    } else {
        None
    }
}

// Decodes a request PDU with function code 16 that has no fault.
fn read_registers(pdu: &[u8]) -> Request<'_>
    requires fault { request_fault pdu.now ≡ None }
    requires function { function_in pdu.now ≡ 16 }
    ensures value { query_of result ≡ query_from pdu.now }
    ensures lawful { IsLawful result }
{
    Request::WriteRegisters {
        address: read_number(pdu, 1),
        bytes: &pdu[6..],
    }
}

// Decodes a request PDU that has no fault.
fn read_request(pdu: &[u8]) -> Request<'_>
    requires { request_fault pdu.now ≡ None }
    ensures value { query_of result ≡ query_from pdu.now }
    ensures lawful { IsLawful result }
{
    let address = read_number(pdu, 1);
    let field = read_number(pdu, 3);
    match pdu[0] {
        1 => Request::ReadCoils {
            address,
            quantity: field,
        },
        2 => Request::ReadDiscrete {
            address,
            quantity: field,
        },
        3 => Request::ReadHolding {
            address,
            quantity: field,
        },
        4 => Request::ReadInput {
            address,
            quantity: field,
        },
        5 => Request::WriteCoil {
            address,
            on: field == 0xFF00,
        },
        6 => Request::WriteRegister {
            address,
            value: field,
        },
        15 => Request::WriteCoils {
            address,
            quantity: field,
            bytes: &pdu[6..],
        },
        _ => read_registers(pdu),
    }
}

/// Decodes a request from its PDU. On error, returns the first fault that applies.
pub fn decode_request(pdu: &[u8]) -> Result<Request<'_>, RequestFault>
    ensures exact { asked_as result ≡ query_in pdu.now }
    ensures lawful { IfOk result IsLawful }
    ensures writes_back { IfOk result (λ request. request_bytes request ≡ request_cleared pdu.now) }
{
    match find_fault(pdu) {
        Some(fault) => Err(fault),
        None => Ok(read_request(pdu)),
    }
}
