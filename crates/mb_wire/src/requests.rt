//! Modbus requests, their faults, and the encoding of a request as a PDU.
ghost use Rattle.std.specs.Prelude.{◌≡◌, ◌≤◌, ◌<◌, ◌+◌, ◌++◌, length, take};
ghost use Rattle.std.specs.Prelude.{Ok};
ghost use Rattle.mb_wire.specs.Bytes.{words_of};
ghost use Rattle.mb_wire.specs.Coils.{coils_of};
ghost use Rattle.mb_wire.specs.Requests.{IsLawful, SpellsRequest, query_of};
ghost use Rattle.mb_wire.specs.Requests.{function_of, address_of, field_of, carried_by, coil_value};
ghost use Rattle.mb_wire.specs.Requests.{request_bytes};
ghost use Rattle.mb_wire.specs.RequestFaults.{query_in};
ghost use Rattle.mb_wire.specs.RequestFaults.{request_fault_number};
ghost use Rattle.mb_wire.specs.Replies.{wanted_by};

use crate::bytes::{append, append_coils, append_words, head};
use crate::limits::MAX_PDU;

/// A request to a device (Modbus Application Protocol V1.1b3, section 6). Addresses count from 0.
#[derive(Clone, Copy)]
pub enum Request<'a> {
    /// Function 1: reads coils.
    ReadCoils {
        address: u16,
        quantity: u16,
    },
    /// Function 2: reads discrete inputs.
    ReadDiscrete {
        address: u16,
        quantity: u16,
    },
    /// Function 3: reads holding registers.
    ReadHolding {
        address: u16,
        quantity: u16,
    },
    /// Function 4: reads input registers.
    ReadInput {
        address: u16,
        quantity: u16,
    },
    /// Function 5: writes one coil.
    WriteCoil {
        address: u16,
        on: bool,
    },
    /// Function 6: writes one holding register.
    WriteRegister {
        address: u16,
        value: u16,
    },
    /// Function 15: writes coils, eight to a byte. The lowest bit of the first byte is the first
    /// coil. Spare bits of the last byte are ignored.
    WriteCoils {
        address: u16,
        quantity: u16,
        bytes: &'a [u8],
    },
    /// Function 16: writes holding registers, two bytes each, high byte first.
    WriteRegisters {
        address: u16,
        bytes: &'a [u8],
    },
}

/// A reason why a PDU is not a valid request. If several faults apply, the fault with the lowest
/// numeric code is reported.
#[derive(Clone, Copy, Debug)]
pub enum RequestFault {
    /// The PDU's first byte is none of the eight function codes that the decoder of requests
    /// supports (1 to 6, 15 and 16).
    UnknownFunction,
    /// The PDU is empty, or its length does not match its function and byte count.
    WrongLength,
    /// The Modbus standard does not allow the request's quantity for the request's function code.
    WrongQuantity,
    /// The byte count of a write request does not match its quantity.
    WrongByteCount,
    /// The 16-bit value of a coil is not 0x0000 or 0xFF00.
    WrongCoilValue,
}

// The kind of content after the function code in the PDU of a successful response.
#[derive(Clone, Copy)]
pub(crate) enum Wanted {
    // The response contains a byte count and this number of coils.
    Coils(u16),
    // The response contains a byte count and this number of registers.
    Registers(u16),
    // The response repeats the address of the request and the 16-bit number after it (a value or a
    // quantity).
    Head,
}

impl RequestFault {
    /// Returns the fault's numeric code. The codes begin at 1. Faults are checked in the order of
    /// their codes, and the first fault that applies is reported.
    pub fn number(self) -> u8
        ensures { result ≡ request_fault_number self }
    {
        match self {
            RequestFault::UnknownFunction => 1,
            RequestFault::WrongLength => 2,
            RequestFault::WrongQuantity => 3,
            RequestFault::WrongByteCount => 4,
            RequestFault::WrongCoilValue => 5,
        }
    }
}

impl Request<'_> {
    /// Returns the request's function code.
    pub fn function(&self) -> u8
        ensures { result ≡ function_of (query_of self.now) }
    {
        match self {
            Request::ReadCoils { .. } => 1,
            Request::ReadDiscrete { .. } => 2,
            Request::ReadHolding { .. } => 3,
            Request::ReadInput { .. } => 4,
            Request::WriteCoil { .. } => 5,
            Request::WriteRegister { .. } => 6,
            Request::WriteCoils { .. } => 15,
            Request::WriteRegisters { .. } => 16,
        }
    }

    /// Returns the first address that the request reads or writes.
    pub fn address(&self) -> u16
        ensures { result ≡ address_of (query_of self.now) }
    {
        match *self {
            Request::ReadCoils { address, .. }
            | Request::ReadDiscrete { address, .. }
            | Request::ReadHolding { address, .. }
            | Request::ReadInput { address, .. }
            | Request::WriteCoil { address, .. }
            | Request::WriteRegister { address, .. }
            | Request::WriteCoils { address, .. }
            | Request::WriteRegisters { address, .. } => address,
        }
    }

    // Returns the 16-bit number after the address in the PDU: a quantity or a value.
    pub(crate) fn field(&self) -> usize
        ensures value { result ≡ field_of (query_of self.now) }
        ensures fits { IsLawful self.now → result < 65536 }
    {
        match *self {
            Request::ReadCoils { quantity, .. }
            | Request::ReadDiscrete { quantity, .. }
            | Request::ReadHolding { quantity, .. }
            | Request::ReadInput { quantity, .. } => usize::from(quantity),
            Request::WriteCoil { on, .. } => field_of_coil(on),
            Request::WriteRegister { value, .. } => usize::from(value),
            Request::WriteCoils {
                quantity,
                bytes,
                ..
            } => count_coils(quantity, bytes),
            Request::WriteRegisters { bytes, .. } => count_words(bytes),
        }
    }

    // Returns which content a successful response to the request has: coils, registers, or a
    // repetition of the request's first five bytes.
    pub(crate) fn wanted(&self) -> Wanted
        ensures { result ≡ wanted_by (query_of self.now) }
    {
        match *self {
            Request::ReadCoils { quantity, .. } | Request::ReadDiscrete { quantity, .. } => {
                Wanted::Coils(quantity)
            }
            Request::ReadHolding { quantity, .. } | Request::ReadInput { quantity, .. } => {
                Wanted::Registers(quantity)
            }
            _ => Wanted::Head,
        }
    }
}

// Returns the 16-bit encoding of a coil's value: 0xFF00 for on, 0x0000 for off.
fn field_of_coil(on: bool) -> usize
    ensures { result ≡ coil_value on }
{
    if on { 0xFF00 } else { 0 }
}

// Returns the number of coils in the data bytes, at most `quantity`.
fn count_coils(quantity: u16, bytes: &[u8]) -> usize
    ensures { result ≡ length (coils_of quantity bytes.now) }
{
    usize::from(quantity).min(bytes.len().saturating_mul(8))
}

// Returns the number of complete registers in the data bytes.
fn count_words(bytes: &[u8]) -> usize
    ensures { result ≡ length (words_of bytes.now) }
{
    bytes.len() / 2
}

// Writes the byte count and data of a request after its first five bytes, if its function has data.
fn append_carried(out: &mut [u8; MAX_PDU], end: usize, request: &Request<'_>) -> usize
    requires lawful { IsLawful request.now }
    requires head { end ≡ 5 }
    ensures count { result ≡ end + length (carried_by (query_of request.now)) }
    ensures written { take result out.new ≡ take end out.old ++ carried_by (query_of request.now) }
{
    match *request {
        Request::WriteCoils {
            quantity,
            bytes,
            ..
        } => {
            let counted = append(out, end, &[bytes.len() as u8]);
            append_coils(out, counted, quantity, bytes)
        }
        Request::WriteRegisters { bytes, .. } => {
            let counted = append(out, end, &[bytes.len() as u8]);
            append_words(out, counted, bytes)
        }
        _ => end,
    }
}

fn write_request(request: &Request<'_>, out: &mut [u8; MAX_PDU]) -> usize
    requires { IsLawful request.now }
    ensures some { 1 ≤ result }
    ensures few { result ≤ MAX_PDU }
    ensures written { take result out.new ≡ request_bytes request.now }
    ensures address { address_of (query_of request.now) < 65536 }
    ensures field { field_of (query_of request.now) < 65536 }
{
    let head = head(
        request.function(),
        request.address(),
        request.field() as u16,
    );
    let end = append(out, 0, &head);
    append_carried(out, end, request)
}

/// Writes the request's PDU to the front of `out`, and returns its length in bytes. Spare bits are
/// written as 0.
pub fn encode_request(request: &Request<'_>, out: &mut [u8; MAX_PDU]) -> usize
    requires { IsLawful request.now }
    ensures some { 1 ≤ result }
    ensures few { result ≤ MAX_PDU }
    ensures written { take result out.new ≡ request_bytes request.now }
    ensures spelled { SpellsRequest (take result out.new) (query_of request.now) }
    ensures reads_back { query_in (take result out.new) ≡ Ok (query_of request.now) }
{
    write_request(request, out)
}
