//! Decodes and encodes the PDUs of Modbus responses.
ghost use Rattle.std.specs.Prelude.{◌≡◌, ◌≤◌, ◌+◌, length, take, false, Ok};
ghost use Rattle.std.specs.Prelude.{None, IfOk};
ghost use Rattle.mb_wire.specs.Requests.{IsLawful, query_of};
ghost use Rattle.mb_wire.specs.Replies.{AnswersRequest, FitsRequest, SpellsBack, SpellsReply};
ghost use Rattle.mb_wire.specs.Replies.{answer_bytes, answer_from, answer_of, bit_at};
ghost use Rattle.mb_wire.specs.Replies.{brings_bytes, byte_count, fault_number};
ghost use Rattle.mb_wire.specs.Replies.{is_exception, is_wrong_byte_count, is_wrong_echo};
ghost use Rattle.mb_wire.specs.Replies.{is_wrong_function, is_wrong_length, read_as, reply_fault};
ghost use Rattle.mb_wire.specs.Replies.{reply_of, word_at};

use crate::bytes::{append, append_coils, append_words, head, read_number};
use crate::limits::MAX_PDU;
use crate::requests::{Request, Wanted};
use byteorder::{BigEndian, ByteOrder};

/// A device's response to a Modbus request. The data is borrowed from the PDU.
#[derive(Clone, Copy)]
pub enum Reply<'a> {
    /// Coils or discrete inputs, eight to a byte. The lowest bit of the first byte is the first
    /// coil or input. Spare bits of the last byte are ignored.
    Bits { quantity: u16, bytes: &'a [u8] },
    /// Registers, two bytes each, high byte first.
    Words(&'a [u8]),
    /// A successful write: the response repeats the function code, address and value of the
    /// request.
    Echo,
    /// An exception response with its exception code.
    Exception(u8),
}

/// A reason why a PDU is not a response to a request. If several faults apply, the fault with the
/// lowest numeric code is reported.
#[derive(Clone, Copy, Debug, PartialEq, Eq)]
pub enum ReplyFault {
    /// The first byte of the response differs from the request's function code, and also from this
    /// code with its top bit set.
    WrongFunction,
    /// The PDU is empty, or its length does not match its function and byte count.
    WrongLength,
    /// The byte count of the response does not match the quantity of the request.
    WrongByteCount,
    /// The response to a write request does not repeat the address and value of the request.
    WrongEcho,
}

impl ReplyFault {
    /// Returns the numeric code of a response's fault. The codes begin at 1. Faults are checked in
    /// the order of their codes, and the first fault that applies is reported.
    pub fn number(self) -> u8
        ensures { result ≡ fault_number self }
    {
        match self {
            ReplyFault::WrongFunction => 1,
            ReplyFault::WrongLength => 2,
            ReplyFault::WrongByteCount => 3,
            ReplyFault::WrongEcho => 4,
        }
    }
}

impl Wanted {
    // Returns whether a successful response has a byte count and data bytes. Only the response to a
    // write has none.
    fn brings(self) -> bool
        ensures { result ≡ brings_bytes self }
    {
        match self {
            Wanted::Coils(_) | Wanted::Registers(_) => true,
            Wanted::Head => false,
        }
    }

    // Returns the number of data bytes in a successful response: those of its coils or registers,
    // or 0 for a write.
    fn count(self) -> u32
        ensures { result ≡ byte_count self }
    {
        match self {
            Wanted::Coils(quantity) => (u32::from(quantity) + 7) / 8,
            Wanted::Registers(quantity) => 2 * u32::from(quantity),
            Wanted::Head => 0,
        }
    }
}

// Returns whether the PDU has the request's function code with its top bit set, as exception
// responses do.
fn says_exception(request: &Request<'_>, pdu: &[u8]) -> bool
    requires { 1 ≤ length pdu.now }
    ensures { result ≡ is_exception (query_of request.now) pdu.now }
{
    pdu[0] == request.function() + 0x80
}

fn has_wrong_function(request: &Request<'_>, pdu: &[u8]) -> bool
    ensures { result ≡ is_wrong_function (query_of request.now) pdu.now }
{
    !pdu.is_empty() && pdu[0] != request.function() && !says_exception(request, pdu)
}

fn has_wrong_length(request: &Request<'_>, pdu: &[u8]) -> bool
    ensures { result ≡ is_wrong_length (query_of request.now) pdu.now }
{
    if pdu.is_empty() {
        true
    } else if says_exception(request, pdu) {
        pdu.len() != 2
    } else if request.wanted().brings() {
        pdu.len() < 2 || pdu.len() != 2 + usize::from(pdu[1])
    } else {
        pdu.len() != 5
    }
}

fn has_wrong_byte_count(request: &Request<'_>, pdu: &[u8]) -> bool
    requires { 2 ≤ length pdu.now }
    ensures { result ≡ is_wrong_byte_count (query_of request.now) pdu.now }
{
    let wanted = request.wanted();
    !says_exception(request, pdu) && wanted.brings() && u32::from(pdu[1]) != wanted.count()
}

fn has_wrong_echo(request: &Request<'_>, pdu: &[u8]) -> bool
    requires some { 2 ≤ length pdu.now }
    requires length { is_wrong_length (query_of request.now) pdu.now ≡ false }
    ensures { result ≡ is_wrong_echo (query_of request.now) pdu.now }
{
    if says_exception(request, pdu) || request.wanted().brings() {
        return false;
    }
    read_number(pdu, 1) != request.address() || usize::from(read_number(pdu, 3)) != request.field()
}

// Returns the first fault of the PDU as a response to the request, or `None` if the PDU is valid.
fn find_fault(request: &Request<'_>, pdu: &[u8]) -> Option<ReplyFault>
    ensures { result ≡ reply_fault (query_of request.now) pdu.now }
{
    if has_wrong_function(request, pdu) {
        Some(ReplyFault::WrongFunction)
    } else if has_wrong_length(request, pdu) {
        Some(ReplyFault::WrongLength)
    } else if has_wrong_byte_count(request, pdu) {
        Some(ReplyFault::WrongByteCount)
    } else if has_wrong_echo(request, pdu) {
        Some(ReplyFault::WrongEcho)
    } else {
        None
    }
}

// Decodes a response PDU that has no fault.
fn read_reply<'a>(request: &Request<'_>, pdu: &'a [u8]) -> Reply<'a>
    requires { reply_fault (query_of request.now) pdu.now ≡ None }
    ensures value { answer_of result ≡ answer_from (query_of request.now) pdu.now }
    ensures answers { AnswersRequest request.now result }
{
    if says_exception(request, pdu) {
        return Reply::Exception(pdu[1]);
    }
    match request.wanted() {
        Wanted::Coils(quantity) => Reply::Bits {
            quantity,
            bytes: &pdu[2..],
        },
        Wanted::Registers(_) => Reply::Words(&pdu[2..]),
        Wanted::Head => Reply::Echo,
    }
}

/// Decodes the response to a request from its PDU. On error, returns the first fault that applies.
pub fn decode_reply<'a>(request: &Request<'_>, pdu: &'a [u8]) -> Result<Reply<'a>, ReplyFault>
    ensures exact { read_as result ≡ reply_of request.now pdu.now }
    ensures answers { IfOk result (AnswersRequest request.now) }
    ensures fits { IsLawful request.now → IfOk result (FitsRequest request.now) }
    ensures writes_back { IfOk result (SpellsBack (query_of request.now) pdu.now) }
{
    match find_fault(request, pdu) {
        Some(fault) => Err(fault),
        None => Ok(read_reply(request, pdu)),
    }
}

fn write_reply(request: &Request<'_>, reply: &Reply<'_>, out: &mut [u8; MAX_PDU]) -> usize
    requires { FitsRequest request.now reply.now }
    ensures some { 1 ≤ result }
    ensures few { result ≤ MAX_PDU }
    ensures written { take result out.new ≡
        answer_bytes (query_of request.now) (answer_of reply.now) }
{
    let function = request.function();
    match *reply {
        Reply::Bits { quantity, bytes } => {
            let end = append(out, 0, &[function, bytes.len() as u8]);
            append_coils(out, end, quantity, bytes)
        }
        Reply::Words(bytes) => {
            let end = append(out, 0, &[function, bytes.len() as u8]);
            append_words(out, end, bytes)
        }
        Reply::Echo => {
            let head = head(function, request.address(), request.field() as u16);
            append(out, 0, &head)
        }
        Reply::Exception(code) => append(out, 0, &[function + 0x80, code]),
    }
}

/// Writes the response's PDU to the front of `out`, and returns its length in bytes. Spare bits are
/// written as 0.
pub fn encode_reply(request: &Request<'_>, reply: &Reply<'_>, out: &mut [u8; MAX_PDU]) -> usize
    requires { FitsRequest request.now reply.now }
    ensures some { 1 ≤ result }
    ensures few { result ≤ MAX_PDU }
    ensures written { take result out.new ≡
        answer_bytes (query_of request.now) (answer_of reply.now) }
    ensures spelled { SpellsReply (query_of request.now) (take result out.new)
        (answer_of reply.now) }
    ensures reads_back { reply_of request.now (take result out.new) ≡ Ok (answer_of reply.now) }
{
    write_reply(request, reply, out)
}

impl Reply<'_> {
    /// Returns coil or discrete input `i` (counted from 0) of the response, or `None` if the
    /// response has no such bit.
    pub fn bit(&self, i: usize) -> Option<bool>
        ensures { result ≡ bit_at (answer_of self.now) i }
    {
        match *self {
            Reply::Bits { quantity, bytes } => {
                if i < usize::from(quantity) && i / 8 < bytes.len() {
                    Some((bytes[i / 8] >> (i % 8)) % 2 == 1)
                } else {
                    None
                }
            }
            _ => None,
        }
    }

    /// Returns register `i` (counted from 0) of the response, or `None` if the response has no such
    /// register.
    pub fn word(&self, i: usize) -> Option<u16>
        ensures { result ≡ word_at (answer_of self.now) i }
    {
        match self {
            Reply::Words(bytes) => {
                if i < bytes.len() / 2 {
                    Some(BigEndian::read_u16(&bytes[2 * i..]))
                } else {
                    None
                }
            }
            _ => None,
        }
    }
}
