//! Executes each kind of request on a table of the register map, and writes the response.
ghost use Rattle.std.specs.Prelude.{◌≡◌, ◌≤◌, ◌+◌, ◌*◌, ◌/◌, ◌∷◌, [], length, take, is_some, true};
ghost use Rattle.std.specs.List.{list_all};
ghost use Rattle.mb_wire.specs.Bytes.{words_of};
ghost use Rattle.mb_wire.specs.Coils.{bytes_for, coils_of};
ghost use Rattle.mb_wire.specs.Requests.{IsLawful, IsWithin, query_of};
ghost use Rattle.mb_wire.specs.Replies.{Echo, WantsCoils, WantsHead, WantsRegisters, answer_bytes};
ghost use Rattle.mb_device.specs.Device.{bits_at, code_of_fault, coils_written, exception_bytes};
ghost use Rattle.mb_device.specs.Device.{if_there, words_at, words_written};
ghost use Rattle.mb_device.specs.Maps.{are_there};

use crate::packed_values::{MAX_BYTES, pack_coils, pack_words, write_coils, write_words};
use mb_wire::{
    MAX_PDU, MAX_READ_COILS, MAX_READ_REGISTERS, MAX_WRITE_REGISTERS, Reply, Request, RequestFault,
    encode_reply,
};

// Returns the Modbus exception code for a fault of a request.
pub(crate) fn code_of(fault: RequestFault) -> u8
    ensures { result ≡ code_of_fault fault }
{
    match fault {
        RequestFault::UnknownFunction => 1,
        RequestFault::WrongLength => 3,
        RequestFault::WrongQuantity => 3,
        RequestFault::WrongByteCount => 3,
        RequestFault::WrongCoilValue => 3,
    }
}

// Writes an exception response with this function code and exception code, and returns its length
// in bytes.
pub(crate) fn refuse(function: u8, code: u8, out: &mut [u8; MAX_PDU]) -> usize
    ensures count { result ≡ 2 }
    ensures written { take result out.new ≡ exception_bytes function code }
{
    let first = if function < 0x80 {
        function + 0x80
    } else {
        function
    };
    out[..2].copy_from_slice(&[first, code]);
    2
}

// Returns whether the device has all `count` addresses of the table from `address`.
fn has_all(table: &[Option<u16>], address: u16, count: u16) -> bool
    ensures { result ≡ are_there table.now address count }
{
    let first = usize::from(address);
    let end = first + usize::from(count);
    end <= table.len() && are_some(&table[first..end])
}

fn are_some(values: &[Option<u16>]) -> bool
    ensures { result ≡ list_all (λ value. is_some value) values.now }
{
    values.iter().all(|value| value.is_some())
}

// Returns whether the device has every address that a write of coils changes.
fn has_coils(table: &[Option<u16>], address: u16, quantity: u16, bytes: &[u8]) -> bool
    requires { length bytes.now ≡ bytes_for quantity }
    ensures value { result ≡ are_there table.now address (length (coils_of quantity bytes.now)) }
    ensures fits { result ≡ true → address + quantity ≤ length table.now }
{
    has_all(table, address, quantity)
}

// Returns whether the device has every address that a write of registers changes.
fn has_words(table: &[Option<u16>], address: u16, bytes: &[u8]) -> bool
    requires { length bytes.now ≤ 2 * MAX_WRITE_REGISTERS }
    ensures value { result ≡ are_there table.now address (length (words_of bytes.now)) }
    ensures fits { result ≡ true → address + length bytes.now / 2 ≤ length table.now }
{
    has_all(table, address, (bytes.len() / 2) as u16)
}

// Writes the response to a read of coils or discrete inputs, and returns the response's length in
// bytes.
pub(crate) fn answer_bits(
    table: &[Option<u16>],
    request: &Request<'_>,
    address: u16,
    quantity: u16,
    out: &mut [u8; MAX_PDU],
) -> usize
    requires lawful { IsLawful request.now }
    requires within { IsWithin quantity MAX_READ_COILS }
    requires wanted { WantsCoils (query_of request.now) quantity }
    ensures some { 1 ≤ result }
    ensures few { result ≤ MAX_PDU }
    ensures written { take result out.new ≡
        answer_bytes (query_of request.now) (bits_at table.now address quantity) }
{
    if has_all(table, address, quantity) {
        let first = usize::from(address);
        let mut bytes = [0; MAX_BYTES];
        let count = pack_coils(&table[first..first + usize::from(quantity)], &mut bytes);
        let reply = Reply::Bits {
            quantity,
            bytes: &bytes[..count],
        };
        encode_reply(request, &reply, out)
    } else {
        encode_reply(request, &Reply::Exception(2), out)
    }
}

// Writes the response to a read of registers, and returns the response's length in bytes.
pub(crate) fn answer_words(
    table: &[Option<u16>],
    request: &Request<'_>,
    address: u16,
    quantity: u16,
    out: &mut [u8; MAX_PDU],
) -> usize
    requires lawful { IsLawful request.now }
    requires within { IsWithin quantity MAX_READ_REGISTERS }
    requires wanted { WantsRegisters (query_of request.now) quantity }
    ensures some { 1 ≤ result }
    ensures few { result ≤ MAX_PDU }
    ensures written { take result out.new ≡
        answer_bytes (query_of request.now) (words_at table.now address quantity) }
{
    if has_all(table, address, quantity) {
        let first = usize::from(address);
        let mut bytes = [0; MAX_BYTES];
        let count = pack_words(&table[first..first + usize::from(quantity)], &mut bytes);
        encode_reply(request, &Reply::Words(&bytes[..count]), out)
    } else {
        encode_reply(request, &Reply::Exception(2), out)
    }
}

// Executes a write of one coil, writes the response, and returns the response's length in bytes.
pub(crate) fn answer_coil(
    table: &mut [Option<u16>],
    request: &Request<'_>,
    address: u16,
    on: bool,
    out: &mut [u8; MAX_PDU],
) -> usize
    requires lawful { IsLawful request.now }
    requires wanted { WantsHead (query_of request.now) }
    ensures some { 1 ≤ result }
    ensures few { result ≤ MAX_PDU }
    ensures written { take result out.new ≡
        answer_bytes (query_of request.now) (if_there table.old address 1 Echo) }
    ensures after { table.new ≡ coils_written table.old address (on ∷ []) }
{
    if has_all(table, address, 1) {
        table[usize::from(address)] = Some(u16::from(on));
        encode_reply(request, &Reply::Echo, out)
    } else {
        encode_reply(request, &Reply::Exception(2), out)
    }
}

// Executes a write of several coils, writes the response, and returns the response's length in
// bytes.
pub(crate) fn answer_coils(
    table: &mut [Option<u16>],
    request: &Request<'_>,
    address: u16,
    quantity: u16,
    bytes: &[u8],
    out: &mut [u8; MAX_PDU],
) -> usize
    requires lawful { IsLawful request.now }
    requires count { length bytes.now ≡ bytes_for quantity }
    requires wanted { WantsHead (query_of request.now) }
    ensures some { 1 ≤ result }
    ensures few { result ≤ MAX_PDU }
    ensures written { take result out.new ≡ answer_bytes (query_of request.now)
        (if_there table.old address (length (coils_of quantity bytes.now)) Echo) }
    ensures after { table.new ≡ coils_written table.old address (coils_of quantity bytes.now) }
{
    if has_coils(table, address, quantity, bytes) {
        write_coils(table, usize::from(address), quantity, bytes);
        encode_reply(request, &Reply::Echo, out)
    } else {
        encode_reply(request, &Reply::Exception(2), out)
    }
}

// Executes a write of several registers, writes the response, and returns the response's length in
// bytes.
pub(crate) fn answer_registers(
    table: &mut [Option<u16>],
    request: &Request<'_>,
    address: u16,
    bytes: &[u8],
    out: &mut [u8; MAX_PDU],
) -> usize
    requires lawful { IsLawful request.now }
    requires count { length bytes.now ≤ 2 * MAX_WRITE_REGISTERS }
    requires wanted { WantsHead (query_of request.now) }
    ensures some { 1 ≤ result }
    ensures few { result ≤ MAX_PDU }
    ensures written { take result out.new ≡ answer_bytes (query_of request.now)
        (if_there table.old address (length (words_of bytes.now)) Echo) }
    ensures after { table.new ≡ words_written table.old address (words_of bytes.now) }
{
    if has_words(table, address, bytes) {
        write_words(table, usize::from(address), bytes);
        encode_reply(request, &Reply::Echo, out)
    } else {
        encode_reply(request, &Reply::Exception(2), out)
    }
}
