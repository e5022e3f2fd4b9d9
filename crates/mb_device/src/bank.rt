//! The register map of a simulated device.
ghost use Rattle.std.specs.Prelude.{◌≡◌, ◌≤◌, ◌<◌, ◌+◌, ◌↔◌, IfOk, Ok, Err, take};
ghost use Rattle.std.specs.Prelude.{true, false, is_some, if◌then◌else◌, length};
ghost use Rattle.std.specs.Prelude.{None};
ghost use Rattle.std.specs.List.{list_any};
ghost use Rattle.mb_device.specs.Areas.{Adds, AllBeginAs, BeginsAs, any_overlap, begun_from};
ghost use Rattle.mb_device.specs.Areas.{contains, first_value, is_out_of_range, overlap};
ghost use Rattle.mb_wire.specs.Requests.{IsLawful, query_of};
ghost use Rattle.mb_device.specs.Device.{answer_to, maps_after, maps_for, reply_for};
ghost use Rattle.mb_device.specs.Maps.{HasAllAddresses, Maps, kept, table_of, value_at, value_in, values_at};
ghost use Rattle.mb_device.specs.Maps.{with_table, written};

use crate::answer::{
    answer_bits, answer_coil, answer_coils, answer_registers, answer_words, code_of, refuse,
};
use crate::kinds::{Area, BankFault, Kind};
use mb_wire::{ADDRESSES, MAX_PDU, Request, decode_request};
use std::alloc::{AllocError, Global};
use std::marker::Model;

/// The register map of a simulated device: the values of each kind, by address.
#[derive(Drop)]
pub struct Bank {
    coils: Vec<Option<u16>>,
    discretes: Vec<Option<u16>>,
    holdings: Vec<Option<u16>>,
    inputs: Vec<Option<u16>>,
}

impl Model for Bank {
    ghost use Rattle.mb_device.specs.Maps.{Maps};

    ghost Value = { Maps };

    ghost view = { λ bank. record {
      coils = bank.coils.items;
      discretes = bank.discretes.items;
      holdings = bank.holdings.items;
      inputs = bank.inputs.items;
    } };
}

// Returns whether `area`, a range of addresses of one kind (such as holding registers), shares an
// address with an area of the same kind in `others`.
fn overlaps_any(area: &Area, others: &[Area]) -> bool
    ensures { result ≡ list_any (λ other. overlap area.now other) others.now }
{
    others.iter().any(|other| area.overlaps(other))
}

// Returns whether any two areas in the list have the same kind and share an address. An area is a
// range of addresses of one kind, such as holding registers.
fn has_overlap(areas: &[Area]) -> bool
    ensures { result ≡ any_overlap areas.now }
{
    match areas {
        [] => false,
        [area, others @ ..] => overlaps_any(area, others) || has_overlap(others),
    }
}

// Returns whether an area (a range of addresses of one kind, such as holding registers) in the list
// is empty or extends past address 65535.
fn has_out_of_range(areas: &[Area]) -> bool
    ensures { result ≡ list_any is_out_of_range areas.now }
{
    areas.iter().any(|area| area.is_out_of_range())
}

// Returns whether an area (a range of addresses) in the list has the given kind and contains the
// given address.
fn any_contains(areas: &[Area], kind: Kind, address: u64) -> bool
    ensures { result ≡ list_any (λ area. contains kind address area) areas.now }
{
    areas.iter().any(|area| area.contains(kind, address))
}

// Returns the initial value at an address of the given kind: 0, or `None` if no area (address
// range) of this kind contains the address.
fn begin(areas: &[Area], kind: Kind, address: u64) -> Option<u16>
    ensures { result ≡ first_value areas.now kind address }
{
    if any_contains(areas, kind, address) {
        Some(0)
    } else {
        None
    }
}

// Creates the initial table of one kind of values (such as holding registers) from the areas
// (address ranges) of the device.
fn begin_table(alloc: Global, areas: &[Area], kind: Kind) -> Result<Vec<Option<u16>>, AllocError>
    ensures values { IfOk result (λ table. BeginsAs areas.now kind table.items) }
    ensures end { IfOk result (λ table. length table.items ≡ ADDRESSES) }
{
    let mut table = Vec::with_capacity(alloc, ADDRESSES as usize)?;
    for address in 0..u64::from(ADDRESSES) {
        table.push(begin(areas, kind, address))?;
    }
    Ok(table)
}

// Returns whether the device has at least one of the addresses in a part `values` of a table. An
// address that the device does not have has the value `None`.
fn any_some(values: &[Option<u16>]) -> bool
    ensures { result ≡ list_any (λ value. is_some value) values.now }
{
    values.iter().any(|value| value.is_some())
}

// Returns whether the device has at least one of the `count` addresses from `start` on. `table` has
// an entry for each address of one kind, `None` for an address that the device does not have.
#[tactic(auto, using(crate::proofs::Adding::cut))]
fn has_some(table: &[Option<u16>], start: usize, count: usize) -> bool
    ensures { result ≡ list_any (λ value. is_some value) (values_at table.now start count) }
{
    let rest = &table[start.min(table.len())..];
    any_some(&rest[..count.min(rest.len())])
}

// Sets the values at `count` addresses of a device's table of values (for one kind of addresses,
// such as holding registers) to 0, from address `start` on.
#[tactic(auto, using(crate::proofs::Adding::pasted))]
fn begin_area(table: &mut Vec<Option<u16>>, start: usize, count: usize)
    requires { start + count ≤ length table.old.items }
    ensures { table.new.items ≡ begun_from table.old.items start count }
{
    for place in 0..count {
        table[start + place] = Some(0);
    }
}

// Adds an area (a range of addresses of one kind, such as holding registers) to the table of this
// kind, if the device has none of the addresses yet.
fn add_to(table: &mut Vec<Option<u16>>, start: u16, count: u32) -> Result<(), BankFault>
    ensures { Adds table.old.items start count result table.new.items }
{
    let start = usize::from(start);
    let count = count as usize;
    if has_some(table.as_slice(), start, count) {
        return Err(BankFault::AreasOverlap);
    }
    if count == 0 || table.len() < start + count {
        return Err(BankFault::OutOfRange);
    }
    begin_area(table, start, count);
    Ok(())
}

// Writes a value to an address of a simulated device's table of values. Returns whether the device
// has that address.
fn write(table: &mut Vec<Option<u16>>, address: u16, value: u16) -> bool
    ensures there { result ≡ is_some (value_in table.old.items address) }
    ensures after { table.new.items ≡ written table.old.items address value }
{
    let place = usize::from(address);
    if place < table.len() && table[place].is_some() {
        table[place] = Some(value);
        true
    } else {
        false
    }
}

impl Bank {
    /// Creates the register map of a device that has these areas (ranges of addresses of one kind,
    /// such as holding registers), with all values 0.
    pub fn new(alloc: Global, areas: &[Area]) -> Result<Bank, BankFault>
        ensures overlap { (result ≡ Err BankFault.AreasOverlap) ↔ (any_overlap areas.now ≡ true) }
        ensures range { (result ≡ Err BankFault.OutOfRange) ↔
            ((any_overlap areas.now ≡ false) × (list_any is_out_of_range areas.now ≡ true)) }
        ensures values { IfOk result (AllBeginAs areas.now) }
        ensures addresses { IfOk result HasAllAddresses }
    {
        if has_overlap(areas) {
            return Err(BankFault::AreasOverlap);
        }
        if has_out_of_range(areas) {
            return Err(BankFault::OutOfRange);
        }
        Bank::begin(alloc, areas).map_err(|_| BankFault::Memory)
    }

    fn begin(alloc: Global, areas: &[Area]) -> Result<Bank, AllocError>
        ensures values { IfOk result (AllBeginAs areas.now) }
        ensures addresses { IfOk result HasAllAddresses }
    {
        Ok(Bank {
            coils: begin_table(alloc, areas, Kind::Coil)?,
            discretes: begin_table(alloc, areas, Kind::Discrete)?,
            holdings: begin_table(alloc, areas, Kind::Holding)?,
            inputs: begin_table(alloc, areas, Kind::Input)?,
        })
    }

    /// Adds an area (a range of addresses) with all values 0 to the register map. On error, nothing
    /// changes.
    pub fn add(&mut self, area: &Area) -> Result<(), BankFault>
        ensures added { Adds (table_of self.old area.now.kind) area.now.start area.now.count
            result (table_of self.new area.now.kind) }
        ensures others { self.new ≡
            with_table self.old area.now.kind (table_of self.new area.now.kind) }
    {
        let Area { kind, start, count } = *area;
        match kind {
            Kind::Coil => add_to(&mut self.coils, start, count),
            Kind::Discrete => add_to(&mut self.discretes, start, count),
            Kind::Holding => add_to(&mut self.holdings, start, count),
            Kind::Input => add_to(&mut self.inputs, start, count),
        }
    }

    /// Writes the value at an address. Returns whether the device has that address. For a coil or a
    /// discrete input, any value except 0 is stored as 1.
    pub fn set(&mut self, kind: Kind, address: u16, value: u16) -> bool
        ensures there { result ≡ is_some (value_at self.old kind address) }
        ensures after { self.new ≡
            with_table self.old kind (written (table_of self.old kind) address (kept kind value)) }
    {
        match kind {
            Kind::Coil => write(&mut self.coils, address, u16::from(value != 0)),
            Kind::Discrete => write(&mut self.discretes, address, u16::from(value != 0)),
            Kind::Holding => write(&mut self.holdings, address, value),
            Kind::Input => write(&mut self.inputs, address, value),
        }
    }

    /// Returns the value at an address, or `None` if the device does not have the address. A coil
    /// or a discrete input is 0 or 1.
    pub fn get(&self, kind: Kind, address: u16) -> Option<u16>
        ensures { result ≡ value_at self.now kind address }
    {
        let table = match kind {
            Kind::Coil => self.coils.as_slice(),
            Kind::Discrete => self.discretes.as_slice(),
            Kind::Holding => self.holdings.as_slice(),
            Kind::Input => self.inputs.as_slice(),
        };
        value_of(table, address)
    }

    /// Executes a PDU of 1 to 253 bytes. Writes the response to the front of `out`, and returns its
    /// length in bytes.
    ///
    /// The device checks a request's function code first, then the rest of the PDU, then the
    /// addresses (Modbus Application Protocol V1.1b3, sections 6 and 7). A refused request changes
    /// nothing.
    pub fn answer(&mut self, pdu: &[u8], out: &mut [u8; MAX_PDU]) -> usize
        requires some { 1 ≤ length pdu.now }
        requires few { length pdu.now ≤ MAX_PDU }
        ensures some { 1 ≤ result }
        ensures few { result ≤ MAX_PDU }
        ensures answered { take result out.new ≡ answer_to self.old pdu.now }
        ensures after { self.new ≡ maps_after self.old pdu.now }
    {
        match decode_request(pdu) {
            Ok(request) => self.carry_out(&request, out),
            Err(fault) => refuse(pdu[0], code_of(fault), out),
        }
    }

    // Executes a request, writes the response, and returns the response's length in bytes.
    fn carry_out(&mut self, request: &Request<'_>, out: &mut [u8; MAX_PDU]) -> usize
        requires { IsLawful request.now }
        ensures some { 1 ≤ result }
        ensures few { result ≤ MAX_PDU }
        ensures answered { take result out.new ≡ reply_for self.old 0 (Ok (query_of request.now)) }
        ensures after { self.new ≡ maps_for self.old (Ok (query_of request.now)) }
    {
        match *request {
            Request::ReadCoils { address, quantity } => {
                answer_bits(self.coils.as_slice(), request, address, quantity, out)
            }
            Request::ReadDiscrete { address, quantity } => {
                answer_bits(self.discretes.as_slice(), request, address, quantity, out)
            }
            Request::ReadHolding { address, quantity } => {
                answer_words(self.holdings.as_slice(), request, address, quantity, out)
            }
            Request::ReadInput { address, quantity } => {
                answer_words(self.inputs.as_slice(), request, address, quantity, out)
            }
            Request::WriteCoil { address, on } => {
                answer_coil(self.coils.as_mut_slice(), request, address, on, out)
            }
            Request::WriteRegister { address, value } => {
                let bytes = value.to_be_bytes();
                answer_registers(self.holdings.as_mut_slice(), request, address, &bytes, out)
            }
            Request::WriteCoils {
                address,
                quantity,
                bytes,
            } => answer_coils(
                self.coils.as_mut_slice(),
                request,
                address,
                quantity,
                bytes,
                out,
            ),
            Request::WriteRegisters { address, bytes } => {
                answer_registers(self.holdings.as_mut_slice(), request, address, bytes, out)
            }
        }
    }
}

// Returns the value at an address of a table, or `None` if the device does not have the address.
fn value_of(table: &[Option<u16>], address: u16) -> Option<u16>
    ensures { result ≡ value_in table.now address }
{
    let place = usize::from(address);
    if place < table.len() {
        table[place]
    } else {
        None
    }
}
