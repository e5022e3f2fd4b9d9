//! A simulated Modbus device that the lines of a text configure.
ghost use Rattle.std.specs.Prelude.{◌≡◌, IfOk, OnErr};
ghost use Rattle.script_run.specs.Bank.Settings as setting;

use mb_device::{Area, Bank, Trick};
use script_text::{BankLine, GivenArea, GivenCell};
use std::alloc::{AllocError, Global};
use std::marker::Model;

/// A simulated device: its register map and its injected faults.
#[derive(Drop)]
pub struct Setup {
    bank: Bank,
    tricks: Vec<(u64, Trick)>,
}

impl Model for Setup {
    ghost use Rattle.script_run.specs.Bank.Settings.{Setting};

    ghost Value = { Setting };

    ghost view = { λ s. record { maps = s.bank; tricks = s.tricks.items } };
}

/// The register map and the injected faults of a simulated device.
#[derive(Drop)]
pub struct SetupParts {
    pub bank: Bank,
    /// The faults to inject, each with the number of a request frame. A fault is injected into the
    /// response to this frame. If several faults have the same number, only the first in the list
    /// is injected.
    pub tricks: Vec<(u64, Trick)>,
}

// Returns the range of Modbus addresses that a setup line `area` describes, or `None` if the line's
// numbers are out of range.
fn area_of(given: GivenArea) -> Option<Area>
    ensures { result ≡ setting.area_of given }
{
    let GivenArea { kind, start, count } = given;
    if start <= 65535 && count <= 4_294_967_295 {
        Some(Area {
            kind,
            start: start as u16,
            count: count as u32,
        })
    } else {
        None
    }
}

impl Setup {
    ghost use Rattle.script_run.specs.Bank.Settings.{IsUnset, after_area, after_cell, after_line, takes, takes_area, takes_cell};

    /// Creates a simulated device without addresses and without injected faults.
    pub fn new(alloc: Global) -> Result<Setup, AllocError>
        ensures { IfOk result IsUnset }
    {
        let bank = empty_bank(alloc)?;
        Ok(Setup {
            bank,
            tricks: Vec::new(alloc),
        })
    }

    /// Splits a simulated device into its register map and its injected faults.
    pub fn into_parts(self) -> SetupParts
        ensures bank { result.bank ≡ self.maps }
        ensures tricks { result.tricks.items ≡ self.tricks }
    {
        let Setup { bank, tricks } = self;
        SetupParts { bank, tricks }
    }

    // Adds a range of addresses if the register map accepts the range. Returns whether the map
    // accepts the range.
    fn add_area(&mut self, given: GivenArea) -> bool
        ensures taken { result ≡ takes_area self.old.maps given }
        ensures after { self.new ≡ after_area self.old given }
    {
        add_in(&mut self.bank, given)
    }

    /// Stores a value at a Modbus address. Returns whether the register map has the address and
    /// accepts the value.
    pub fn set_cell(&mut self, given: GivenCell) -> bool
        ensures taken { result ≡ takes_cell self.old.maps given }
        ensures after { self.new ≡ after_cell self.old given }
    {
        set_in(&mut self.bank, given)
    }

    fn add_trick(&mut self, frame: u64, trick: Trick) -> Result<(), AllocError>
        ensures done { IfOk result (λ done. self.new ≡ setting.with_trick self.old frame trick) }
        ensures kept { OnErr result (self.new ≡ self.old) }
    {
        self.tricks.push((frame, trick))?;
        Ok(())
    }

    /// Executes a setup line of a simulated device. Returns whether the register map accepts the
    /// line. A refused line changes nothing. Lines that inject faults are always accepted.
    pub fn carry_out(&mut self, line: &BankLine) -> Result<bool, AllocError>
        ensures taken { IfOk result (λ taken. taken ≡ takes self.old.maps line.now) }
        ensures after { IfOk result (λ taken. self.new ≡ after_line self.old line.now) }
        ensures kept { OnErr result (self.new ≡ self.old) }
    {
        match *line {
            BankLine::Area(area) => Ok(self.add_area(area)),
            BankLine::Set(cell) => Ok(self.set_cell(cell)),
            BankLine::Trick { frame, trick } => {
                self.add_trick(frame, trick)?;
                Ok(true)
            }
        }
    }
}

/// Creates a register map without any address.
pub fn empty_bank(alloc: Global) -> Result<Bank, AllocError>
    ensures { IfOk result setting.AreUnset }
{
    match Bank::new(alloc, &[]) {
        Ok(bank) => Ok(bank),
        Err(_) => Err(AllocError),
    }
}

/// Adds a range of addresses with value 0 to a register map. Returns whether the map accepts the
/// range.
pub fn add_in(bank: &mut Bank, given: GivenArea) -> bool
    ensures taken { result ≡ setting.takes_area bank.old given }
    ensures after { bank.new ≡ setting.with_area bank.old given }
{
    match area_of(given) {
        Some(area) => bank.add(&area).is_ok(),
        None => false,
    }
}

/// Stores a value in a register map. Returns whether the map has the address and accepts the value.
pub fn set_in(bank: &mut Bank, given: GivenCell) -> bool
    ensures taken { result ≡ setting.takes_cell bank.old given }
    ensures after { bank.new ≡ setting.with_cell bank.old given }
{
    let GivenCell {
        kind,
        address,
        value,
    } = given;
    if address <= 65535 && value <= 65535 {
        bank.set(kind, address as u16, value as u16)
    } else {
        false
    }
}
