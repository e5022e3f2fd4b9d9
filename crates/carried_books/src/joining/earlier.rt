//! Collects the accounting registers (named counters) of earlier database files, so that the
//! running program can report energy over all files.
ghost use Rattle.std.specs.Prelude.{◌≡◌, ◌++◌, ◌∷◌, [], List, None, map, reverse, true};
ghost use Rattle.std.specs.Prelude.{IfErr, IfOk, OnOk};
ghost use Rattle.std.specs.List.{AllZip};
ghost use Rattle.office_events.specs.declared.facts.Fact.{Fact};
ghost use Rattle.office_books.specs.Facts.{devices_in, registers_of};
ghost use Rattle.office_books.specs.Ledgers.{Consults};
ghost use Rattle.office_books.specs.declared.faults.BooksFault.TheVariants.{Memory};
ghost use Rattle.office_books.specs.declared.spans.Span.TheVariants as span;
ghost use Rattle.carried_books.specs.Joining.Files as files;
ghost use Rattle.carried_books.specs.Joining.Files.{AllJoin, DoesNotJoin};
ghost use Rattle.carried_books.specs.Joining.Keeping.{PartsFile};
ghost use Rattle.carried_books.specs.Joining.Earlier.{AddsDevices, AddsFile, AddsMore};
ghost use Rattle.carried_books.specs.Joining.Earlier.{AddsRegisters, AreRecorded};
ghost use Rattle.carried_books.specs.Joining.Earlier.{FileDoesNotJoin, HasNext};
ghost use Rattle.carried_books.specs.Joining.Earlier.{HoldAll, HoldMeters, HoldsFile, is_kept};
ghost use Rattle.carried_books.specs.Joining.Earlier.{KeptDoesNotJoin, NewDoesNotJoin};
ghost use Rattle.carried_books.specs.Joining.Earlier.{IsCopy, kept_as, registers_in, reported};

use crate::joining::days::{EarlierDays, JoinedDays};
use crate::joining::files::{JoinedFiles, Unjoined, add_books, is_recorded, join_meters, no_files};
use crate::joining::keeping::Keeping;
use crate::joining::meters::both;
use interval_core::{DayRange, Zone};
use office_books::{Books, BooksFault, Span};
use office_events::{Device, Installation, Name, Register};
use std::alloc::{AllocError, Global};

/// An accounting register (a named counter) in earlier database files: its meters and its energy by
/// day.
///
/// The meters of the register (a named counter) are in the order of installation. Each meter has
/// its first entry (opening), its latest state and its energy over all earlier database files.
#[derive(Drop)]
pub struct EarlierRegister {
    pub name: Name,
    pub meters: Vec<Installation>,
    pub days: EarlierDays,
}

/// The data of an accounting register (a named counter) in the database files that were added so
/// far. The next file is compared with these data.
#[derive(Drop)]
pub struct KeptRegister {
    pub name: Name,
    pub files: JoinedFiles,
}

// Returns the accounting register (a named counter) with its collected data, after all database
// files were added.
fn earlier_of(kept: KeptRegister) -> EarlierRegister
    ensures { reported result ≡ kept_as kept }
{
    let KeptRegister { name, files } = kept;
    let JoinedFiles { meters, days, .. } = files;
    EarlierRegister {
        name,
        meters,
        days: EarlierDays::new(days),
    }
}

/// Adds the data of an accounting register (a named counter) in the next database file. Returns the
/// reason if the file does not continue the meter history of the earlier files.
///
/// Adding the next database file to the data collected from the earlier files only queries this
/// file, and changes nothing in it.
pub fn add_next_file<B: Books>(
    kept: &mut KeptRegister,
    books: &mut B,
) -> Result<Option<Unjoined>, BooksFault>
    ensures name { kept.new.name ≡ kept.old.name }
    ensures joins { (known : List Fact) → (B.ledger books.old).holds known
        → (B.ledger books.new).is_clean
        → IfOk result (AllJoin span.All kept.old.name known kept.old.files kept.new.files) }
    ensures unjoined { (known : List Fact) → (B.ledger books.old).holds known
        → (B.ledger books.new).is_clean
        → IfOk result (PartsFile (DoesNotJoin span.All kept.old.name known kept.old.files)) }
    ensures reads { Consults (B.ledger books.old) (B.ledger books.new) result }
{
    let name = kept.name;
    add_books(&mut kept.files, books, &name, Span::All)
}

// Compares a database file's meters of an accounting register (a named counter) with those of the
// earlier files. Each meter must continue an earlier meter, or begin after the earlier meters were
// closed.
fn hold_meters<B: Books>(kept: &KeptRegister, books: &mut B) -> Result<Option<Unjoined>, BooksFault>
    ensures holds { (known : List Fact) → (B.ledger books.old).holds known
        → (B.ledger books.new).is_clean
        → IfOk result (HoldMeters kept.now known) }
    ensures reads { Consults (B.ledger books.old) (B.ledger books.new) result }
{
    let alloc = *kept.files.meters.allocator();
    let Ok(mut meters) = kept.files.meters.as_slice().to_vec(alloc) else {
        return Err(BooksFault::Memory);
    };
    match join_meters(&mut meters, books, &kept.name) {
        Err(fault) => Err(fault),
        Ok(apart) => match apart {
            Some(apart) => Ok(Some(Unjoined::Apart(apart))),
            None => Ok(None),
        },
    }
}

/// Compares the running program's database file with the earlier files. Returns the reason if the
/// current file does not continue the meter history of the earlier files.
///
/// The comparison of the current file with the earlier ones checks two things. The file must record
/// the collected register (a named counter) if an earlier file does. The register's meters must
/// continue the earlier meters, or begin after these were closed. The collected data stay those of
/// the earlier files. The current file is only queried.
pub fn compare_file<B: Books>(
    kept: &KeptRegister,
    books: &mut B,
) -> Result<Option<Unjoined>, BooksFault>
    ensures holds { (known : List Fact) → (B.ledger books.old).holds known
        → (B.ledger books.new).is_clean
        → IfOk result (HoldsFile kept.now known) }
    ensures reads { Consults (B.ledger books.old) (B.ledger books.new) result }
{
    match is_recorded(books, &kept.name) {
        Err(fault) => Err(fault),
        Ok(is_recorded) => {
            if both(kept.files.is_recorded, !is_recorded) {
                return Ok(Some(Unjoined::NotRecorded));
            }
            hold_meters(kept, books)
        }
    }
}

/// The data of the accounting registers (named counters) of several database files. The data of a
/// register begin with the first file that has the register.
#[derive(Drop)]
pub struct KeptRegisters {
    alloc: Global,
    zone: Zone,
    kept: Vec<KeptRegister>,
}

// Returns whether the accounting register (a named counter) with this name is among the registers
// collected from earlier database files.
fn is_kept(kept: &[KeptRegister], name: &Name) -> bool
    ensures { result ≡ is_kept name.now kept.now }
{
    kept.iter().any(|one| one.name.is(name))
}

// Adds the data of the next database file to each collected accounting register (a named counter).
fn add_all<B: Books>(
    kept: &mut Vec<KeptRegister>,
    books: &mut B,
) -> Result<Option<Unjoined>, BooksFault>
    ensures joins { (known : List Fact) → (B.ledger books.old).holds known
        → (B.ledger books.new).is_clean
        → IfOk result (λ why. why ≡ None
        → AllZip (HasNext known) kept.old.items kept.new.items) }
    ensures unjoined { (known : List Fact) → (B.ledger books.old).holds known
        → (B.ledger books.new).is_clean
        → IfOk result (PartsFile (KeptDoesNotJoin known kept.old.items)) }
    ensures reads { Consults (B.ledger books.old) (B.ledger books.new) result }
{
    for place in 0..kept.len() {
        if place < kept.len() {
            match add_next_file(&mut kept[place], books) {
                Err(fault) => return Err(fault),
                Ok(why) => {
                    if why.is_some() {
                        return Ok(why);
                    }
                }
            }
        }
    }
    Ok(None)
}

// Compares a database file with each collected accounting register (a named counter), and returns
// the first reason why the file does not continue the meter history of the earlier files.
fn compare_all<B: Books>(
    kept: &[KeptRegister],
    books: &mut B,
) -> Result<Option<Unjoined>, BooksFault>
    ensures holds { (known : List Fact) → (B.ledger books.old).holds known
        → (B.ledger books.new).is_clean
        → IfOk result (HoldAll kept.now known) }
    ensures reads { Consults (B.ledger books.old) (B.ledger books.new) result }
{
    for one in kept {
        match compare_file(one, books) {
            Err(fault) => return Err(fault),
            Ok(why) => {
                if why.is_some() {
                    return Ok(why);
                }
            }
        }
    }
    Ok(None)
}

fn push_register(kept: &mut Vec<KeptRegister>, one: KeptRegister) -> Result<(), BooksFault>
    ensures fails { IfErr result (λ fault. fault ≡ Memory) }
    ensures kept { OnOk result (kept.new.items ≡ kept.old.items ++ one ∷ []) }
{
    match kept.push(one) {
        Ok(()) => Ok(()),
        Err(_) => Err(BooksFault::Memory),
    }
}

// Adds an accounting register (a named counter) of a database file to the registers collected from
// several files, if no earlier file has the register.
fn add_new<B: Books>(
    alloc: Global,
    zone: Zone,
    kept: &mut Vec<KeptRegister>,
    books: &mut B,
    name: Name,
) -> Result<Option<Unjoined>, BooksFault>
    ensures kept { IfOk result (λ why. why ≡ None → is_kept name kept.new.items ≡ true) }
    ensures adds { (known : List Fact) → (B.ledger books.old).holds known
        → (B.ledger books.new).is_clean → files.is_recorded name known ≡ true
        → IfOk result (λ why. why ≡ None
        → AddsMore zone known kept.old.items kept.new.items) }
    ensures unjoined { (known : List Fact) → (B.ledger books.old).holds known
        → (B.ledger books.new).is_clean → files.is_recorded name known ≡ true
        → IfOk result (PartsFile (NewDoesNotJoin zone known kept.old.items)) }
    ensures reads { Consults (B.ledger books.old) (B.ledger books.new) result }
{
    if is_kept(kept.as_slice(), &name) {
        return Ok(None);
    }
    let mut one = KeptRegister {
        name,
        files: no_files(alloc, zone),
    };
    match add_next_file(&mut one, books) {
        Err(fault) => Err(fault),
        Ok(why) => {
            if why.is_some() {
                return Ok(why);
            }
            let KeptRegister { files, .. } = one;
            push_register(kept, KeptRegister { name, files })?;
            Ok(None)
        }
    }
}

// Adds those accounting registers (named counters) in `registers` that were not collected before to
// the registers collected from several database files.
fn add_registers<B: Books>(
    alloc: Global,
    zone: Zone,
    kept: &mut Vec<KeptRegister>,
    books: &mut B,
    registers: &[Register],
) -> Result<Option<Unjoined>, BooksFault>
    ensures adds { (known : List Fact) → (B.ledger books.old).holds known
        → (B.ledger books.new).is_clean → AreRecorded registers.now known
        → IfOk result (λ why. why ≡ None
        → AddsRegisters zone known registers.now kept.old.items kept.new.items) }
    ensures unjoined { (known : List Fact) → (B.ledger books.old).holds known
        → (B.ledger books.new).is_clean → AreRecorded registers.now known
        → IfOk result (PartsFile (NewDoesNotJoin zone known kept.old.items)) }
    ensures reads { Consults (B.ledger books.old) (B.ledger books.new) result }
{
    for register in registers {
        match add_new(alloc, zone, kept, books, register.name) {
            Err(fault) => return Err(fault),
            Ok(why) => {
                if why.is_some() {
                    return Ok(why);
                }
            }
        }
    }
    Ok(None)
}

// Adds those accounting registers (named counters) of a device that were not collected before to
// the registers collected from several database files.
fn add_device<B: Books>(
    alloc: Global,
    zone: Zone,
    kept: &mut Vec<KeptRegister>,
    books: &mut B,
    device: &Device,
) -> Result<Option<Unjoined>, BooksFault>
    ensures adds { (known : List Fact) → (B.ledger books.old).holds known
        → (B.ledger books.new).is_clean
        → IfOk result (λ why. why ≡ None
        → AddsRegisters zone known (registers_of known device.now.name) kept.old.items
        kept.new.items) }
    ensures unjoined { (known : List Fact) → (B.ledger books.old).holds known
        → (B.ledger books.new).is_clean
        → IfOk result (PartsFile (NewDoesNotJoin zone known kept.old.items)) }
    ensures reads { Consults (B.ledger books.old) (B.ledger books.new) result }
{
    match books.registers(&device.name) {
        Err(fault) => Err(fault),
        Ok(registers) => add_registers(alloc, zone, kept, books, &registers),
    }
}

// Adds those accounting registers (named counters) of the devices in `devices` that were not
// collected before to the registers collected from several database files.
fn add_devices<B: Books>(
    alloc: Global,
    zone: Zone,
    kept: &mut Vec<KeptRegister>,
    books: &mut B,
    devices: &[Device],
) -> Result<Option<Unjoined>, BooksFault>
    ensures adds { (known : List Fact) → (B.ledger books.old).holds known
        → (B.ledger books.new).is_clean
        → IfOk result (λ why. why ≡ None
        → AddsDevices zone known devices.now kept.old.items kept.new.items) }
    ensures unjoined { (known : List Fact) → (B.ledger books.old).holds known
        → (B.ledger books.new).is_clean
        → IfOk result (PartsFile (NewDoesNotJoin zone known kept.old.items)) }
    ensures reads { Consults (B.ledger books.old) (B.ledger books.new) result }
{
    for device in devices {
        match add_device(alloc, zone, kept, books, device) {
            Err(fault) => return Err(fault),
            Ok(why) => {
                if why.is_some() {
                    return Ok(why);
                }
            }
        }
    }
    Ok(None)
}

// Adds all accounting registers (named counters) of a database file, except those collected before,
// to the registers collected from several files.
fn add_others<B: Books>(
    alloc: Global,
    zone: Zone,
    kept: &mut Vec<KeptRegister>,
    books: &mut B,
) -> Result<Option<Unjoined>, BooksFault>
    ensures adds { (known : List Fact) → (B.ledger books.old).holds known
        → (B.ledger books.new).is_clean
        → IfOk result (λ why. why ≡ None
        → AddsDevices zone known (reverse (devices_in known)) kept.old.items kept.new.items) }
    ensures unjoined { (known : List Fact) → (B.ledger books.old).holds known
        → (B.ledger books.new).is_clean
        → IfOk result (PartsFile (NewDoesNotJoin zone known kept.old.items)) }
    ensures reads { Consults (B.ledger books.old) (B.ledger books.new) result }
{
    match books.devices() {
        Err(fault) => Err(fault),
        Ok(devices) => add_devices(alloc, zone, kept, books, &devices),
    }
}

// Adds the data of all accounting registers (named counters) in a database file, whether or not an
// earlier file has the register.
fn add_books_to<B: Books>(
    alloc: Global,
    zone: Zone,
    kept: &mut Vec<KeptRegister>,
    books: &mut B,
) -> Result<Option<Unjoined>, BooksFault>
    ensures joins { (known : List Fact) → (B.ledger books.old).holds known
        → (B.ledger books.new).is_clean
        → IfOk result (λ why. why ≡ None
        → AddsFile zone known kept.old.items kept.new.items) }
    ensures unjoined { (known : List Fact) → (B.ledger books.old).holds known
        → (B.ledger books.new).is_clean
        → IfOk result (PartsFile (FileDoesNotJoin zone known kept.old.items)) }
    ensures reads { Consults (B.ledger books.old) (B.ledger books.new) result }
{
    match add_all(kept, books) {
        Err(fault) => Err(fault),
        Ok(why) => {
            if why.is_some() {
                return Ok(why);
            }
            add_others(alloc, zone, kept, books)
        }
    }
}

// Returns a copy of the name and the meters of a collected accounting register (a named counter),
// without its energy.
fn copy_of(alloc: Global, zone: Zone, one: &KeptRegister) -> Result<KeptRegister, AllocError>
    ensures { IfOk result (IsCopy one.now) }
{
    let meters = one.files.meters.as_slice().to_vec(alloc)?;
    Ok(KeptRegister {
        name: one.name,
        files: JoinedFiles {
            is_recorded: one.files.is_recorded,
            meters,
            days: JoinedDays::new(alloc, zone),
        },
    })
}

// Returns copies of the names and the meters of collected accounting registers (named counters).
fn copies_of(
    alloc: Global,
    zone: Zone,
    kept: &[KeptRegister],
) -> Result<Vec<KeptRegister>, AllocError>
    ensures { IfOk result (λ copies. AllZip IsCopy kept.now copies.items) }
{
    let mut copies = Vec::new(alloc);
    for one in kept {
        copies.push(copy_of(alloc, zone, one)?)?;
    }
    Ok(copies)
}

impl KeptRegisters {
    /// Returns a copy of the names and the meters of the accounting registers (named counters). The
    /// running program's database file can be compared with this copy.
    pub fn compared(&self) -> Result<ComparedRegisters, AllocError>
        ensures { IfOk result (λ held. AllZip IsCopy self.now.kept.items held.kept.kept.items) }
    {
        let kept = copies_of(self.alloc, self.zone, self.kept.as_slice())?;
        Ok(ComparedRegisters {
            kept: KeptRegisters {
                alloc: self.alloc,
                zone: self.zone,
                kept,
            },
        })
    }

    /// Returns the accounting registers (named counters) that were collected from several database
    /// files, in the order in which the files first had them.
    pub fn into_registers(self) -> Result<Vec<EarlierRegister>, AllocError>
        ensures { IfOk result (λ registers. map reported registers.items
            ≡ map kept_as (registers_in self)) }
    {
        let KeptRegisters { alloc, kept, .. } = self;
        let mut registers = Vec::new(alloc);
        for one in kept {
            registers.push(earlier_of(one))?;
        }
        Ok(registers)
    }
}

/// Collects all accounting registers (named counters) of the database files, whichever register and
/// range were requested.
///
/// Suppose that the rules for records accept each record of a file after the file's earlier
/// records, for all files. Then the collected accounting registers (named counters) are exactly
/// those of the files.
impl Keeping for KeptRegisters {
    ghost use Rattle.std.specs.Prelude.{◌≡◌, All};
    ghost use Rattle.office_books.specs.Lawful.{AreLawful};
    ghost use Rattle.carried_books.specs.Joining.Earlier.{FileDoesNotJoin, HasRegisters};

    ghost keeps = { λ zone range register files kept. (kept.zone ≡ zone)
        × (All AreLawful files → HasRegisters zone files kept.kept.items) };

    ghost parts = { λ range register facts kept why.
        FileDoesNotJoin kept.zone facts kept.kept.items why };

    fn none(alloc: Global, zone: Zone, _range: DayRange) -> KeptRegisters {
        KeptRegisters {
            alloc,
            zone,
            kept: Vec::new(alloc),
        }
    }

    fn add<B: Books>(
        &mut self,
        books: &mut B,
        _register: &Name,
        _range: DayRange,
    ) -> Result<Option<Unjoined>, BooksFault> {
        add_books_to(self.alloc, self.zone, &mut self.kept, books)
    }
}

/// The accounting registers (named counters) of earlier files, with which the running program's
/// database file is compared.
#[derive(Drop)]
pub struct ComparedRegisters {
    pub kept: KeptRegisters,
}

/// Compares a database file with all collected accounting registers (named counters), whichever
/// register and range were requested. Adds no data of the file to those of the earlier files.
///
/// The statement `keeps` (which data a collector has) for the type `ComparedRegisters`: each of the
/// database files `files` was compared, and continues all meters in the collected data.
impl Keeping for ComparedRegisters {
    ghost use Rattle.std.specs.Prelude.{◌≡◌, All, None, Some};
    ghost use Rattle.carried_books.specs.Joining.Earlier.{HoldAll};

    ghost keeps = { λ zone range register files held. (held.kept.zone ≡ zone)
        × All (λ facts. HoldAll held.kept.kept.items facts None) files };

    ghost parts = { λ range register facts held why.
        HoldAll held.kept.kept.items facts (Some why) };

    fn none(alloc: Global, zone: Zone, range: DayRange) -> ComparedRegisters {
        ComparedRegisters {
            kept: KeptRegisters::none(alloc, zone, range),
        }
    }

    fn add<B: Books>(
        &mut self,
        books: &mut B,
        _register: &Name,
        _range: DayRange,
    ) -> Result<Option<Unjoined>, BooksFault> {
        compare_all(self.kept.kept.as_slice(), books)
    }
}
