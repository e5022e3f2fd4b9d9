//! The four kinds of values of a Modbus device, and the areas of its register map.
ghost use Rattle.std.specs.Prelude.{◌≡◌, ◌+◌};
ghost use Rattle.mb_device.specs.Areas.{bank_fault_number, contains, is_out_of_range, kind_number};
ghost use Rattle.mb_device.specs.Areas.{overlap};

use mb_wire::ADDRESSES;

/// The four kinds of values of a device (Modbus Application Protocol V1.1b3, section 4.3).
#[derive(Clone, Copy, PartialEq, Eq)]
pub enum Kind {
    /// A coil: a bit that clients read and write.
    Coil,
    /// A discrete input: a bit that clients only read.
    Discrete,
    /// A holding register, which clients read and write.
    Holding,
    /// An input register, which clients only read.
    Input,
}

/// A range of addresses of one kind that a device has: `count` addresses from `start`.
#[derive(Clone, Copy, PartialEq, Eq)]
pub struct Area {
    pub kind: Kind,
    pub start: u16,
    pub count: u32,
}

/// The reason why areas (ranges of addresses) do not form a register map. If several faults apply,
/// the fault with the lowest numeric code is reported.
#[derive(Clone, Copy, Debug, PartialEq, Eq)]
pub enum BankFault {
    /// Fault: two areas (ranges of addresses) of the same kind share an address.
    AreasOverlap,
    /// Fault: an area (a range of addresses) is empty, or extends past address 65535.
    OutOfRange,
    /// Out of memory.
    Memory,
}

impl BankFault {
    /// Returns the numeric code of a fault of a register map's areas (address ranges). The codes
    /// begin at 1. Faults are checked in the order of their codes, and the first fault that applies
    /// is reported.
    pub fn number(self) -> u8
        ensures { result ≡ bank_fault_number self }
    {
        match self {
            BankFault::AreasOverlap => 1,
            BankFault::OutOfRange => 2,
            BankFault::Memory => 3,
        }
    }
}

impl Kind {
    pub(crate) fn number(self) -> u8
        ensures { result ≡ kind_number self }
    {
        match self {
            Kind::Coil => 1,
            Kind::Discrete => 2,
            Kind::Holding => 3,
            Kind::Input => 4,
        }
    }
}

impl Area {
    // Returns the address after the last address of the area (a range of addresses of one kind,
    // such as holding registers).
    fn end_address(&self) -> u64
        ensures { result ≡ self.now.start + self.now.count }
    {
        u64::from(self.start) + u64::from(self.count)
    }

    pub(crate) fn contains(&self, kind: Kind, address: u64) -> bool
        ensures { result ≡ contains kind address self.now }
    {
        self.kind.number() == kind.number()
            && u64::from(self.start) <= address
            && address < self.end_address()
    }

    pub(crate) fn overlaps(&self, other: &Area) -> bool
        ensures { result ≡ overlap self.now other.now }
    {
        let start = u64::from(self.start).max(u64::from(other.start));
        self.kind.number() == other.kind.number()
            && start < self.end_address().min(other.end_address())
    }

    pub(crate) fn is_out_of_range(&self) -> bool
        ensures { result ≡ is_out_of_range self.now }
    {
        self.count == 0 || u64::from(ADDRESSES) < self.end_address()
    }
}
