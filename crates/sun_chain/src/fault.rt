//! Faults of a write into a memory image (the words read from a device), and of an image without a
//! chain.
ghost use Rattle.std.specs.Prelude.{◌≡◌};
ghost use Rattle.sun_chain.specs.Fault.{chain_fault_number, image_fault_number};

use std::error::Error;
use std::fmt;
use std::fmt::{Display, Formatter};

/// The reason why a memory image (the words read from a device) refused a write of words.
#[derive(Clone, Copy, Debug, PartialEq, Eq)]
pub enum ImageFault {
    /// The words to write into a memory image would end past address 65535.
    PastEnd,
    Memory,
}

impl ImageFault {
    /// Returns the numeric code of a fault of a write into a memory image. The codes begin at 1.
    pub fn number(self) -> u8
        ensures { result ≡ image_fault_number self }
    {
        match self {
            ImageFault::PastEnd => 1,
            ImageFault::Memory => 2,
        }
    }
}

impl Display for ImageFault {
    fn fmt<W: fmt::Write>(&self, f: &mut Formatter<W>) -> fmt::Result {
        f.write_str(match self {
            ImageFault::PastEnd => "the words would end past address 65535",
            ImageFault::Memory => "memory ran out",
        })
    }
}

impl Error for ImageFault {}

/// The reason why a memory image (the words read from a device) has no chain of models.
#[derive(Clone, Copy, Debug, PartialEq, Eq)]
pub enum ChainFault {
    /// No base address has the `SunS` mark.
    NoMark,
    /// The search for the chain of SunSpec models needs the word at this address, which was not
    /// read.
    Unreadable(u16),
    /// The chain continues past address 65535.
    PastEnd,
    /// The device's chain of SunSpec models has more than 64 models.
    TooMany,
    Memory,
}

impl ChainFault {
    /// Returns the numeric code that the command `chain` prints if a device's chain of SunSpec
    /// models can't be read. The codes begin at 1.
    pub fn number(self) -> u8
        ensures { result ≡ chain_fault_number self }
    {
        match self {
            ChainFault::NoMark => 1,
            ChainFault::Unreadable(_) => 2,
            ChainFault::PastEnd => 3,
            ChainFault::TooMany => 4,
            ChainFault::Memory => 5,
        }
    }
}

impl Display for ChainFault {
    fn fmt<W: fmt::Write>(&self, f: &mut Formatter<W>) -> fmt::Result {
        match self {
            ChainFault::NoMark => write!(
                f,
                "the mark SunS stands at none of the addresses 40000, 50000 and 0"
            ),
            ChainFault::Unreadable(address) => write!(
                f,
                "the chain needs address {address}, which was not read"
            ),
            ChainFault::PastEnd => write!(f, "the chain goes on past address 65535"),
            ChainFault::TooMany => write!(f, "the chain has more than 64 models"),
            ChainFault::Memory => write!(f, "memory ran out"),
        }
    }
}

impl Error for ChainFault {}
