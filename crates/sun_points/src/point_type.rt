//! The SunSpec point types, and their numbers of registers.
ghost use Rattle.std.specs.Prelude.{◌≡◌, ◌≤◌, ◌↔◌, IsSome, IfSome};
ghost use Rattle.sun_points.specs.PointType.{registers_of};

use std::marker::Model;

/// The number of registers of a text point, 1 to 125. One Modbus read requests at most 125
/// registers.
#[derive(Clone, Copy, PartialEq, Eq)]
pub struct TextLength {
    registers: u16,
}

impl Model for TextLength {
    ghost use Rattle.std.specs.Prelude.{ℕ, ◌≤◌};

    ghost Value = { ℕ };

    ghost view = { λ l. l.registers };

    ghost invariant = { λ l. (1 ≤ l.registers) × (l.registers ≤ 125) };

    ghost inverse = { λ n. record { registers = n } };
}

impl TextLength {
    /// The length of a text point with 8 registers.
    pub const EIGHT: TextLength = TextLength { registers: 8 };

    /// The length of a text point with 16 registers.
    pub const SIXTEEN: TextLength = TextLength { registers: 16 };

    /// Creates the length of a text point from a number of registers, or returns `None` if it is
    /// not 1 to 125.
    pub fn new(registers: u16) -> Option<Self>
        ensures lawful { IsSome result ↔ ((1 ≤ registers) × (registers ≤ 125)) }
        ensures value { IfSome result (λ length. length ≡ registers) }
    {
        if 1 <= registers && registers <= 125 {
            Some(TextLength { registers })
        } else {
            None
        }
    }

    /// Returns the number of registers of a text point with this length.
    pub fn registers(self) -> u16
        ensures value { result ≡ self }
        ensures some { 1 ≤ result }
        ensures few { result ≤ 125 }
    {
        self.registers
    }
}

/// A SunSpec point type. A 32-bit value occupies two registers, the high word first.
#[derive(Clone, Copy, PartialEq, Eq)]
pub enum PointType {
    Int16,
    Uint16,
    Enum16,
    Int32,
    Uint32,
    Bitfield32,
    /// A 32-bit counter that only increases and rolls over to 0.
    Acc32,
    /// A scale factor: the power of ten for the values of other points.
    Sunssf,
    /// A text with two characters in each register, the high byte first.
    Text(TextLength),
}

impl PointType {
    /// Returns the number of registers of a point of this type.
    pub fn registers(self) -> u16
        ensures value { result ≡ registers_of self }
        ensures some { 1 ≤ result }
        ensures few { result ≤ 125 }
    {
        match self {
            PointType::Int16 | PointType::Uint16 | PointType::Enum16 | PointType::Sunssf => 1,
            PointType::Int32 | PointType::Uint32 | PointType::Bitfield32 | PointType::Acc32 => 2,
            PointType::Text(length) => length.registers(),
        }
    }
}
