//! Ranges of consecutive registers.

use mb_wire::ReadFunction;

/// The maximum number of registers in one read.
pub const READ_LIMIT: u32 = 125;

/// A range of registers of one function and area number (no read has registers of two areas), from
/// `first` to `end` exclusive.
#[derive(Clone, Copy)]
pub struct Run {
    pub function: ReadFunction,
    pub area: u8,
    pub first: u32,
    pub end: u32,
}
