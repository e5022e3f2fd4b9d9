//! A trait for reading the files that an input (a text of request lines) names, and the meter
//! counters that the input reads with `@read`.

use office_events::{Device, Register};
use std::alloc::{AllocError, Global};

/// The largest size, in bytes, of a file that an input (a text of request lines) names.
pub const MOST_FILE: usize = 65_536;

/// The reading of a meter's counter: the count, and the scale factor of its unit as a power of ten.
#[derive(Clone, Copy, PartialEq, Eq)]
pub struct Shown {
    pub raw: u32,
    pub sf: i16,
}

/// A reader of the files that an input (a text of request lines) names, and of the counters at
/// whose present readings the input installs meters.
pub trait NamedFiles {
    ghost use Rattle.std.specs.Prelude.{◌≤◌, ℕ, List, Option, IfOk, IfSome, length, option_map};
    ghost use Rattle.office_events.specs.declared.facts.Device.{Device};
    ghost use Rattle.office_events.specs.declared.facts.Register.{Register};
    ghost use Rattle.office_program.specs.declared.entering.files.Shown.{Shown};

    // The possible results of reading a file by its name: the file's bytes, or `None` if the file
    // can't be read.
    ghost reports: { Self → List ℕ → Option (List ℕ) → Type 0 } = { λ _ _ _. Unit {0} };

    // The possible results of reading the counter of an accounting register from the register's
    // device: the counter's reading, or `None` if the counter can't be read.
    ghost shows: { Self → Device → Register → Option Shown → Type 0 } = { λ _ _ _ _. Unit {0} };

    /// Reads the file `name` of at most `MOST_FILE` bytes.
    ///
    /// Returns `None` if the file `name` does not exist, can't be read or is longer than
    /// `MOST_FILE` bytes. The implementation may report why.
    fn read(&self, alloc: Global, name: &[u8]) -> Result<Option<Vec<u8>>, AllocError>
        ensures reported { IfOk result
            (λ found. reports self.now name.now (option_map (λ v. v.items) found)) }
        ensures few { IfOk result (λ found. IfSome found (λ v. length v.items ≤ 65536)) };

    /// Reads the counter of an accounting register from its device.
    ///
    /// Returns `None` if the counter of the accounting register can't be read from the device. The
    /// implementation may report why.
    fn shown(&self, device: &Device, register: &Register) -> Option<Shown>
        ensures { shows self.now device.now register.now result };
}
