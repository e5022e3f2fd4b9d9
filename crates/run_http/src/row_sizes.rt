//! Measures the text lines of interval rows (energy of quarter hours) without storing the rows.
use crate::texts::write_share;
use interval_core::Share;
use office_books::RowSink;
use std::alloc::{AllocError, Global};

/// The number of some interval rows (energies of quarter hours), and the size of their lines in
/// bytes.
#[derive(Clone, Copy)]
pub struct Sizes {
    pub bytes: usize,
    pub count: usize,
}

/// The number of the interval rows (energies of quarter hours) received so far, and the size of
/// their lines. `is_whole` is false if memory ran out for a row.
#[derive(Drop)]
pub struct RowSizes {
    line: Vec<u8>,
    sizes: Sizes,
    is_whole: bool,
}

impl RowSizes {
    ghost use Rattle.std.specs.Prelude.{◌≡◌, ◌+◌, length, true, IfOk, IfSome, OnOk};
    ghost use Rattle.interval_core.specs.Lines.{share_line};

    /// Makes the sizes of no interval rows (energies of quarter hours): 0 bytes and 0 rows.
    pub fn new(alloc: Global) -> RowSizes
        ensures sizes { result.sizes ≡ record { bytes = 0; count = 0 } }
        ensures whole { result.is_whole ≡ true }
    {
        RowSizes {
            line: Vec::new(alloc),
            sizes: Sizes { bytes: 0, count: 0 },
            is_whole: true,
        }
    }

    // Returns the number of measured rows, and the total size of their lines in bytes, after one
    // more row with a line of `bytes` bytes. Returns `None` if a sum overflows.
    fn with_line(&self, bytes: usize) -> Option<Sizes>
        ensures bytes { IfSome result (λ sizes. sizes.bytes ≡ self.now.sizes.bytes + bytes) }
        ensures count { IfSome result (λ sizes. sizes.count ≡ self.now.sizes.count + 1) }
    {
        let bytes = self.sizes.bytes.checked_add(bytes)?;
        let count = self.sizes.count.checked_add(1)?;
        Some(Sizes { bytes, count })
    }

    // Adds an interval row (energy of a quarter hour) to the sizes of the rows of a response: the
    // length of the row's text line in bytes, and one row.
    fn count_in(&mut self, row: &Share) -> Result<(), AllocError>
        ensures bytes { OnOk result (self.new.sizes.bytes
            ≡ self.old.sizes.bytes + length (share_line row.now)) }
        ensures count { OnOk result (self.new.sizes.count ≡ self.old.sizes.count + 1) }
        ensures whole { self.new.is_whole ≡ self.old.is_whole }
    {
        self.line.clear();
        write_share(&mut self.line, row)?;
        match self.with_line(self.line.len()) {
            Some(sizes) => {
                self.sizes = sizes;
                Ok(())
            }
            None => Err(AllocError),
        }
    }

    /// Returns the sizes of all interval rows (energies of quarter hours). Fails if memory ran out
    /// for any line.
    pub fn whole(&self) -> Result<Sizes, AllocError>
        ensures whole { IfOk result (λ sizes. self.now.is_whole ≡ true) }
        ensures sizes { IfOk result (λ sizes. sizes ≡ self.now.sizes) }
    {
        if self.is_whole {
            Ok(self.sizes)
        } else {
            Err(AllocError)
        }
    }
}

impl RowSink<Share> for RowSizes {
    ghost use Rattle.run_http.specs.Pieces.{SizesRow};

    ghost takes = { SizesRow };

    fn put(&mut self, row: Share) {
        if self.is_whole {
            match self.count_in(&row) {
                Ok(()) => {}
                Err(_) => self.is_whole = false,
            }
        }
    }
}
