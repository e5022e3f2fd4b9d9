//! Collects in memory all interval rows (energy of quarter hours) that a query passes to it.
use interval_core::Share;
use office_books::RowSink;
use std::alloc::{AllocError, Global};

/// The interval rows (energy of quarter hours) received so far. `is_whole` is false if memory ran
/// out for a row.
#[derive(Drop)]
pub struct KeptRows {
    rows: Vec<Share>,
    is_whole: bool,
}

impl KeptRows {
    ghost use Rattle.std.specs.Prelude.{◌≡◌, [], true, IfOk};

    /// Makes an empty collection of interval rows (energies of quarter hours).
    pub fn new(alloc: Global) -> KeptRows
        ensures none { result.rows.items ≡ [] }
        ensures whole { result.is_whole ≡ true }
    {
        KeptRows {
            rows: Vec::new(alloc),
            is_whole: true,
        }
    }

    /// Returns all collected interval rows (energies of quarter hours). Fails if memory ran out for
    /// any of the rows.
    pub fn into_rows(self) -> Result<Vec<Share>, AllocError>
        ensures whole { IfOk result (λ rows. self.is_whole ≡ true) }
        ensures rows { IfOk result (λ rows. rows ≡ self.rows) }
    {
        let KeptRows { rows, is_whole } = self;
        if is_whole { Ok(rows) } else { Err(AllocError) }
    }
}

impl RowSink<Share> for KeptRows {
    ghost use Rattle.run_http.specs.MeterReplies.{KeepsRow};

    ghost takes = { KeepsRow };

    fn put(&mut self, row: Share) {
        if self.is_whole {
            match self.rows.push(row) {
                Ok(()) => {}
                Err(_) => self.is_whole = false,
            }
        }
    }
}
