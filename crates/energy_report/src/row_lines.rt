//! Writes a line of text for each row that arrives (a quarter hour or a day).
ghost use Rattle.std.specs.Prelude.{◌≡◌};

use interval_core::{DayTotal, Share};
use office_books::RowSink;
use script_text::{write_day, write_interval};
use std::io::Write;

/// Writes a line of text for each row that arrives, and counts the rows up to 2^64 - 1.
///
/// After a write of a line has failed, all rows that arrive later are dropped.
#[derive(Drop)]
pub struct RowLines<'o, W> {
    pub output: &'o mut W,
    pub count: u64,
    pub failed: bool,
}

impl<'o, W: Write> RowLines<'o, W> {
    ghost use Rattle.std.specs.Prelude.{false};

    /// Creates a writer of lines that has received no row. The lines are written to `output`.
    pub fn to(output: &'o mut W) -> RowLines<'o, W>
        ensures output { result.output.ghost_name ≡ output.entry.ghost_name }
        ensures same { result.output.now ≡ output.old }
        ensures none { result.count ≡ 0 }
        ensures works { result.failed ≡ false }
    {
        RowLines {
            output,
            count: 0,
            failed: false,
        }
    }
}

impl<'o, W: Write> RowSink<Share> for RowLines<'o, W> {
    ghost use Rattle.script_text.specs.RowLines.Rows.{share_line};
    ghost use Rattle.energy_report.specs.RowLines.{WritesLine};

    ghost takes = { λ old row new. WritesLine W.contents (share_line row) old new };

    fn put(&mut self, row: Share) {
        if self.failed {
            return;
        }
        match write_interval(row, self.output) {
            Ok(()) => self.count = self.count.saturating_add(1),
            Err(_) => self.failed = true,
        }
    }
}

impl<'o, W: Write> RowSink<DayTotal> for RowLines<'o, W> {
    ghost use Rattle.script_text.specs.RowLines.Rows.{day_line};
    ghost use Rattle.energy_report.specs.RowLines.{WritesLine};

    ghost takes = { λ old row new. WritesLine W.contents (day_line row) old new };

    fn put(&mut self, row: DayTotal) {
        if self.failed {
            return;
        }
        match write_day(&row, self.output) {
            Ok(()) => self.count = self.count.saturating_add(1),
            Err(_) => self.failed = true,
        }
    }
}
