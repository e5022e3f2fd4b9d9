//! Writes an energy report from days that the caller passes one by one.
ghost use Rattle.std.specs.Prelude.{◌≡◌};

use crate::form::ReportForm;
use crate::row::Row;
use crate::row_text::{last_piece, row_piece};
use interval_core::DayTotal;
use office_books::RowSink;
use script_text::Line;
use std::io::Write;
use sun_points::Sink;

/// Writes the rows of a report, whose days arrive one by one. A row is written when a day of the
/// next period arrives.
///
/// After a write of the report has failed, all days that arrive later are dropped.
#[derive(Drop)]
pub struct ReportRows<'o, W> {
    form: ReportForm,
    pub output: &'o mut W,
    pending: Option<Row>,
    count: u64,
    failed: bool,
}

impl<'o, W: Write> ReportRows<'o, W> {
    ghost use Rattle.energy_report.specs.Texts.{last_text};
    ghost use Rattle.energy_report.specs.Writing.{Finishes, IsFresh, WritesRow, WritesText};

    /// Creates an empty report that writes to `output`.
    pub fn to(form: ReportForm, output: &'o mut W) -> ReportRows<'o, W>
        ensures output { result.output.ghost_name ≡ output.entry.ghost_name }
        ensures fresh { IsFresh W.contents form output.old result }
    {
        ReportRows {
            form,
            output,
            pending: None,
            count: 0,
            failed: false,
        }
    }

    /// Returns whether a write of the report failed.
    pub fn has_failed(&self) -> bool
        ensures { result ≡ self.now.failed }
    {
        self.failed
    }

    /// Writes the pending row (the last row, not written yet) and the end of the report. Call this
    /// function after the last day.
    pub fn finish(&mut self)
        ensures { Finishes W.contents self.old self.new }
    {
        match self.pending {
            None => self.write_last(),
            Some(row) => {
                self.write_row(&row);
                self.write_last();
            }
        }
    }

    // Writes a row of the report and counts the row.
    fn write_row(&mut self, row: &Row)
        ensures { WritesRow W.contents row.now self.old self.new }
    {
        let form = self.form;
        let text = row_piece(&form, self.count == 0, row);
        self.write(&text);
        self.count = self.count.saturating_add(1);
    }

    // Writes the text after the last row of the report.
    fn write_last(&mut self)
        ensures { WritesText W.contents (last_text self.old.form self.old.count)
            self.old self.new }
    {
        let form = self.form;
        let text = last_piece(&form, self.count);
        self.write(&text);
    }

    // Writes a text to the output of a report, unless an earlier write failed.
    fn write(&mut self, text: &Line)
        ensures { WritesText W.contents text.now self.old self.new }
    {
        if self.failed {
            return;
        }
        match self.output.take_text(text.bytes()) {
            Ok(()) => {}
            Err(_) => self.failed = true,
        }
    }
}

impl<'o, W: Write> RowSink<DayTotal> for ReportRows<'o, W> {
    ghost use Rattle.energy_report.specs.Writing.{TakesDay};

    ghost takes = { λ old total new. TakesDay W.contents old total new };

    fn put(&mut self, total: DayTotal) {
        if self.failed {
            return;
        }
        if !self.form.range.has(total.day) {
            return;
        }
        let Some(open) = self.pending else {
            self.pending = Some(Row::new(&total));
            return;
        };
        if self.form.period.has_both(open.first, total.day) {
            self.pending = Some(open.and(&total));
            return;
        }
        self.write_row(&open);
        self.pending = Some(Row::new(&total));
    }
}
