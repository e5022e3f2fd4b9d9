//! Writes the rows of a report as lines of an HTTP response.
ghost use Rattle.std.specs.Prelude.{◌≡◌};
ghost use Rattle.office_http.specs.Messages.Sending.Sending.{Puts};
ghost use Rattle.interval_core.specs.Lines.{share_line};
ghost use Rattle.interval_core.specs.Report.{day_line};
ghost use Rattle.office_http.specs.Rows.Reports.{EndsReport, PutsLine, Report, head_before};

use crate::messages::{
    ResponseWriter, append_day, append_end, append_refusal, write_share, write_text_head,
};
use interval_core::{DayTotal, Share};
use mb_wire::Link;
use office_books::RowSink;
use office_events::Refusal;
use std::marker::Model;

/// A visitor of a query's rows that writes each row as a line of the response. Before the first
/// row, the visitor writes the head of the response.
#[derive(Drop)]
pub struct RowLines<'l, L: Link> {
    writer: ResponseWriter<'l, L>,
    count: u64,
}

impl<'l, L: Link> Model for RowLines<'l, L> {
    ghost Value = { Report };

    ghost view = { λ lines. record { out = lines.writer; count = lines.count } };
}

/// An HTTP response that was written completely or was cut off.
#[derive(Drop)]
pub struct Replied<'l, L: Link> {
    pub writer: ResponseWriter<'l, L>,
    /// The reason why the response was cut off, or `None` if it is complete.
    pub cut: Option<Refusal>,
}

// Writes the head of the HTTP response if no row of the report was written yet.
fn write_head<L: Link>(count: u64, writer: &mut ResponseWriter<'_, L>)
    ensures { Puts writer.old writer.new (head_before count) }
{
    if count == 0 {
        write_text_head(writer);
    }
}

impl<'l, L: Link> RowLines<'l, L> {
    /// Makes a visitor of a query's rows that has written no row.
    pub fn new(writer: ResponseWriter<'l, L>) -> RowLines<'l, L>
        ensures { result ≡ record { out = writer.entry; count = 0 } }
    {
        RowLines { writer, count: 0 }
    }

    /// Ends the report with the number of its rows, or with a refusal of the query.
    ///
    /// A refusal of the query before the first row becomes the response. A refusal after a row cuts
    /// the response off, and nothing more is written.
    pub fn finish_report(self, answer: Result<(), Refusal>) -> Replied<'l, L>
        ensures { EndsReport self.entry answer result.writer result.cut }
    {
        let RowLines { mut writer, count } = self;
        match answer {
            Ok(()) => {
                write_head(count, &mut writer);
                append_end(count, &mut writer);
                Replied { writer, cut: None }
            }
            Err(why) => {
                if count > 0 {
                    return Replied {
                        writer,
                        cut: Some(why),
                    };
                }
                append_refusal(why, &mut writer);
                Replied { writer, cut: None }
            }
        }
    }
}

impl<'l, L: Link> RowSink<Share> for RowLines<'l, L> {
    ghost takes = { λ old row new. PutsLine (share_line row) old new };

    fn put(&mut self, row: Share) {
        write_head(self.count, &mut self.writer);
        write_share(&row, &mut self.writer);
        self.count = self.count.saturating_add(1);
    }
}

impl<'l, L: Link> RowSink<DayTotal> for RowLines<'l, L> {
    ghost takes = { λ old row new. PutsLine (day_line row) old new };

    fn put(&mut self, row: DayTotal) {
        write_head(self.count, &mut self.writer);
        append_day(&row, &mut self.writer);
        self.count = self.count.saturating_add(1);
    }
}
