//! Writes the lines of energy reports to an HTTP response. No function in this module allocates.
ghost use Rattle.interval_core.specs.Report.{day_line};
ghost use Rattle.interval_core.specs.Lines.{end_line, share_line};
ghost use Rattle.office_http.specs.Messages.Sending.Sending.{Puts};

use crate::messages::sending::ResponseWriter;
use interval_core::{DayTotal, Share};
use mb_wire::Link;
use script_text::{day_line, end_line, interval_line};

/// Writes the line of one quarter hour to a report: its start in seconds since 1970-01-01 UTC, and
/// its energy in mWh.
pub fn write_share<L: Link>(row: &Share, writer: &mut ResponseWriter<'_, L>)
    ensures { Puts writer.old writer.new (share_line row.now) }
{
    writer.write_bytes(interval_line(*row).bytes());
}

/// Writes the line of one day to a report. The line has the day as `YYYY-MM-DD`, the number of
/// recorded quarter hours in 3 columns, and the day's energy in mWh in 24 columns. Spaces separate
/// the fields, and both numbers are right-aligned.
pub fn append_day<L: Link>(total: &DayTotal, writer: &mut ResponseWriter<'_, L>)
    ensures { Puts writer.old writer.new (day_line total.now) }
{
    writer.write_bytes(day_line(total).bytes());
}

/// Writes the last line of a report, which contains the number of rows.
pub fn append_end<L: Link>(count: u64, writer: &mut ResponseWriter<'_, L>)
    ensures { Puts writer.old writer.new (end_line count) }
{
    writer.write_bytes(end_line(count).bytes());
}
