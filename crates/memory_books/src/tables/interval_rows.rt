//! Adds up the energy of a meter's entries by quarter hour, and passes the rows to a sink (a
//! consumer of rows).
ghost use Rattle.std.specs.Prelude.{◌+◌, ◌^◌, ◌≤◌, ◌<◌, ◌∷◌, []};
ghost use Rattle.std.specs.Option.{ForSome, option_to_list};
ghost use Rattle.interval_core.specs.Account.{energy_of};
ghost use Rattle.energy_core.specs.Account.{intervals_touched};
ghost use Rattle.interval_core.specs.Share.{shares_of};
ghost use Rattle.meter_journal.specs.Books as books;
ghost use Rattle.office_books.specs.Sound.{HasNumbers};
ghost use Rattle.office_books.specs.Meters as meters;
ghost use Rattle.memory_books.specs.Tables.IntervalRows.{Passes, TakesRowsOf, TakesSome, TakesWithin};

use energy_core::{
    MAX_INTERVALS, MAX_RANGE, MAX_TOTAL, MIN_RANGE, Ranged, Step, Terms, accounts_are_sound, enter,
    entered_is_booked,
};
use interval_core::{Share, Shares, shares_add_up};
use meter_journal::{EntryRow, Installed, Tally, join};
use office_books::{RowSink, Span, has_numbers, installed};
use office_events::Opening;

fn write_within<K: RowSink<Share>>(span: Span, row: Share, sink: &mut K)
    ensures { TakesWithin K.takes span sink.old row sink.new }
{
    if span.contains(row.start) {
        sink.put(row);
    }
}

/// Adds a quarter-hour energy to the row of its quarter hour. When the next quarter hour begins,
/// the function passes the finished row to the sink (a consumer of rows) if this row is in the time
/// span.
fn pass_share<K: RowSink<Share>>(waits: &mut Option<Share>, share: Share, span: Span, sink: &mut K)
    requires { ForSome waits.old (λ row. row.mwh + share.mwh < 2 ^ 64) }
    ensures passes { Passes (TakesWithin K.takes span) sink.old sink.new waits.old waits.new
        (share ∷ []) }
    ensures energy { energy_of (option_to_list waits.new)
        ≤ energy_of (option_to_list waits.old) + share.mwh }
{
    if let Some(row) = join(waits, share) {
        write_within(span, row, sink);
    }
}

fn pass_step<K: RowSink<Share>>(waits: &mut Option<Share>, step: &Step, span: Span, sink: &mut K)
    requires forward { step.now.from < step.now.till }
    requires intervals { intervals_touched step.now.from step.now.till ≤ MAX_INTERVALS }
    requires energy { energy_of (option_to_list waits.old) + step.now.mwh ≤ MAX_TOTAL }
    ensures passes { Passes (TakesWithin K.takes span) sink.old sink.new waits.old waits.new
        (shares_of step.now) }
    ensures energy { energy_of (option_to_list waits.new)
        ≤ energy_of (option_to_list waits.old) + step.now.mwh }
{
    shares_add_up();
    let mut shares = Shares::of(step);
    while let Some(share) = shares.next() {
        pass_share(waits, share, span, sink);
    }
}

/// Passes the quarter-hour rows of a meter's valid entries to the sink (a consumer of rows), in
/// order. Rows outside the time span are left out. If the accounting rules refuse one of the
/// entries, the sink may get only some of the rows.
fn pass_rows<K: RowSink<Share>>(meter: &Installed, rows: &[EntryRow], span: Span, sink: &mut K)
    requires range_low { MIN_RANGE ≤ meter.now.range }
    requires range_high { meter.now.range ≤ MAX_RANGE }
    requires installed { books.IsWellInstalled meter.now }
    ensures whole { TakesRowsOf (TakesWithin K.takes span) sink.old meter.now rows.now sink.new }
    ensures some { TakesSome (TakesWithin K.takes span) sink.old sink.new }
{
    accounts_are_sound();
    entered_is_booked();
    let Some(counter) = Ranged::new(meter.range) else {
        unreachable!()
    };
    let mut tally = Tally {
        last: meter.opening,
        total: 0,
    };
    let mut waits = None;
    for row in rows {
        if row.stands {
            let terms = Terms {
                ceiling: meter.ceiling,
                total: tally.total,
            };
            match enter(&counter, &terms, &tally.last, &row.entry) {
                Ok((last, step)) => {
                    pass_step(&mut waits, &step, span, sink);
                    let total = tally.total + step.mwh;
                    tally = Tally { last, total };
                }
                Err(_) => return,
            }
        }
    }
    if let Some(row) = waits {
        write_within(span, row, sink);
    }
}

/// Passes the quarter-hour rows of a meter to the sink (a consumer of rows), in order. Rows outside
/// the time span are left out. If the accounting rules refuse one of the meter's entries, the sink
/// may get only some of the rows.
pub(crate) fn hand_on<K: RowSink<Share>>(
    opening: &Opening,
    rows: &[EntryRow],
    span: Span,
    sink: &mut K,
)
    ensures whole { HasNumbers opening.now
        → TakesRowsOf (TakesWithin K.takes span) sink.old (meters.installed opening.now) rows.now
        sink.new }
    ensures some { TakesSome (TakesWithin K.takes span) sink.old sink.new }
{
    if has_numbers(opening) {
        let meter = installed(opening);
        pass_rows(&meter, rows, span, sink);
    }
}
