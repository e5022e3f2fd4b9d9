//! Meter entries with the numbers of a command, before the program checks them.
ghost use Rattle.std.specs.Prelude.{◌≡◌};
ghost use Rattle.energy_core.specs.declared.entries.Entry.TheVariants as entry;
ghost use Rattle.office_books.specs.History.{read_at};
ghost use Rattle.office_core.specs.Refusing.Given.{entry_of};

use office_events::{Manual, Rescale};

/// A meter entry with the numbers of a command. The numbers are unchecked, so the counter may be
/// unable to show them.
#[derive(Clone, Copy)]
pub enum GivenEntry {
    /// A meter entry of the kind `Step`. The counter advanced to `raw`, with `rolls` rollovers.
    Step {
        at: u64,
        raw: u64,
        rolls: u64,
    },
    /// A meter entry of the kind `Change`. The counter advanced to `before` and was then set to
    /// `after`, at the scale factor `sf`.
    Change {
        at: u64,
        before: u64,
        after: u64,
        sf: i64,
    },
}

/// Returns the meter entry for a change of scale.
pub fn rescaled(moment: u64, rescale: &Rescale) -> GivenEntry
    ensures { entry_of result
        ≡ entry.Change moment rescale.now.before rescale.now.after rescale.now.sf }
{
    GivenEntry::Change {
        at: moment,
        before: rescale.before,
        after: rescale.after,
        sf: rescale.sf,
    }
}

/// Returns the meter entry for a manual reading.
pub fn read_off(moment: u64, manual: &Manual) -> GivenEntry
    ensures { entry_of result
        ≡ entry.Step (read_at moment manual.now.at) manual.now.raw manual.now.rolls }
{
    GivenEntry::Step {
        at: manual.at.unwrap_or(moment),
        raw: manual.raw,
        rolls: manual.rolls,
    }
}
