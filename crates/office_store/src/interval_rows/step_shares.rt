//! Adds the energy of a step (the energy between two consecutive entries of a meter) to the table
//! `intervals`.
ghost use Rattle.std.specs.Prelude.{◌<◌, ◌≤◌, [], ◌∷◌};
ghost use Rattle.sqlite.specs.Held.{state};
ghost use Rattle.store_tables.specs.Steps.{Steps, IsSameBorrow};
ghost use Rattle.energy_core.specs.Account.{intervals_touched};
ghost use Rattle.interval_core.specs.Share.{shares_of};
ghost use Rattle.store_tables.specs.Limits.{latest_moment};
ghost use Rattle.store_tables.specs.Meters.Rows.{greatest_total};
ghost use Rattle.office_store.specs.Intervals.Rows.{IsSoundShare};
ghost use Rattle.office_store.specs.Intervals.StepShares.{BooksShares};

use energy_core::{MAX_INTERVALS, Step};
use interval_core::{Share, Shares, shares_add_up};
use sqlite::{Alter, Error, Transaction, params};
use store_tables::number;

/// Adds a meter's energy in one quarter hour to the row of `intervals` for this quarter hour, or
/// inserts the row.
fn add_share<S: Alter>(
    tx: &mut Transaction<'_, S>,
    meter: &str,
    share: Share,
) -> Result<usize, Error>
    requires sound { IsSoundShare share }
    ensures same_reference { IsSameBorrow tx.old.conn tx.new.conn }
    ensures does { Steps (state S.Store tx.old.conn.now) (state S.Store tx.new.conn.now) result
        (BooksShares meter.now (share ∷ [])) }
{
    let start = number(share.start);
    let mwh = number(share.mwh);
    tx.execute(
        "INSERT INTO intervals (meter, start, mwh) VALUES (?1, ?2, ?3) ON CONFLICT (meter, start) DO UPDATE SET mwh = mwh + excluded.mwh",
        params![meter, &start, &mwh],
    )
}

/// Adds the energy between two consecutive entries of a meter to the meter's rows of `intervals`.
/// Each quarter hour between the entries gets its part of this energy, even if the part is 0 mWh.
pub fn book_step<S: Alter>(
    tx: &mut Transaction<'_, S>,
    meter: &str,
    step: &Step,
) -> Result<(), Error>
    requires forward { step.now.from < step.now.till }
    requires intervals { intervals_touched step.now.from step.now.till ≤ MAX_INTERVALS }
    requires energy { step.now.mwh ≤ greatest_total }
    requires till { step.now.till ≤ latest_moment }
    ensures same_reference { IsSameBorrow tx.old.conn tx.new.conn }
    ensures does { Steps (state S.Store tx.old.conn.now) (state S.Store tx.new.conn.now) result
        (BooksShares meter.now (shares_of step.now)) }
{
    shares_add_up();
    let mut shares = Shares::of(step);
    while let Some(share) = shares.next() {
        add_share(tx, meter, share)?;
    }
    Ok(())
}
