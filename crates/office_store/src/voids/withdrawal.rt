//! Subtracts the energy between two consecutive entries of a meter from the table `intervals`.
ghost use Rattle.std.specs.Prelude.{◌<◌, ◌≤◌, ◌^◌, [], ◌∷◌};
ghost use Rattle.sqlite.specs.Held.{state};
ghost use Rattle.energy_core.specs.Account.{intervals_touched};
ghost use Rattle.interval_core.specs.Share.{shares_of};
ghost use Rattle.store_tables.specs.Limits.{latest_moment};
ghost use Rattle.store_tables.specs.Meters.Rows.{greatest_total};
ghost use Rattle.store_tables.specs.Steps.{Steps, IsSameBorrow};
ghost use Rattle.office_store.specs.Intervals.Rows.{IsSoundShare};
ghost use Rattle.office_store.specs.Voids.Withdrawal.{TakesShares, DropsRows};

use energy_core::{MAX_INTERVALS, Step};
use interval_core::{Share, Shares, shares_add_up};
use sqlite::{Alter, Error, Transaction, params};
use store_tables::number;

/// Subtracts a meter's energy in one quarter hour from the row of `intervals` for this quarter
/// hour.
fn take_share<S: Alter>(
    tx: &mut Transaction<'_, S>,
    meter: &str,
    share: Share,
) -> Result<usize, Error>
    requires sound { IsSoundShare share }
    ensures same_reference { IsSameBorrow tx.old.conn tx.new.conn }
    ensures does { Steps (state S.Store tx.old.conn.now) (state S.Store tx.new.conn.now) result
        (TakesShares meter.now (share ∷ [])) }
{
    let start = number(share.start);
    let mwh = number(share.mwh);
    tx.execute(
        "UPDATE intervals SET mwh = mwh - ?3 WHERE meter = ?1 AND start = ?2",
        params![meter, &start, &mwh],
    )
}

/// Subtracts the energy between two consecutive entries of a meter from the meter's rows of
/// `intervals`: from each quarter hour, its part of the energy. If a row's energy becomes 0 mWh,
/// the row remains.
pub fn take_step<S: Alter>(
    tx: &mut Transaction<'_, S>,
    meter: &str,
    step: &Step,
) -> Result<(), Error>
    requires forward { step.now.from < step.now.till }
    requires intervals { intervals_touched step.now.from step.now.till ≤ MAX_INTERVALS }
    requires energy { step.now.mwh ≤ greatest_total }
    requires till { step.now.till ≤ latest_moment }
    ensures same_reference { IsSameBorrow tx.old.conn tx.new.conn }
    ensures does { Steps (state S.Store tx.old.conn.now) (state S.Store tx.new.conn.now) result
        (TakesShares meter.now (shares_of step.now)) }
{
    shares_add_up();
    let mut shares = Shares::of(step);
    while let Some(share) = shares.next() {
        take_share(tx, meter, share)?;
    }
    Ok(())
}

/// Deletes a meter's rows of `intervals` whose quarter hours start at `from` or later.
pub fn drop_rows_from<S: Alter>(
    tx: &mut Transaction<'_, S>,
    meter: &str,
    from: u64,
) -> Result<usize, Error>
    requires from { from < 2 ^ 63 }
    ensures same_reference { IsSameBorrow tx.old.conn tx.new.conn }
    ensures does { Steps (state S.Store tx.old.conn.now) (state S.Store tx.new.conn.now) result
        (DropsRows meter.now from) }
{
    let from = number(from);
    tx.execute(
        "DELETE FROM intervals WHERE meter = ?1 AND start >= ?2",
        params![meter, &from],
    )
}
