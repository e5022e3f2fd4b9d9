//! Merges the shares of consecutive steps (energies between meter entries). A share is the part of
//! a step's energy that falls in one quarter hour.
ghost use Rattle.std.specs.Prelude.{◌≡◌, ◌+◌, ◌^◌, ◌≤◌, ◌<◌, ◌++◌, ◌∷◌, [], IsSome};
ghost use Rattle.std.specs.Prelude.{OnOk, OnErr};
ghost use Rattle.std.specs.Option.{ForSome, option_to_list};
ghost use Rattle.energy_core.specs.Account.{intervals_touched};
ghost use Rattle.interval_core.specs.Share.{shares_of};
ghost use Rattle.interval_core.specs.Account.{energy_of};
ghost use Rattle.meter_journal.specs.Intervals.{with_shares};

use energy_core::{MAX_INTERVALS, MAX_TOTAL, Step};
use interval_core::{Share, Shares, shares_add_up};
use std::alloc::AllocError;

/// Merges the next share (an energy in one quarter hour) into the pending interval row, the energy
/// of the latest quarter hour. If the share is in another interval, the share becomes the pending
/// row and the function returns the completed row.
pub fn join(pending: &mut Option<Share>, share: Share) -> Option<Share>
    requires { ForSome pending.old (λ row. row.mwh + share.mwh < 2 ^ 64) }
    ensures rows { let so_far = option_to_list pending.old in
        option_to_list result ++ option_to_list pending.new ≡ with_shares so_far (share ∷ []) }
    ensures still_open { IsSome pending.new }
{
    match *pending {
        Some(row) if row.start == share.start => {
            let mwh = row.mwh + share.mwh;
            *pending = Some(Share {
                start: row.start,
                mwh,
            });
            None
        }
        done => {
            *pending = Some(share);
            done
        }
    }
}

/// Adds the next share (an energy in one quarter hour) to a list of interval rows. A share in the
/// interval of the last row is merged into that row, and any other share becomes a new row.
fn join_last(rows: &mut Vec<Share>, share: Share) -> Result<(), AllocError>
    requires { energy_of rows.old.items + share.mwh < 2 ^ 64 }
    ensures ok { OnOk result (rows.new.items ≡ with_shares rows.old.items (share ∷ [])) }
    ensures err { OnErr result (rows.new.items ≡ rows.old.items) }
{
    let count = rows.len();
    if count > 0 {
        let row = rows[count - 1];
        if row.start == share.start {
            let mwh = row.mwh + share.mwh;
            rows[count - 1] = Share {
                start: row.start,
                mwh,
            };
            return Ok(());
        }
    }
    rows.push(share)?;
    Ok(())
}

/// Adds the energies by quarter hour of a later step (the energy between two entries) to a list of
/// interval rows. The only error is out of memory.
pub fn append_shares(rows: &mut Vec<Share>, step: &Step) -> Result<(), AllocError>
    requires forward { step.now.from < step.now.till }
    requires intervals { intervals_touched step.now.from step.now.till ≤ MAX_INTERVALS }
    requires energy { energy_of rows.old.items + step.now.mwh ≤ MAX_TOTAL }
    ensures { OnOk result (rows.new.items ≡ with_shares rows.old.items (shares_of step.now)) }
{
    shares_add_up();
    let mut shares = Shares::of(step);
    while let Some(share) = shares.next() {
        join_last(rows, share)?;
    }
    Ok(())
}
