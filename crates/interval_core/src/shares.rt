//! The shares of a step (the energy between two consecutive readings) in the quarter hours that it
//! touches.
ghost use Rattle.std.specs.Prelude.{◌≡◌, ◌<◌, ◌≤◌};
ghost use Rattle.std.specs.Iterator.{YieldsFirst, item_count};
ghost use Rattle.energy_core.specs.Account.{intervals_touched};
ghost use Rattle.interval_core.specs.Share.{shares_of};

use crate::spread::Spread;
pub use energy_core::INTERVAL_SECONDS as INTERVAL;
use energy_core::{MAX_INTERVALS, MAX_TOTAL, Step};
use std::marker::Model;

/// The energy of one quarter hour in mWh, and the start of the quarter hour in seconds since
/// 1970-01-01 UTC.
#[derive(Clone, Copy, PartialEq, Eq)]
pub struct Share {
    pub start: u64,
    pub mwh: u64,
}

/// An iterator over the shares of a step (the energy between two readings), one for each quarter
/// hour that the step touches, in order. The iterator allocates nothing.
#[derive(Drop)]
pub struct Shares {
    spread: Spread,
    interval: u64,
    end: u64,
    reached: u64,
}

impl Model for Shares {
    ghost use Rattle.std.specs.Prelude.{List};
    ghost use Rattle.interval_core.specs.declared.shares.Share.{Share};

    ghost Value = { List Share };

    ghost use Rattle.interval_core.specs.Underway.{IsUnderway, left};

    ghost view = { left };

    ghost invariant = { IsUnderway };
}

impl Shares {
    /// Returns an iterator over the shares, by quarter hour, of a step (the energy between two
    /// readings).
    pub fn of(step: &Step) -> Shares
        requires forward { step.now.from < step.now.till }
        requires intervals { intervals_touched step.now.from step.now.till ≤ MAX_INTERVALS }
        requires energy { step.now.mwh ≤ MAX_TOTAL }
        ensures { result ≡ shares_of step.now }
    {
        let spread = Spread::new(*step);
        Shares {
            spread,
            interval: step.from / INTERVAL,
            end: (step.till - 1) / INTERVAL + 1,
            reached: 0,
        }
    }
}

impl Iterator for Shares {
    type Item = Share;

    ghost next_gives = { YieldsFirst (λ s. s) };

    ghost remaining = { item_count (λ s. s) };

    fn next(&mut self) -> Option<Share> {
        if self.interval == self.end {
            return None;
        }
        let start = self.interval * INTERVAL;
        let stop = start.saturating_add(INTERVAL).min(self.spread.step.till);
        let reached = self.spread.running(stop);
        let mwh = reached - self.reached;
        self.reached = reached;
        self.interval += 1;
        Some(Share { start, mwh })
    }
}
