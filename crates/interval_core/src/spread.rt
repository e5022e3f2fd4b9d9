//! The energy of a step (between two consecutive readings), spread evenly over the step's seconds.
ghost use Rattle.std.specs.Prelude.{◌≡◌, ◌+◌, ◌-◌, ◌*◌, ◌<◌, ◌≤◌};
ghost use Rattle.energy_core.specs.declared.limits.TheConstants.{MAX_TOTAL};
ghost use Rattle.interval_core.specs.declared.limits.TheConstants.{MAX_STEP_SECONDS};

use crate::limits::MAX_STEP_SECONDS;
use energy_core::{MAX_TOTAL, Step};

/// The energy of a step (between two readings) by seconds. Every second has `each` mWh, and
/// `left_over` mWh are spread over all seconds.
#[derive(Clone, Copy)]
pub struct Spread {
    pub step: Step,
    seconds: u64,
    each: u64,
    left_over: u64,
    pub ghost forward: { step.from < step.till },
    pub ghost seconds_are: { seconds ≡ step.till - step.from },
    pub ghost short: { seconds ≤ MAX_STEP_SECONDS },
    pub ghost full: { step.mwh ≤ MAX_TOTAL },
    pub ghost whole: { step.mwh ≡ each * seconds + left_over },
    pub ghost rest: { left_over < seconds },
}

impl Spread {
    ghost use Rattle.interval_core.specs.Share.{running_energy};

    pub fn new(step: Step) -> Spread
        requires forward { step.from < step.till }
        requires short { step.till ≤ step.from + MAX_STEP_SECONDS }
        requires full { step.mwh ≤ MAX_TOTAL }
        ensures { result.step ≡ step }
    {
        let seconds = step.till - step.from;
        Spread {
            step,
            seconds,
            each: step.mwh / seconds,
            left_over: step.mwh % seconds,
        }
    }

    /// Returns the energy of the step (between two readings) from its beginning to the time
    /// `moment`, rounded down to whole mWh.
    pub fn running(&self, moment: u64) -> u64
        requires from { self.now.step.from ≤ moment }
        requires till { moment ≤ self.now.step.till }
        ensures { result ≡ running_energy self.now.step moment }
    {
        let passed = moment - self.step.from;
        self.each * passed + self.left_over * passed / self.seconds
    }
}
