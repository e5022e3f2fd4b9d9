//! Counters that roll over: SunSpec's `acc32`, and counters with a smaller range.
ghost use Rattle.std.specs.Prelude.{◌≡◌, ℕ, ◌≤◌, ◌%◌, ◌↔◌, IsSome, IfSome};
ghost use Rattle.energy_core.specs.declared.limits.TheConstants.{MAX_RANGE, MIN_RANGE};

use crate::limits::{MAX_RANGE, MIN_RANGE};

/// A counter that rolls over: it shows the true count modulo the counter's range.
pub trait Counter {
    /// The number of counts in a full turn of the counter.
    ghost range: { Self → ℕ };

    /// Returns the number of counts in a full turn of the counter.
    fn range(&self) -> u64
        ensures { result ≡ range self.now };

    /// Returns the value that the counter shows after `count` counts in total: `count` modulo the
    /// counter's range.
    fn shown(&self, count: u64) -> u32
        ensures { result ≡ count % range self.now };

    ghost at_least: { (c : Self) → MIN_RANGE ≤ range c };

    ghost at_most: { (c : Self) → range c ≤ MAX_RANGE };
}

/// A counter of 32 bits, such as SunSpec's `acc32`.
#[derive(Clone, Copy, PartialEq, Eq)]
pub struct Acc32;

impl Counter for Acc32 {
    ghost use Rattle.std.proofs.Common.{lit≤};
    ghost use Rattle.energy_core.specs.declared.limits.TheConstants.{MAX_RANGE};

    ghost range = { λ _. MAX_RANGE };

    ghost at_least = { λ _. lit≤ tt };

    ghost at_most = { λ _. lit≤ tt };

    fn range(&self) -> u64 {
        MAX_RANGE
    }

    fn shown(&self, count: u64) -> u32 {
        (count % MAX_RANGE) as u32
    }
}

/// A counter whose range may be less than 2^32 counts. Many meters roll over at a power of ten.
#[derive(Clone, Copy)]
pub struct Ranged {
    range: u64,
    ghost at_least: { MIN_RANGE ≤ range },
    ghost at_most: { range ≤ MAX_RANGE },
}

impl Ranged {
    ghost use Rattle.energy_core.specs.Ranged.{IsRange, range_of};

    /// Creates a counter with a range from 65,536 to 4,294,967,296 counts. Returns `None` for any
    /// other range.
    pub fn new(range: u64) -> Option<Self>
        ensures valid { IsSome result ↔ IsRange range }
        ensures value { IfSome result (λ counter. range_of counter ≡ range) }
    {
        if (MIN_RANGE..=MAX_RANGE).contains(&range) {
            Some(Ranged { range })
        } else {
            None
        }
    }
}

impl Counter for Ranged {
    ghost use Rattle.energy_core.specs.Ranged.{range_of};

    ghost range = { range_of };

    ghost at_least = { λ c. c.at_least };

    ghost at_most = { λ c. c.at_most };

    fn range(&self) -> u64 {
        self.range
    }

    fn shown(&self, count: u64) -> u32 {
        (count % self.range) as u32
    }
}
