//! Theorems about the energy by quarter hours and civil days, for all values. Each theorem is the
//! contract of a function with an empty body.
ghost use Rattle.interval_core.specs.Account.{SharesAddUp, AccountsAddUp};
ghost use Rattle.interval_core.specs.Days.{AccountsAreOne, AccountsIgnoreOrder};
ghost use Rattle.interval_core.specs.Zone.{ZonesAreOne};

/// Theorem: a step (the energy between two readings) has one share for each quarter hour that it
/// touches, in order. The shares add up to the energy of the step.
pub fn shares_add_up()
    ensures { SharesAddUp }
{}

/// Theorem: the interval rows (energies of quarter hours) of a list of steps (energies between two
/// readings) add up to the energy of all steps.
pub fn accounts_add_up()
    ensures { AccountsAddUp }
{}

/// Theorem: interval rows (energies of quarter hours) have exactly one list of energies by civil
/// day, however a program computes the list.
pub fn accounts_are_one()
    ensures { AccountsAreOne }
{}

/// Theorem: the order of interval rows (energies of quarter hours) does not change the energies by
/// civil day.
pub fn accounts_ignore_order()
    ensures { AccountsIgnoreOrder }
{}

/// Theorem: time zones that were parsed from the same text have the same civil day at every
/// timestamp.
pub fn zones_are_one()
    ensures { ZonesAreOne }
{}
