//! Theorems for all values: on the energies between a meter's entries, on the rules by which
//! entries and readings are accepted, and on the meter's total energy.
ghost use Rattle.energy_core.specs.Laws.{StepsAddUp, StepsAreTheWhole, EnteredIsBooked};
ghost use Rattle.energy_core.specs.Laws.{AcceptedIsPlausible, AcceptedIsEntered, AccountsBegin};
ghost use Rattle.energy_core.specs.Laws.{AccountsGoOn, AccountsAreSound, ReadingsKeepAccounts};
ghost use Rattle.energy_core.specs.TrueRun.{TruthIsBooked};

/// Theorem: if no entry's count is less than the count before it, the energies between consecutive
/// entries add up to the meter's total energy.
pub fn steps_add_up()
    ensures both_sides { StepsAddUp }
    ensures whole { StepsAreTheWhole }
{}

/// Theorem: a meter's entry is recorded if and only if two conditions are true. The entry may
/// follow the last entry (it is later, has no lower count, and is within the limits). The total
/// energy stays within its limit.
pub fn entered_is_booked()
    ensures { EnteredIsBooked }
{}

/// Theorem: a reading is accepted if and only if no cause to reject the reading applies.
pub fn accepted_is_plausible()
    ensures { AcceptedIsPlausible }
{}

/// Theorem: the check of entries (`entered`) records each accepted reading as an entry, with the
/// energy that the verdict on the reading states.
pub fn accepted_is_entered()
    ensures { AcceptedIsEntered }
{}

/// Theorem: a meter that was just installed has recorded 0 mWh.
pub fn accounts_begin()
    ensures { AccountsBegin }
{}

/// Theorem: suppose that the entries of an installed meter obey the rules (`IsAccount`: rising
/// times, no falling counts, limits). Then the entries with one more recorded entry obey these
/// rules too.
pub fn accounts_go_on()
    ensures { AccountsGoOn }
{}

/// Theorem: if a meter's entries obey the rules (`IsAccount`), the meter's state is sound
/// (`IsSound`): within its limits, and with the sum of the entries' energies as its total. The
/// opening (the first entry) must have a count below the counter's range and a scale factor from -3
/// to 3.
pub fn accounts_are_sound()
    ensures { AccountsAreSound }
{}

/// Theorem: an accepted reading becomes an entry of the meter. After any list of readings, the
/// meter's entries obey the rules (`IsAccount`: rising times, no falling counts, limits). The
/// meter's first count must be below the counter's range.
pub fn readings_keep_accounts()
    ensures { ReadingsKeepAccounts }
{}

/// Theorem: readings from a meter that shows its true counts and is polled often enough are always
/// accepted. Each recorded energy equals the true energy, however often the counter rolled over.
pub fn truth_is_booked()
    ensures { TruthIsBooked }
{}
