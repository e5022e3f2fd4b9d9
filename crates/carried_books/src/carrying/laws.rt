//! Theorems on file rollovers, in which the meters of an old database file continue in a new one.
ghost use Rattle.carried_books.specs.Carrying.Recorded.{CommandsRecordTheSame};
ghost use Rattle.carried_books.specs.Carrying.Recorded.{MetersGoOnWhereTheyStand};

/// Proves that the commands for a new database file record exactly the old file's devices, point
/// lists and accounting registers (named counters), and the meters' openings (first entries).
pub fn commands_record_the_same()
    ensures { CommandsRecordTheSame }
{}

/// Proves that each meter continues in its present state when a new database file begins, if no
/// timestamp is given as a limit.
pub fn meters_continue_from_their_last_state()
    ensures { MetersGoOnWhereTheyStand }
{}
