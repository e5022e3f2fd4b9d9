//! Theorems for clients that copy the quarter-hour energy of meters. Each theorem holds for all
//! records that the program's rules for records accept.
ghost use Rattle.run_http.specs.Copies.{EntriesComeAfter, RowsBeforeStay};

use interval_core::shares_add_up;

/// Theorem: suppose that no later record voids (withdraws) an entry of a meter below a given
/// sequence number. Then a client's copy of the quarter hours before that of the last valid (not
/// voided) entry below this number stays correct.
///
/// Suppose no later record voids (withdraws) an entry below a given sequence number. Consider the
/// last valid (not voided) entry below that number, and its quarter hour. All earlier quarter hours
/// are unchanged. So a copy of the earlier quarter hours, and the server's rows from that quarter
/// hour on, are together complete.
pub fn rows_before_stay()
    ensures { RowsBeforeStay }
{
    shares_add_up();
}

/// Theorem: if no entry is voided, then only the quarter hour of a meter's last entry and later
/// quarter hours can change. The program reports the time of the last entry together with the
/// meter's energy.
pub fn entries_come_after()
    ensures { EntriesComeAfter }
{}
