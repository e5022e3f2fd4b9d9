//! Reads what earlier runs left in a store: the time of the latest record, and polls without an
//! outcome. A run reads both before it starts, because the program then records each such poll as
//! lost.
ghost use Rattle.std.specs.Prelude.{◌≡◌, false, nat_lt, IfSome};
ghost use Rattle.office_core.specs.Leaving.{BooksStand};
ghost use Rattle.office_books.specs.History.{History};
ghost use Rattle.office_program.specs.Texts.Passing.{Lasts};
ghost use Rattle.office_running.specs.Runs.{IsLeft};

use crate::fault::RunFault;
use mb_wire::sockets::Clock;
use office_books::Books;
use std::io::Write;

/// The timestamp of a store's latest record, and the number of polls in the store without an
/// outcome.
#[derive(Clone, Copy)]
pub(crate) struct Left {
    /// The timestamp of the store's latest record, in seconds since 1970-01-01 UTC.
    pub(crate) latest: u64,
    /// The number of polls whose outcome the store does not have.
    pub(crate) waiting: usize,
}

/// Returns the timestamp of a store's latest record and the number of its polls without an outcome;
/// `None` if the store fails.
pub(crate) fn left_in<B: Books>(books: &mut B) -> Option<Left>
    ensures stands { (past : History) → BooksStand (B.ledger books.old) past
        → BooksStand (B.ledger books.new) past }
    ensures left { (past : History) → BooksStand (B.ledger books.old) past
        → (B.ledger books.new).is_clean → IfSome result (λ left. IsLeft past left) }
    ensures lasts { Lasts (B.ledger books.old) (B.ledger books.new) }
{
    let latest = books.latest();
    let pending = books.pending();
    match (latest, pending) {
        (Ok(latest), Ok(pending)) => Some(Left {
            latest,
            waiting: pending.len(),
        }),
        (Ok(_), Err(_)) => None,
        (Err(_), _) => None,
    }
}

/// Prints the line `books to TIME lost COUNT`. TIME is the timestamp of the latest record. COUNT is
/// the number of polls that the program records as lost when it starts. Prints nothing for `None`.
pub(crate) fn print_left<W: Write>(left: Option<Left>, output: &mut W) -> Result<(), RunFault> {
    let Some(left) = left else {
        return Ok(());
    };
    let Left { latest, waiting } = left;
    match writeln!(output, "books to {latest} lost {waiting}") {
        Ok(()) => Ok(()),
        Err(_) => Err(RunFault::Output),
    }
}

/// Writes to `errors` that the program cannot start on a store, if the store's latest record is
/// later than the clock. The message has both times, and says what to do.
///
/// Returns true if the store's latest record is later than the clock.
pub fn say_ahead<E: Write>(latest: u64, now: u64, errors: &mut E) -> bool
    ensures ahead { result ≡ nat_lt now latest }
    ensures silent { result ≡ false → errors.new ≡ errors.old }
{
    let is_ahead = now < latest;
    if is_ahead {
        let _said = writeln!(
            errors,
            "sunreg: the last record has the time {latest}, but the clock says {now}; if the clock is wrong, set it; if the time of the record is wrong, wait until the clock has passed it, or continue with an earlier backup"
        );
    }
    is_ahead
}

/// Reports that the program did not start on a store whose latest record is later than the clock.
/// Reports nothing if the program did not start for another reason.
pub(crate) fn say_unopened<C: Clock, E: Write>(left: Option<Left>, clock: &mut C, errors: &mut E) {
    let Some(left) = left else {
        return;
    };
    let _is_ahead = say_ahead(left.latest, clock.now(), errors);
}
