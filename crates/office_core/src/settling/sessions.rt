//! Applies a device event to the Modbus session of a device, and adds the outcomes of polls to the
//! pending write (records not yet stored).
ghost use Rattle.std.specs.Prelude.{◌≡◌, ◌≤◌, true, not, None, OnOk, IfOk};
ghost use Rattle.poll_core.specs.Settling as happening;
ghost use Rattle.office_books.specs.Facts.{moment_limit};
ghost use Rattle.office_books.specs.Ledgers.{Consults};
ghost use Rattle.office_core.specs.Settling.Drafts.{IsIdle};
ghost use Rattle.office_core.specs.Settling.Settling.{IsSettling, happening_on, SettlesNothing, ReportsAll, ReportsReached, ReachesQuietly, ends_session};

use crate::sessions::is_named;
use crate::settling::drafts::PendingWrite;
use crate::settling::outcomes::add_outcome;
use office_books::{Books, BooksFault};
use office_events::{Device, Event};
use poll_core::{Closing, Session, longer_pieces_settle};

/// Passes a chunk of received bytes to a Modbus session. Adds the outcomes of the polls that the
/// bytes end to the pending write (records not yet stored).
fn settle_piece<B: Books>(
    session: &mut Session,
    books: &mut B,
    draft: &mut PendingWrite,
    moment: u64,
    piece: &[u8],
) -> Result<(), BooksFault>
    requires limit { moment ≤ moment_limit }
    requires rests { session.old.settling ≡ None }
    ensures reports { ReportsAll (B.ledger books.old) (B.ledger books.new) session.old session.new
        (happening.Piece moment piece.now) draft.old draft.new result }
    ensures quiet { SettlesNothing session.old (happening.Piece moment piece.now)
        → IsIdle result books.old books.new draft.old draft.new }
    ensures rests { OnOk result (session.new.settling ≡ None) }
    ensures reads { Consults (B.ledger books.old) (B.ledger books.new) result }
{
    longer_pieces_settle();
    let mut taken = 0;
    'turns: loop {
        let Ok(turn) = session.next(moment, &piece[taken..]) else {
            return Ok(());
        };
        taken += turn.taken;
        match turn.settled {
            None => return Ok(()),
            Some(settled) => add_outcome(books, draft, moment, &settled)?,
        }
    }
}

/// Passes a timer event to a Modbus session, and adds the outcomes of the polls that time out to
/// the pending write (records not yet stored).
fn settle_timer<B: Books>(
    session: &mut Session,
    books: &mut B,
    draft: &mut PendingWrite,
    moment: u64,
) -> Result<(), BooksFault>
    requires limit { moment ≤ moment_limit }
    requires rests { session.old.settling ≡ None }
    ensures reports { ReportsAll (B.ledger books.old) (B.ledger books.new) session.old session.new
        (happening.Tick moment) draft.old draft.new result }
    ensures quiet { SettlesNothing session.old (happening.Tick moment)
        → IsIdle result books.old books.new draft.old draft.new }
    ensures rests { OnOk result (session.new.settling ≡ None) }
    ensures reads { Consults (B.ledger books.old) (B.ledger books.new) result }
{
    'turns: loop {
        let Ok(reported) = session.tick(moment) else {
            return Ok(());
        };
        match reported {
            None => return Ok(()),
            Some(settled) => add_outcome(books, draft, moment, &settled)?,
        }
    }
}

/// Closes a Modbus session, and adds the outcomes of its pending polls to the pending write
/// (records not yet stored).
fn settle_close<B: Books>(
    session: &mut Session,
    books: &mut B,
    draft: &mut PendingWrite,
    moment: u64,
    closing: Closing,
) -> Result<(), BooksFault>
    requires limit { moment ≤ moment_limit }
    requires rests { session.old.settling ≡ None }
    ensures reports { ReportsAll (B.ledger books.old) (B.ledger books.new) session.old session.new
        (happening.Close moment closing) draft.old draft.new result }
    ensures quiet { SettlesNothing session.old (happening.Close moment closing)
        → IsIdle result books.old books.new draft.old draft.new }
    ensures reads { Consults (B.ledger books.old) (B.ledger books.new) result }
{
    'turns: loop {
        let Ok(reported) = session.close(moment, closing) else {
            return Ok(());
        };
        match reported {
            None => return Ok(()),
            Some(settled) => add_outcome(books, draft, moment, &settled)?,
        }
    }
}

/// Applies an event to the Modbus session of a device, if the event concerns this device. Returns
/// true if the device stays connected.
pub fn settle_session<B: Books>(
    session: &mut Session,
    device: &Device,
    books: &mut B,
    draft: &mut PendingWrite,
    moment: u64,
    event: &Event,
) -> Result<bool, BooksFault>
    requires settling { IsSettling event.now }
    requires limit { moment ≤ moment_limit }
    requires rests { session.old.settling ≡ None }
    ensures reports { ReportsReached (B.ledger books.old) (B.ledger books.new) session.old session.new
        (happening_on moment event.now device.now) draft.old draft.new result }
    ensures stays { let ends = ends_session (happening_on moment event.now device.now) in
        IfOk result (λ b. b ≡ not ends) }
    ensures quiet { ReachesQuietly session.old (happening_on moment event.now device.now)
        → IsIdle result books.old books.new draft.old draft.new }
    ensures rests { IfOk result (λ b. b ≡ true → session.new.settling ≡ None) }
    ensures reads { Consults (B.ledger books.old) (B.ledger books.new) result }
{
    match event {
        Event::Bytes(given, piece) if is_named(given, device) => {
            settle_piece(session, books, draft, moment, piece.as_slice())?;
            Ok(true)
        }
        Event::Tick => {
            settle_timer(session, books, draft, moment)?;
            Ok(true)
        }
        Event::Gone(given, closing) if is_named(given, device) => {
            settle_close(session, books, draft, moment, *closing)?;
            Ok(false)
        }
        _ => Ok(true),
    }
}
