//! Opens an office (the engine that records meters' energy) over a store, for queries only.
ghost use Rattle.std.specs.Prelude.{◌≡◌, ◌≢◌, IfOk, IfErr};
ghost use Rattle.office_core.specs.Standing.{IsFresh};
ghost use Rattle.office_program.specs.Texts.AskedOffice.{OpensToAskOver, RefusesToAskOver};
ghost use Rattle.office_program.specs.Texts.OpenedOffice.{LastsInside};

use crate::texts::end_texts::print_refusal;
use crate::texts::opened_office::Unopened;
use command_io::ExitStatus;
use mb_wire::sockets::Clock;
use office_books::Books;
use office_core::Office;
use std::alloc::Global;
use std::io::Write;

/// Opens an event engine over a store for queries.
///
/// The event engine is opened at the clock's time, or at the latest timestamp in the store if that
/// timestamp is later. So a clock that was set back prevents no query. If opening the engine is
/// refused, the function prints `refused N`.
pub fn open_office_to_ask<B: Books, C: Clock, W: Write>(
    alloc: Global,
    books: B,
    clock: &mut C,
    output: &mut W,
) -> Result<Office<B>, Unopened<B>>
    ensures opened { OpensToAskOver B.Books C.Clock books clock.old clock.new result }
    ensures fresh { IfOk result (λ office. IsFresh office) }
    ensures silent { IfOk result (λ office. output.new ≡ output.old) }
    ensures refused { RefusesToAskOver B.Books C.Clock W.Write books clock.old clock.new
        output.old output.new result }
    ensures ends { IfErr result (λ e. e.status ≢ ExitStatus.Fine) }
    ensures lasts { LastsInside B.ledger books result }
{
    let moment = clock.now();
    match Office::open_to_ask(alloc, books, moment) {
        Ok(office) => Ok(office),
        Err((books, why)) => Err(Unopened {
            books,
            status: print_refusal(why, output),
        }),
    }
}
