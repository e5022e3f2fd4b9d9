//! Opens an office (the engine that records meters' energy) over a store at the clock's time.
ghost use Rattle.std.specs.Prelude.{◌≡◌, ◌≢◌, IfOk, IfErr};
ghost use Rattle.office_core.specs.Standing.{IsFresh};
ghost use Rattle.office_program.specs.Texts.OpenedOffice.{LastsInside, OpensOver, RefusesOver};

use crate::texts::end_texts::print_refusal;
use command_io::ExitStatus;
use mb_wire::sockets::Clock;
use office_books::Books;
use office_core::Office;
use std::alloc::Global;
use std::io::Write;

/// A store over which no event engine could be opened, with the exit status of the command.
#[derive(Drop)]
pub struct Unopened<B> {
    pub books: B,
    pub status: ExitStatus,
}

/// Opens an event engine over a store at the clock's time. If opening the engine is refused, the
/// function prints `refused N`.
pub fn open_office<B: Books, C: Clock, W: Write>(
    alloc: Global,
    books: B,
    clock: &mut C,
    output: &mut W,
) -> Result<Office<B>, Unopened<B>>
    ensures opened { OpensOver B.Books C.Clock books clock.old clock.new result }
    ensures fresh { IfOk result (λ office. IsFresh office) }
    ensures silent { IfOk result (λ office. output.new ≡ output.old) }
    ensures refused { RefusesOver B.Books C.Clock W.Write books clock.old clock.new
        output.old output.new result }
    ensures ends { IfErr result (λ e. e.status ≢ ExitStatus.Fine) }
    ensures lasts { LastsInside B.ledger books result }
{
    let moment = clock.now();
    match Office::open(alloc, books, moment) {
        Ok(office) => Ok(office),
        Err((books, why)) => Err(Unopened {
            books,
            status: print_refusal(why, output),
        }),
    }
}
