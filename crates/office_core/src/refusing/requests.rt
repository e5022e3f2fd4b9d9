//! Finds the stored answer to a request that is a retry: the store has a request with the same
//! idempotency key and the same bytes.
ghost use Rattle.std.specs.Prelude.{◌≡◌, IsOk, IfOk};
ghost use Rattle.office_books.specs.Refusals.{kept_of};
ghost use Rattle.office_books.specs.Ledgers.{Finds, OnlyReads};
ghost use Rattle.office_core.specs.Refusing.Kept.{kept_as, IsNoRequest, IsReusedIfRefused};

use office_books::{Books, BooksFault, Repeat};
use office_events::{CommandKind, Event, Refusal};

/// Returns the answer to a request with a known idempotency key: the stored answer to a retry, or
/// the refusal `Reused` (the request stored under this key has other bytes).
fn answer_by(repeat: Repeat) -> Result<CommandKind, Refusal>
    ensures { result ≡ kept_as repeat }
{
    match repeat {
        Repeat::Same(kind) => Ok(kind),
        Repeat::Other => Err(Refusal::Reused),
    }
}

/// Returns the stored answer if the request is a retry, or `Reused` if the request stored under the
/// same idempotency key has other bytes.
///
/// Returns `None` if the idempotency key is unknown, or if the event has no key. Does not copy the
/// request that is stored with the key.
pub fn kept<B: Books>(
    books: &mut B,
    event: &Event,
) -> Result<Option<Result<CommandKind, Refusal>>, BooksFault>
    ensures found { Finds (B.ledger books.old) (B.ledger books.new) result
        (λ known answer. answer ≡ kept_of known event.now) }
    ensures reads { OnlyReads (B.ledger books.old) (B.ledger books.new) result }
    ensures reused { IfOk result IsReusedIfRefused }
    ensures quiet { IsNoRequest event.now → (books.new ≡ books.old) × IsOk result }
{
    let Event::Asked(asked) = event else {
        return Ok(None);
    };
    let Some(caller) = &asked.caller else {
        return Ok(None);
    };
    let repeat = books.repeat(caller, asked.number, asked.request.as_slice())?;
    Ok(repeat.map(answer_by))
}
