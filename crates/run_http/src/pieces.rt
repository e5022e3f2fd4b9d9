//! Streams the quarter hours of a meter in chunks, so that no complete response is in memory.
ghost use Rattle.std.specs.Prelude.{◌≡◌, ◌+◌, ◌<◌, ◌≤◌, [], ◌++◌, length, flat_map, IfOk, IfSome, OnOk};
ghost use Rattle.office_http.specs.Messages.Sending.Replies.{text_head};
ghost use Rattle.interval_core.specs.Lines.{intervals_text, share_line};
ghost use Rattle.run_http.specs.Copies as copies;
ghost use Rattle.run_http.specs.Pieces as pieces;
ghost use Rattle.run_http.specs.Pieces.{BeginsReply, PiecesAreWhole, SizesRows, ReportsOn, ReportsRest};
ghost use Rattle.run_http.specs.Pieces.{TextStays};

use crate::meter_replies::ask_intervals;
use crate::route::write_start_of;
use crate::row_sizes::{RowSizes, Sizes};
use crate::status::{append_bytes, write_number, write_word};
use crate::texts::{append_end, write_share_lines};
use energy_core::INTERVAL_SECONDS;
use interval_core::{Share, shares_add_up};
use office_books::{Books, Span, facts_are_lawful};
use office_core::Office;
use office_events::{Installation, Name, Refusal};
use office_http::messages::Status;
use std::alloc::{AllocError, Global};

/// The remaining part of a response that streams the quarter hours of a meter.
#[derive(Drop)]
pub struct RemainingRows {
    meter: Option<Name>,
    /// The interval rows (energies of quarter hours) that the response must still query start at
    /// `from` or later and before `till`.
    from: u64,
    till: u64,
    /// The interval rows at the end of the response, from the quarter hour of the meter's last
    /// entry. They are copied when the response begins, because new entries can change these rows
    /// in the store.
    last: Vec<Share>,
    /// The number of rows of the response that were already written.
    reported: usize,
}

fn quarter_of(moment: u64) -> u64
    ensures { result ≡ copies.quarter_of moment }
{
    moment - moment % INTERVAL_SECONDS
}

// Returns the start of the time span to query: `from`, or the start of the meter's first quarter
// hour if that is later.
fn first_asked(it: &Installation, from: u64) -> u64
    ensures { result ≡ pieces.first_asked it.now from }
{
    from.max(quarter_of(it.opening.at))
}

// Returns the end of the time span whose rows are queried chunk by chunk: `till`, or the quarter
// hour of the meter's last entry if that is earlier.
fn end_of_streamed(it: &Installation, from: u64, till: u64) -> u64
    ensures { result ≡ pieces.end_of_streamed it.now from till }
{
    first_asked(it, from).max(till.min(quarter_of(it.last.at)))
}

/// Returns whether a response with the quarter hours between `from` and `till` is long: its rows
/// that are queried chunk by chunk span more than `seconds` seconds.
pub fn is_long_response(it: &Installation, from: u64, till: u64, seconds: u64) -> bool
    ensures { result ≡ pieces.is_long_response it.now from till seconds }
{
    end_of_streamed(it, from, till).saturating_sub(first_asked(it, from)) > seconds
}

// Queries the last rows of a response, which new entries can change, and keeps these rows in
// memory. All other rows are queried later, chunk by chunk.
fn begin_rows<B: Books>(
    alloc: Global,
    office: &mut Office<B>,
    it: &Installation,
    from: u64,
    till: u64,
) -> Result<Result<RemainingRows, Refusal>, AllocError>
    ensures { BeginsReply B.ledger office.old office.new it.now from till intervals_text [] result }
{
    shares_add_up();
    facts_are_lawful();
    let first = first_asked(it, from);
    let end = end_of_streamed(it, from, till);
    let meter = Some(it.opening.meter);
    let answer = ask_intervals(alloc, office, &meter, Span::Between { from: end, till })?;
    match answer {
        Ok(last) => Ok(Ok(RemainingRows {
            meter,
            from: first,
            till: end,
            last,
            reported: 0,
        })),
        Err(why) => Ok(Err(why)),
    }
}

// Queries those rows of a streamed response that were not queried yet, and measures their lines for
// the response's Content-Length.
fn ask_sizes<B: Books>(
    alloc: Global,
    office: &mut Office<B>,
    left: &RemainingRows,
) -> Result<Result<Sizes, Refusal>, AllocError>
    ensures { SizesRows B.ledger office.old office.new left.now result }
{
    let mut sizes = RowSizes::new(alloc);
    let span = Span::Between {
        from: left.from,
        till: left.till,
    };
    let answer = office.intervals_within(&left.meter, span, &mut sizes);
    let reported = sizes.whole()?;
    match answer {
        Ok(()) => Ok(Ok(reported)),
        Err(why) => Ok(Err(why)),
    }
}

// Adds three numbers. Returns `None` if the sum overflows.
fn sum_of(a: usize, b: usize, c: usize) -> Option<usize>
    ensures { IfSome result (λ sum. sum ≡ a + b + c) }
{
    a.checked_add(b)?.checked_add(c)
}

// Returns the size in bytes of a response's body, given the sizes of the rows that are still to be
// queried.
fn body_size(alloc: Global, left: &RemainingRows, sizes: Sizes) -> Result<usize, AllocError>
    ensures { IfOk result (λ size. size ≡ pieces.body_size left.now sizes) }
{
    let Some(count) = sum_of(left.reported, sizes.count, left.last.len()) else {
        return Err(AllocError);
    };
    let mut rest = Vec::new(alloc);
    write_share_lines(&mut rest, &left.last)?;
    append_end(&mut rest, count)?;
    match sizes.bytes.checked_add(rest.len()) {
        Some(size) => Ok(size),
        None => Err(AllocError),
    }
}

// Appends the head of a plain-text response with a body of `size` bytes.
fn write_head(text: &mut Vec<u8>, size: usize) -> Result<(), AllocError>
    ensures { OnOk result (text.new.items ≡ pieces.with_head size text.old.items) }
{
    write_start_of(text, Status::Fine, b"text/plain", size)?;
    append_bytes(text, b"\r\n\r\n")
}

/// Starts to stream a response that contains the quarter hours of a meter from `from` on and before
/// `till`. `it` is the meter as the program reports it now.
///
/// The function appends the response's head, which contains the size of the body. If memory runs
/// out, only a part of the head was appended.
pub fn begin_intervals<B: Books>(
    alloc: Global,
    text: &mut Vec<u8>,
    office: &mut Office<B>,
    it: &Installation,
    from: u64,
    till: u64,
) -> Result<Result<RemainingRows, Refusal>, AllocError>
    ensures { BeginsReply B.ledger office.old office.new it.now from till
        (pieces.with_rows text.old.items) text.new.items result }
{
    let left = match begin_rows(alloc, office, it, from, till)? {
        Ok(left) => left,
        Err(why) => return Ok(Err(why)),
    };
    let sizes = match ask_sizes(alloc, office, &left)? {
        Ok(sizes) => sizes,
        Err(why) => return Ok(Err(why)),
    };
    let size = body_size(alloc, &left, sizes)?;
    write_head(text, size)?;
    Ok(Ok(left))
}

// Appends the head of a plain-text response without `Content-Length`.
fn write_text_head(text: &mut Vec<u8>) -> Result<(), AllocError>
    ensures { OnOk result (text.new.items ≡ text.old.items ++ text_head) }
{
    write_number(text, b"HTTP/1.1 ", u64::from(Status::Fine.number()))?;
    write_word(text, b" ", Status::Fine.reason())?;
    append_bytes(
        text,
        b"\r\nContent-Type: text/plain\r\nConnection: close\r\n\r\n",
    )
}

/// Starts to stream a response that contains all quarter hours of a meter. The response has no
/// `Content-Length`.
pub fn begin_all_intervals<B: Books>(
    alloc: Global,
    text: &mut Vec<u8>,
    office: &mut Office<B>,
    it: &Installation,
) -> Result<Result<RemainingRows, Refusal>, AllocError>
    ensures { BeginsReply B.ledger office.old office.new it.now 0 18446744073709551615
        (pieces.with_all_rows text.old.items) text.new.items result }
{
    let begun = begin_rows(alloc, office, it, 0, u64::MAX)?;
    match begun {
        Ok(left) => {
            write_text_head(text)?;
            Ok(Ok(left))
        }
        Err(why) => Ok(Err(why)),
    }
}

// Returns the end of the time span whose rows form the next chunk of a response: `from` plus
// `seconds`, at most `till`.
fn piece_end(from: u64, till: u64, seconds: u64) -> u64
    ensures low { from ≤ till → from ≤ result }
    ensures high { result ≤ till }
    ensures none { till ≤ from → result ≡ till }
    ensures some { from < till → 0 < seconds → from < result }
    ensures few { result ≤ from + seconds }
{
    if till <= from || till - from <= seconds {
        till
    } else {
        from + seconds
    }
}

// Appends the lines of a chunk's rows to a streamed response. The rows of the next chunk then start
// at `till`.
fn add_piece(
    text: &mut Vec<u8>,
    left: &mut RemainingRows,
    rows: &[Share],
    till: u64,
) -> Result<(), AllocError>
    ensures text { OnOk result (text.new.items ≡ text.old.items ++ flat_map share_line rows.now) }
    ensures left { OnOk result (left.new
        ≡ record left.old { from = till; reported = left.old.reported + length rows.now }) }
{
    let Some(reported) = left.reported.checked_add(rows.len()) else {
        return Err(AllocError);
    };
    write_share_lines(text, rows)?;
    left.reported = reported;
    left.from = till;
    Ok(())
}

/// Returns whether some rows of the streamed response are still to be queried.
pub fn has_more(left: &RemainingRows) -> bool
    ensures { result ≡ pieces.has_more left.now }
{
    left.from < left.till
}

/// Queries the next rows of a streamed response, which start within the next `seconds` seconds of
/// its time span, and appends their lines. If memory runs out, only a part of these lines was
/// appended.
pub fn write_next_rows<B: Books>(
    alloc: Global,
    text: &mut Vec<u8>,
    office: &mut Office<B>,
    left: &mut RemainingRows,
    seconds: u64,
) -> Result<Result<(), Refusal>, AllocError>
    ensures { ReportsOn B.ledger office.old office.new left.old left.new seconds
        text.old.items text.new.items result }
{
    shares_add_up();
    facts_are_lawful();
    let till = piece_end(left.from, left.till, seconds);
    let span = Span::Between {
        from: left.from,
        till,
    };
    let answer = ask_intervals(alloc, office, &left.meter, span)?;
    match answer {
        Ok(rows) => {
            add_piece(text, left, &rows, till)?;
            Ok(Ok(()))
        }
        Err(why) => Ok(Err(why)),
    }
}

// Returns the number of rows in a complete streamed response: the rows already written, and the
// last rows, which were copied when the response began. All other rows must already be written.
// Returns `None` if the number overflows.
fn count_of(left: &RemainingRows) -> Option<usize>
    ensures { IfSome result (λ count. count ≡ left.now.reported + length left.now.last.items) }
{
    left.reported.checked_add(left.last.len())
}

/// Appends the last rows of a streamed response, which were copied when the response began, and the
/// line with the number of all rows. All other rows must already be written. If memory runs out,
/// only a part of the text was appended.
pub fn write_last_rows(text: &mut Vec<u8>, left: &RemainingRows) -> Result<(), AllocError>
    ensures { OnOk result (ReportsRest left.now text.old.items text.new.items) }
{
    let Some(count) = count_of(left) else {
        return Err(AllocError);
    };
    write_share_lines(text, &left.last)?;
    append_end(text, count)
}

/// Theorem: later records do not change the text that a streamed response still has to send. The
/// exception is a record that voids (withdraws) an entry which the meter had when the response
/// began.
pub fn text_stays()
    ensures { TextStays }
{
    shares_add_up();
}

/// Theorem: if no record added between chunks voids (withdraws) an entry that the meter had at the
/// beginning, the chunks form one response. This response shows the rows as of the time at which
/// the response began.
pub fn chunks_form_response()
    ensures { PiecesAreWhole }
{
    shares_add_up();
}
