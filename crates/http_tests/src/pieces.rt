//! Tests of long HTTP responses, whose quarter hours are sent in chunks, and of the requests for
//! these responses.
use crate::cases::{serve, sized_reply};
use crate::office::polled;
use office_books::{Books, Span};
use office_core::Office;
use office_events::{Installation, Name};
use office_http::messages::router;
use run_http::{
    ClientResponse, RemainingRows, all_rows_asked, ask, begin_all_intervals, begin_intervals,
    has_more, is_long_response, may_void, reply_intervals, write_last_rows, write_next_rows,
};
use std::alloc::Global;
use std::process::Abort;

// Returns the meter `m1`, which was installed at time 1000 s and read at 1900 s.
fn meter<B: Books>(rt: &impl Abort, office: &mut Office<B>) -> Installation {
    match office.meter(&Name::new(b"m1")) {
        Ok(it) => it,
        Err(_) => panic!(rt; "no meter"),
    }
}

// Writes the head of an HTTP response with a meter's quarter hours: those in a time span, or all if
// `span` is `None`. Returns the quarter hours that remain to be written.
fn begun<B: Books>(
    rt: &impl Abort,
    alloc: Global,
    text: &mut Vec<u8>,
    office: &mut Office<B>,
    span: Option<(u64, u64)>,
) -> RemainingRows {
    let it = meter(rt, office);
    let started = match span {
        Some((from, till)) => begin_intervals(alloc, text, office, &it, from, till),
        None => begin_all_intervals(alloc, text, office, &it),
    };
    match started.expect(rt, "no memory") {
        Ok(left) => left,
        Err(_) => panic!(rt; "refused"),
    }
}

// Writes the remaining quarter hours of an HTTP response in chunks that cover `seconds` seconds
// each. Returns the number of chunks.
fn write_rest<B: Books>(
    rt: &impl Abort,
    alloc: Global,
    text: &mut Vec<u8>,
    office: &mut Office<B>,
    left: &mut RemainingRows,
    seconds: u64,
) -> u32 {
    let mut count = 0u32;
    for _chunk in 0..20 {
        if has_more(left) {
            let chunk = write_next_rows(alloc, text, office, left, seconds).expect(rt, "no memory");
            assert!(rt; chunk.is_ok());
            count = count.saturating_add(1);
        }
    }
    write_last_rows(text, left).expect(rt, "no memory");
    count
}

// Returns an HTTP response with a meter's quarter hours, written in chunks that cover `seconds`
// seconds each.
fn in_chunks<B: Books>(
    rt: &impl Abort,
    alloc: Global,
    office: &mut Office<B>,
    span: Option<(u64, u64)>,
    seconds: u64,
) -> Vec<u8> {
    let mut text = Vec::new(alloc);
    let mut left = begun(rt, alloc, &mut text, office, span);
    write_rest(rt, alloc, &mut text, office, &mut left, seconds);
    text
}

static SPANS: [(u64, u64); 6] = [
    (0, u64::MAX),
    (900, 1801),
    (900, 1800),
    (901, 1801),
    (1801, 5000),
    (1801, 900),
];

// Asserts that the chunks of a response together equal the response that is written at once. A
// chunk covers less than one quarter hour, one quarter hour, or several.
fn assert_spans<B: Books>(rt: &impl Abort, alloc: Global, office: &mut Office<B>) {
    for (from, till) in SPANS {
        let mut whole = Vec::new(alloc);
        let span = Span::Between { from, till };
        reply_intervals(alloc, &mut whole, office, &Name::new(b"m1"), span).expect(rt, "no memory");
        for seconds in [100, 900, 90000] {
            let text = in_chunks(rt, alloc, office, Some((from, till)), seconds);
            assert!(rt;
                text.as_slice() == whole.as_slice(),
                "{from} {till} {seconds}"
            );
        }
    }
}

static ALL_ROWS: &[u8] = b"GET /meters/m1/intervals HTTP/1.1\r\nHost: localhost\r\n\r\n";

// An HTTP request that enters a reading by hand after a response began. In a later response, the
// last quarter hour has more energy, and one more follows.
static LATER: &[u8] =
    b"POST /registers/main/manual HTTP/1.1\r\nContent-Length: 22\r\nOffice-Caller: desk\r\nOffice-Request: 4\r\n\r\n{\"raw\":5500,\"rolls\":0}";

// Asserts that a response has the quarter hours as of the response's beginning, although a reading
// is entered before the only chunk is written.
fn assert_earlier_rows<B: Books>(rt: &impl Abort, alloc: Global, office: &mut Office<B>) {
    let mut text = Vec::new(alloc);
    let mut left = begun(rt, alloc, &mut text, office, Some((0, 9000)));
    let served = serve(alloc, office, 2800, LATER).expect(rt, "no memory");
    assert!(rt; served.given.starts_with(b"HTTP/1.1 200 "));
    assert!(rt; write_rest(rt, alloc, &mut text, office, &mut left, 900) == 1);
    let wanted = sized_reply(alloc, "200 OK", "900 177777\n1800 22223\nend 2\n").expect(
        rt,
        "no memory",
    );
    assert!(rt; text.as_slice() == wanted.as_bytes());
}

// Asserts the chunks of a response for each time span, and for all quarter hours. The quarter hours
// reach from the quarter hour of the meter's first entry (900 s) to that of its last entry (1800
// s).
fn assert_chunks<B: Books>(rt: &impl Abort, alloc: Global, office: &mut Office<B>) {
    assert_spans(rt, alloc, office);
    let text = in_chunks(rt, alloc, office, None, 900);
    match ask(alloc, ALL_ROWS, office, 1900) {
        ClientResponse::Replied(reply) => assert!(rt; text.as_slice() == reply.as_slice()),
        _ => panic!(rt; "no reply"),
    }
    let it = meter(rt, office);
    assert!(rt; is_long_response(&it, 0, u64::MAX, 899));
    assert!(rt; !is_long_response(&it, 0, u64::MAX, 900));
    assert!(rt; !is_long_response(&it, 1800, 900, 0));
    assert!(rt; !is_long_response(&it, 0, 1000, 100));
    assert_earlier_rows(rt, alloc, office);
}

// The chunks of a response together equal the response that is written at once, even if a reading
// is entered between the chunks.
#[test]
fn chunks_make_up_the_reply(rt: HostRuntime) {
    let mut office = polled(&rt, rt.alloc());
    assert_chunks(&rt, rt.alloc(), &mut office);
}

static OTHERS: [&[u8]; 6] = [
    b"POST /meters/m1/intervals HTTP/1.1\r\n\r\n",
    b"GET /meters/m1 HTTP/1.1\r\n\r\n",
    b"GET /meters//intervals HTTP/1.1\r\n\r\n",
    b"GET /registers/m1/days HTTP/1.1\r\n\r\n",
    b"GET /meters/m1/intervals HTTP/1.1\r\n",
    b"",
];

static VOIDS: [(&[u8], bool); 6] = [
    (b"POST /meters/m1/void HTTP/1.1\r\n\r\n", true),
    (b"\r\nPOST /meters/m1/void HTTP/1.1\r\n\r\n", true),
    (b"POST /registers/main/manual HTTP/1.1\r\n\r\n", false),
    (b"GET /meters/m1/void HTTP/1.1\r\n\r\n", false),
    (b"POST /meters/m1/void HTTP/1.1\r\n", false),
    (b"", false),
];

// Checks which requests are recognized as requests for all quarter hours of a meter, and which as
// requests that may void (cancel) an entry.
#[test]
fn requests_are_recognized(rt: HostRuntime) {
    let router = router(rt.alloc()).expect(&rt, "no router");
    assert!(rt; all_rows_asked(&router, ALL_ROWS) == Some(Name::new(b"m1")));
    let nobody = b"GET /meters/1/intervals HTTP/1.1\r\n\r\n";
    assert!(rt; all_rows_asked(&router, nobody) == Some(None));
    for other in OTHERS {
        assert!(rt; all_rows_asked(&router, other) == None);
    }
    for (request, is_void) in &VOIDS {
        assert!(rt; may_void(request) == *is_void);
    }
}
