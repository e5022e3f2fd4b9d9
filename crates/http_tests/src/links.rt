//! Tests of HTTP requests that are cut off, and of responses over connections that fail.
use matchit::Router;
use mb_wire::{Link, MemoryLink};
use office_http::messages::{
    Inbox, ResponseWriter, Route, Status, TakeFault, is_whole, read_request, router, write_json,
};
use office_http::{HandleFault, write_misdirected};
use std::alloc::Global;
use std::process::Abort;

static REQUEST: &[u8] =
    b"POST /devices HTTP/1.1\r\nContent-Length: 4\r\nOffice-Caller: anna\r\nOffice-Request: 7\r\n\r\n{ } and more";

// The length in bytes of the tested request, including its body.
const WHOLE: usize = 89;

// Reads the first `end` bytes of the tested HTTP request in chunks of ten bytes, over a connection
// that ends or fails. Asserts that the request is incomplete, and checks the reported fault and the
// bytes that were read.
fn assert_unread(
    rt: &impl Abort,
    alloc: Global,
    router: &Router<Route>,
    end: usize,
    failing: Option<u64>,
) {
    let mut room = vec![in alloc; 0u8; 73_728].expect(rt, "no memory");
    let bytes = REQUEST.get(..end).unwrap_or(REQUEST);
    assert!(rt; is_whole(router, bytes) == (end == WHOLE), "{end}");
    let mut link = MemoryLink::new(bytes, &mut [], 10, failing);
    let mut inbox = Inbox::new(&mut room);
    let fault = read_request(router, &mut inbox, &mut link).err();
    match failing {
        Some(call) => {
            assert!(rt; fault == Some(TakeFault::Read));
            assert!(rt; [link.takes(), link.failures()] == [call, 1]);
        }
        None => {
            assert!(rt; fault == Some(TakeFault::Short));
            assert!(rt; inbox.bytes().len() == end);
            assert!(rt; link.failures() == 0);
        }
    }
}

// A request is not accepted if it ends at any byte before its end, or if any read of its connection
// fails.
#[test]
fn a_request_may_end_or_fail_anywhere(rt: HostRuntime) {
    let router = router(rt.alloc()).expect(&rt, "no router");
    for end in 0..WHOLE {
        assert_unread(&rt, rt.alloc(), &router, end, None);
    }
    for call in 1..10 {
        assert_unread(&rt, rt.alloc(), &router, WHOLE, Some(call));
    }
    assert!(rt; is_whole(&router, b"no head\r\n\r\n"));
}

static JSON: &[u8] =
    b"HTTP/1.1 404 Not Found\r\nContent-Type: application/json\r\nContent-Length: 13\r\nConnection: close\r\n\r\n{\"refused\":1}";

// Whichever write of a response fails, the bytes that were written before it are a prefix of the
// response.
#[test]
fn each_write_of_a_reply_may_fail(rt: HostRuntime) {
    for call in 1..12u64 {
        let mut output = [0; 200];
        let mut link = MemoryLink::new(b"", &mut output, 10, Some(call));
        let mut writer = ResponseWriter::new(&mut link);
        write_json(Status::NotFound, b"{\"refused\":1}", &mut writer);
        assert!(rt; writer.finish().is_err());
        assert!(rt; link.failures() == 1);
        assert!(rt; JSON.starts_with(link.given()));
    }
}

static BLOCK: [u8; 300] = [b'x'; 300];

// After a failed write, no more bytes of the response are written.
#[test]
fn nothing_is_written_after_a_failed_write(rt: HostRuntime) {
    let mut output = [0; 2000];
    let mut link = MemoryLink::new(b"", &mut output, 100, Some(2));
    let mut writer = ResponseWriter::new(&mut link);
    for _ in 0..4 {
        writer.write_bytes(&BLOCK);
    }
    assert!(rt; writer.finish().is_err());
    assert!(rt; link.given().len() == 100);
    assert!(rt; link.failures() == 1);
}

// Checks that if the connection fails, a request with an unauthorized Host header gets no response,
// and the failure is reported.
#[test]
fn a_link_that_fails_rejects_nobody(rt: HostRuntime) {
    let mut output = [0; 400];
    let mut link = MemoryLink::new(b"", &mut output, 400, Some(1));
    assert!(rt; write_misdirected(&mut link) == Err(HandleFault::Write));
    let mut office_link = MemoryLink::new(b"GET", &mut [], 400, None);
    assert!(rt; write_misdirected(&mut office_link).is_err());
}
