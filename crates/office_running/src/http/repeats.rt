//! Caches a response, and returns it again for an equal request until the store records something.
ghost use Rattle.std.specs.Prelude.{◌≡◌, IfSome, None};
ghost use Rattle.office_running.specs.Http.Repeats as repeats;

use std::alloc::Global;

// The maximum size of a cached response, in bytes. An energy report by month is shorter.
const MOST_BYTES: usize = 65_536;

/// The cached pair of a request and the response to the request.
#[derive(Drop)]
pub(crate) struct Replied {
    pub(crate) request: Vec<u8>,
    pub(crate) reply: Vec<u8>,
}

/// The cache with the latest response about energy. The energy of an accounting register (a named
/// energy counter) is summed over all its rows, and many clients with equal queries would repeat
/// that sum.
#[derive(Drop)]
pub(crate) struct Repeats {
    pub(crate) latest: Option<Replied>,
}

// Copies a request and the response to it. Returns `None` if memory runs out.
fn copied(alloc: Global, request: &[u8], reply: &[u8]) -> Option<Replied>
    ensures { IfSome result (λ it. repeats.IsOf request.now reply.now it) }
{
    let Ok(request) = Vec::from_slice(alloc, request) else {
        return None;
    };
    match Vec::from_slice(alloc, reply) {
        Ok(reply) => Some(Replied { request, reply }),
        Err(_) => None,
    }
}

impl Repeats {
    /// Makes an empty response cache.
    pub(crate) fn new() -> Repeats
        ensures { result.latest ≡ None }
    {
        Repeats { latest: None }
    }

    /// Replaces the cached response. The new response is cached only if it has status 200 and at
    /// most 64 KiB, and memory suffices.
    pub(crate) fn keep(&mut self, alloc: Global, request: &[u8], reply: &[u8])
        ensures { IfSome self.new.latest (λ it. repeats.IsOf request.now reply.now it) }
    {
        self.latest = if reply.len() <= MOST_BYTES && reply.starts_with(b"HTTP/1.1 200 ") {
            copied(alloc, request, reply)
        } else {
            None
        };
    }

    /// Drops the cached request and its cached response.
    pub(crate) fn forget(&mut self)
        ensures { self.new.latest ≡ None }
    {
        self.latest = None;
    }

    /// Returns a copy of the cached response if the request is equal, byte for byte, to the request
    /// for which the response was cached. Returns `None` if the requests differ or memory runs out.
    pub(crate) fn again(&self, alloc: Global, request: &[u8]) -> Option<Vec<u8>>
        ensures { IfSome result (λ reply.
            repeats.WasReplied self.now.latest request.now reply.items) }
    {
        let Some(latest) = &self.latest else {
            return None;
        };
        if latest.request.as_slice() != request {
            return None;
        }
        match Vec::from_slice(alloc, &latest.reply) {
            Ok(reply) => Some(reply),
            Err(_) => None,
        }
    }
}
