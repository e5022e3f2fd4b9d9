//! The response to a query for `/site`: the accounting registers (named energy counters) and their
//! meters.
ghost use Rattle.std.specs.Prelude.{◌≡◌, OnOk};
ghost use Rattle.run_http.specs.SiteReply.{with_refusal, with_site_reply};

use crate::route::append_reply;
use crate::texts::{SiteLine, write_site};
use office_events::Refusal;
use office_http::messages::{Status, refused_body, status_of};
use std::alloc::{AllocError, Global};

/// Appends the response that reports the program's refusal of a query.
pub(crate) fn append_refusal(text: &mut Vec<u8>, why: Refusal) -> Result<(), AllocError>
    ensures { OnOk result (text.new.items ≡ with_refusal why text.old.items) }
{
    let body = refused_body(why.number());
    append_reply(text, status_of(why), b"application/json", body.bytes())
}

/// Appends the response to a query for `/site`: the accounting registers (named energy counters)
/// and meters, or an error response if the program refused the query. `moment` is in seconds since
/// 1970-01-01 UTC. If memory runs out, only a part of the response was appended.
pub fn write_site_reply(
    alloc: Global,
    text: &mut Vec<u8>,
    moment: u64,
    answer: &Result<Vec<SiteLine>, Refusal>,
) -> Result<(), AllocError>
    ensures { OnOk result (text.new.items ≡ with_site_reply moment answer.now text.old.items) }
{
    match answer {
        Ok(lines) => {
            let mut body = Vec::new(alloc);
            write_site(&mut body, moment, lines)?;
            append_reply(text, Status::Fine, b"application/json", &body)
        }
        Err(why) => append_refusal(text, *why),
    }
}
