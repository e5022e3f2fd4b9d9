//! Recognizes two kinds of requests. A request for all quarter hours of a meter can be answered
//! with a streamed response. A request to void an entry (to withdraw a false reading) can change
//! rows of streamed responses.
ghost use Rattle.std.specs.Prelude.{◌≡◌, IfSome};
ghost use Rattle.office_http.specs.Messages.Head.Heads.{Looks};
ghost use Rattle.office_http.specs.declared.messages.head.head.HeadState.TheVariants.{Whole};
ghost use Rattle.run_http.specs.OfficeRequests as requests;
ghost use Rattle.run_http.specs.OfficeRequests.{AsksAllRows, MayVoid};

use crate::meter_targets::after;
use matchit::Router;
use office_events::Name;
use office_http::messages::{
    Ask, Head, HeadState, Route, ask_of, name_asked, parse_head, questions_are_replied_to,
};

// Returns the name of the meter if the request asks for all quarter hours of a meter. The head of
// the request must be complete.
fn meter_asked(
    router: &Router<Route>,
    request: &[u8],
    head_state: &HeadState,
    head: &Head,
) -> Option<Option<Name>>
    requires is { head_state.now ≡ Whole head.now }
    requires looks { Looks request.now head_state.now }
    ensures { IfSome result (AsksAllRows router.now request.now) }
{
    match ask_of(router, request, head) {
        Ok(Ask::Question(found)) => match found.route {
            Route::Intervals => {
                questions_are_replied_to(router, request, head_state, &found);
                Some(name_asked(found.name))
            }
            _ => None,
        },
        Ok(Ask::Command(_, _)) | Err(_) => None,
    }
}

/// Returns the name of the meter if a request asks for all quarter hours of a meter. `Some(None)`
/// means that the name is not valid.
pub fn all_rows_asked(router: &Router<Route>, request: &[u8]) -> Option<Option<Name>>
    ensures { IfSome result (AsksAllRows router.now request.now) }
{
    let head_state = parse_head(request);
    match &head_state {
        HeadState::Whole(head) => meter_asked(router, request, &head_state, head),
        HeadState::Open | HeadState::TooLarge | HeadState::NoHead => None,
    }
}

fn may_void_by(method: &[u8], target: &[u8]) -> bool
    ensures { result ≡ requests.may_void_by method.now target.now }
{
    method == b"POST".as_slice() && after(b"/meters/", target).is_some()
}

/// Returns whether a request could void (withdraw) an entry of a meter, because it is a POST to a
/// target that begins with `/meters/`.
pub fn may_void(request: &[u8]) -> bool
    ensures { MayVoid request.now result }
{
    let head_state = parse_head(request);
    match &head_state {
        HeadState::Whole(head) => may_void_by(head.method.of(request), head.target.of(request)),
        HeadState::Open | HeadState::TooLarge | HeadState::NoHead => false,
    }
}
