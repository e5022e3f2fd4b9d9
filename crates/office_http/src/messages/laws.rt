//! Theorems: how the response to a request follows from the request's bytes.
ghost use Rattle.std.specs.Prelude.{◌≡◌, ◌≢◌, Ok, Err};
ghost use Rattle.office_http.specs.Messages.Commands.Given.{Gives};
ghost use Rattle.office_http.specs.declared.messages.commands.fault.CommandFault.TheVariants.{Memory};
ghost use Rattle.office_http.specs.Messages.Asking.{TestsHead};
ghost use Rattle.office_http.specs.Messages.HeadTests.{start_at};
ghost use Rattle.office_http.specs.declared.messages.ask.Ask.TheVariants.{Command as AskedCommand, Question};
ghost use Rattle.office_http.specs.Messages.Routing.Targets.{name_of};
ghost use Rattle.office_http.specs.Messages.Whole.Whole.{Holds, IsWhole, TestsRequest, body_of};
ghost use Rattle.office_http.specs.Messages.Offices.{Office};
ghost use Rattle.office_http.specs.Messages.Replies.{fault, question_reply, reply_bytes};
ghost use Rattle.office_http.specs.Messages.Requests.{name_asked};
ghost use Rattle.office_http.specs.Messages.WholeResponses.{IsReply, reply_to_command};

use crate::messages::commands::CommandFault;
use crate::messages::{Found, Head, HeadState, Posted, Route, Status};
use matchit::Router;
use office_events::Command;

/// Theorem: if a request fails a test, then its response has the status of the first failed test.
/// If the request's head is invalid, then that status is 400 or 431.
pub fn faults_are_replied_to(
    router: &Router<Route>,
    bytes: &[u8],
    head_state: &HeadState,
    status: Status,
)
    requires holds { Holds router.now bytes.now head_state.now }
    requires fails { TestsRequest router.now bytes.now head_state.now (Err status) }
    ensures { (office : Office) → IsReply office router.now bytes.now (reply_bytes (fault status)) }
{}

/// Theorem: the response to a query is the result of the query in the store.
pub fn questions_are_replied_to(
    router: &Router<Route>,
    bytes: &[u8],
    head_state: &HeadState,
    found: &Found<'_>,
)
    requires holds { Holds router.now bytes.now head_state.now }
    requires asks { TestsRequest router.now bytes.now head_state.now (Ok (Question found.now)) }
    ensures { (office : Office) → IsReply office router.now bytes.now
        (reply_bytes (question_reply office found.now.route (name_of found.now))) }
{}

/// Theorem: the response to a command is the kind of the executed command, the reason why the
/// program refused it, or the fault of the body.
pub fn commands_are_replied_to(
    router: &Router<Route>,
    bytes: &[u8],
    head: &Head,
    found: &Found<'_>,
    posted: &Posted,
    given: &Result<Command, CommandFault>,
)
    requires holds { IsWhole router.now bytes.now head.now }
    requires asks { TestsHead router.now (start_at bytes.now head.now)
        (Ok (AskedCommand found.now posted.now)) }
    requires gives { Gives found.now.route (name_asked (name_of found.now))
        (body_of router.now bytes.now head.now) given.now }
    requires memory { given.now ≢ Err Memory }
    ensures { (office : Office) → IsReply office router.now bytes.now
        (reply_to_command office router.now bytes.now head.now given.now) }
{}
