//! Parses a complete HTTP request into a query or command.
ghost use Rattle.std.specs.Prelude.{◌≡◌, ◌⊎◌, Ok, Err};
ghost use Rattle.office_http.specs.Messages.Asking.{TestsHead};
ghost use Rattle.office_http.specs.Messages.HeadTests.{start_at};
ghost use Rattle.office_http.specs.declared.messages.ask.Ask.TheVariants.{Command as AskedCommand};
ghost use Rattle.office_http.specs.Messages.Whole.Whole.{Holds, IsWhole};
ghost use Rattle.office_http.specs.Wants.Wanting.{HasFewFaults, Wants};

use crate::messages::{
    Ask, CommandFault, Found, Head, HeadState, Posted, Route, asked, command_in,
    commands_are_replied_to, faults_are_replied_to, head_gives_body_size, kept_request, name_asked,
    questions_are_replied_to, request_body, test_request,
};
use crate::wants::kinds::Want;
use crate::wants::laws::bodies_give_one_command;
use matchit::Router;
use std::alloc::Global;

// Parses the command of a request, and copies the bytes of the request that the store records.
fn wanted_command<'b>(
    alloc: Global,
    router: &Router<Route>,
    bytes: &'b [u8],
    head: &Head,
    found: &Found<'b>,
    posted: &Posted,
) -> Want<'b>
    requires holds { IsWhole router.now bytes.now head.now }
    requires asks { TestsHead router.now (start_at bytes.now head.now)
        (Ok (AskedCommand found.now posted.now)) }
    ensures wants { Wants router.now bytes.now result }
    ensures few { HasFewFaults result }
{
    bodies_give_one_command();
    head_gives_body_size(router, bytes, head, found, posted);
    let body = request_body(bytes, head, posted);
    let given = command_in(alloc, found.route, name_asked(found.name), body);
    if matches!(given, Err(CommandFault::Memory)) {
        return Want::Refused(CommandFault::Memory);
    }
    commands_are_replied_to(router, bytes, head, found, posted, &given);
    match given {
        Err(why) => Want::Refused(why),
        Ok(command) => {
            match kept_request(alloc, head.method.of(bytes), head.target.of(bytes), body) {
                Ok(kept) => Want::Command(asked(posted, kept, command)),
                Err(_) => Want::Refused(CommandFault::Memory),
            }
        }
    }
}

/// Parses a complete request into a query or command. If memory runs out, the result is an error
/// and nothing is executed.
pub fn wanted<'b>(
    alloc: Global,
    router: &Router<Route>,
    bytes: &'b [u8],
    head_state: &HeadState,
) -> Want<'b>
    requires { Holds router.now bytes.now head_state.now }
    ensures wants { Wants router.now bytes.now result }
    ensures few { HasFewFaults result }
{
    match test_request(router, bytes, head_state) {
        Err(status) => {
            faults_are_replied_to(router, bytes, head_state, status);
            Want::Rejected(status)
        }
        Ok(Ask::Question(found)) => {
            questions_are_replied_to(router, bytes, head_state, &found);
            Want::Answer(found)
        }
        Ok(Ask::Command(found, posted)) => match head_state {
            HeadState::Whole(head) => wanted_command(alloc, router, bytes, head, &found, &posted),
            HeadState::TooLarge | HeadState::NoHead | HeadState::Open => unreachable!(),
        },
    }
}
