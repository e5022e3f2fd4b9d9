//! The query or command of a request, or the reason why the request has neither.
use crate::messages::{CommandFault, Found, Status};
use office_events::Asked;

/// The query or command of a request, or the reason why the request has neither.
#[derive(Drop)]
pub enum Want<'b> {
    /// No query or command: the head of the request fails a test.
    Rejected(Status),
    /// The request is a query, which the program executes.
    Answer(Found<'b>),
    /// No command: the body of the request has a fault, or memory ran out.
    Refused(CommandFault),
    /// A command to execute.
    Command(Asked),
}
