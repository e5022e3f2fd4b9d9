//! The theorem that the specification allows at most one response to a request.
ghost use Rattle.office_http.specs.Laws.{RepliesAreOne};

use crate::wants::bodies_give_one_command;

/// Theorem: the specification allows at most one response to the same received bytes, if the
/// program's answers to queries and commands are the same.
pub fn replies_are_one()
    ensures { RepliesAreOne }
{
    bodies_give_one_command();
}
