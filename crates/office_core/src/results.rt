//! The result of processing a sequence of events (a run). The type `Run` has its own module,
//! because a module cannot contain both `Run` and the function `run`.
use crate::office::Office;
use office_books::Books;
use office_events::{Answer, Refusal};

/// The program's state after a run of events, and the answer to each event, in order.
#[derive(Drop)]
pub struct Run<B: Books> {
    pub office: Office<B>,
    pub results: Vec<Result<Answer, Refusal>>,
}
