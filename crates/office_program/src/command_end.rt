//! The result of a command that opens an office (the engine that records meters' energy) over a
//! store.

/// The store that a command of `sunreg` returns, and the result of the command.
#[derive(Drop)]
pub struct CommandEnd<B, E> {
    pub books: B,
    pub end: E,
}
