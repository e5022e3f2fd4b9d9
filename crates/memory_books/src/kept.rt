//! A store that caches the lookup results of another store.

mod answers;
mod kept;
mod keys;
mod known;
mod polls;
mod standing;

pub use kept::CachedBooks;
