//! A store in memory, and a store that fails at chosen calls, for tests. The module `kept` caches
//! the lookups of any store.
#![tactic(auto)]

mod failing;
mod figures;
pub mod kept;
mod kinds;
mod late;
mod list_books;
mod lookups;
mod tables;

pub use failing::FailingBooks;
pub use list_books::ListBooks;
