//! One table of meanings for each kind of printed numeric codes, in the words of docs/SCRIPT.md.

mod chain_faults;
mod exceptions;
mod held;
mod http_faults;
mod lost;
mod malformed;
mod refused;
mod row_faults;
mod statuses;

pub use chain_faults::chain_fault;
pub use exceptions::exception;
pub use held::hold;
pub use http_faults::http_fault;
pub use lost::loss;
pub use malformed::malformation;
pub use refused::refusal;
pub use row_faults::row_fault;
pub use statuses::exit_status;
