//! The routes of the HTTP server, and the lookup of a request target's route with `matchit`.

mod routes;
mod targets;

pub use routes::{Route, router};
pub use targets::{Found, has_query, route_of};
