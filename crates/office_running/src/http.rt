//! The HTTP port of `sunreg run`: the response of each route, the connections, and the order in
//! which clients are served.

mod clients;
mod energy_over;
mod http_port;
mod interval_answers;
mod kept_room;
mod moments;
mod outbox;
mod repeats;
mod responses;
mod run_context;
mod site_over;
mod slots;

pub use energy_over::EarlierFiles;
pub use http_port::{HttpPort, PORT_TOKEN};
pub use kept_room::KeptRoom;
pub use moments::{Now, even_milliseconds};
pub use outbox::{Outbox, Went, went_by};
pub use responses::respond;
pub use run_context::{RunContext, RunSystem};
