//! Reads HTTP requests from a client's connection, tests their heads in a fixed order, and writes
//! the responses.

mod ask;
mod commands;
mod faults;
mod head;
mod hosts;
mod kinds;
mod laws;
mod lines;
mod numbers;
mod post;
mod reading;
mod replies;
mod requests;
mod routing;
mod rows;
mod sending;
mod sites;
mod status;
mod statuses;
mod whole;

pub use ask::{Ask, ask_of};
pub use commands::{
    BodyFault, CloseBody, CommandFault, DeviceBody, ExchangeBody, InstallBody, ManualBody,
    RegisterBody, RescaleBody, ResetBody, Scale, VoidBody, body_of, close_in, command_in,
    device_in, exchange_in, install_in, manual_in, register_in, rescale_in, reset_in, void_in,
};
pub use faults::faults_body;
pub use head::{
    Given, Head, HeadState, MOST_BYTES, MOST_HEADERS, has_head_end, header_value, parse_head,
};
pub use hosts::may_ask;
pub use kinds::{done_body, kind_answered};
pub use laws::{commands_are_replied_to, faults_are_replied_to, questions_are_replied_to};
pub use lines::{append_day, append_end, write_share};
pub use numbers::digits;
pub(crate) use numbers::number;
pub(crate) use post::MOST_BODY;
pub use post::{Posted, post_headers};
pub use reading::{Inbox, TakeFault, read_head};
pub use replies::{
    append_fault, append_meter, append_poll, append_refusal, write_command_fault, write_done,
};
pub use requests::{asked, kept_request, name_asked, number_asked};
pub use routing::{Found, Route, has_query, router};
pub use rows::{meter_body, poll_body};
pub use sending::{ResponseWriter, fault_body, refused_body, write_json, write_text_head};
pub use sites::is_cross_site;
pub use status::Status;
pub use statuses::status_of;
pub use whole::{
    MOST_ROOM, head_gives_body_size, incomplete_is_no_request, is_whole, parses_agree,
    parsing_finds_the_request, read_request, request_body, requests_are_one, test_request,
};
