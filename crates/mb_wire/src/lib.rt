//! Encodes and decodes Modbus TCP frames, requests and responses, and defines the trait of a link,
//! a byte connection. The module `sockets` has links over sockets.
//!
//! The crate follows the Modbus Application Protocol V1.1b3 and the Messaging on TCP/IP
//! Implementation Guide V1.0b. No call allocates memory.
#![tactic(auto)]

mod bytes;
mod fault_texts;
mod frames;
mod laws;
mod limits;
mod link;
mod memory_link;
mod replies;
mod request_decoder;
mod requests;
pub mod sockets;
mod span;

pub use frames::{Fed, Frame, FrameReader, Framing, one_reading, one_spelling, write_frame};
pub use laws::{one_reply, one_request};
pub use limits::{
    ADDRESSES, MAX_ADU, MAX_LENGTH, MAX_PDU, MAX_READ_COILS, MAX_READ_REGISTERS, MAX_WRITE_COILS,
    MAX_WRITE_REGISTERS, MBAP_HEADER, MIN_LENGTH,
};
pub use link::{LastTake, Link, LinkFailed, Took, give_all};
pub use memory_link::MemoryLink;
pub use replies::{Reply, ReplyFault, decode_reply, encode_reply};
pub use request_decoder::decode_request;
pub use requests::{Request, RequestFault, encode_request};
pub use span::{ReadFunction, ReadSpan};
