//! Packets, their fields, and what becomes of a packet.
#![tactic(auto)]

mod access;
mod bits;
mod field;
mod packet;
mod shape;
mod verdict;

pub use access::{get, set};
pub use field::{
    FIELD_COUNT, Field, Header, field_index, field_name, field_of, fields, width, writable,
};
pub use packet::{MAX_PACKET_BYTES, Packet, Packets, is_short};
pub use shape::Shape;
pub use verdict::Verdict;
