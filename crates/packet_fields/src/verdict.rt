//! What becomes of a packet.

use gal_io::Bytes;

/// What a middlebox does with a packet.
#[derive(Drop)]
pub enum Verdict {
    /// The packet goes no further.
    Drop,
    /// The bytes leave by the port.
    Send(u8, Bytes),
}
