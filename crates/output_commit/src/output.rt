//! Outputs that wait, and what is answered for them.
use gal_io::Bytes;

/// An output of the server: the number of its packet, the version that lookups on the switch must be known to see
/// before it may go, and the frame that goes then.
#[derive(Drop)]
pub struct Output {
    pub number: u32,
    pub need: u32,
    pub frame: Bytes,
}

/// What is answered where an output is to go.
#[derive(Drop)]
pub enum Release {
    /// The number and the frame of the output, which goes and waits no longer.
    Frame { number: u32, frame: Bytes },
    /// The output must wait, since the version that it needs is above the one that is acknowledged.
    NotYet { need: u32, acknowledged: u32 },
    /// No output waits at this place; so many do.
    NoSuch(usize),
}
