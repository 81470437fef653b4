//! What comes of a frame.
use gal_io::{Bytes, NoMemory};
use transfer_header::Malformed;
use writeback_table::Updates;

/// What the server made of a packet.
#[derive(Drop)]
pub struct Served {
    /// The packet's number, as its frame had it.
    pub number: u32,
    /// The frame that goes down to the switch with the packet.
    pub down: Bytes,
    /// How many versions of the replicated objects there were after the packet. The frame may go down once the switch
    /// has this one.
    pub version: u32,
    /// The changes of replicated objects, in the order in which they were made.
    pub updates: Updates,
}

/// Why a frame came to nothing. The server is as it was before.
#[derive(Clone, Copy, PartialEq, Eq)]
pub enum ServeError {
    /// The bytes are no frame that goes up, by the layout of the split.
    Malformed,
    NoMemory,
}

impl From<Malformed> for ServeError {
    ghost use Rattle.std.specs.Prelude.{◌≡◌};
    ghost use Rattle.server_runtime.specs.declared.served.ServeError.TheVariants as errors;

    ghost from_gives = { λ _ error. error ≡ errors.Malformed };

    fn from(_: Malformed) -> Self {
        ServeError::Malformed
    }
}

impl From<NoMemory> for ServeError {
    ghost use Rattle.std.specs.Prelude.{◌≡◌};
    ghost use Rattle.server_runtime.specs.declared.served.ServeError.TheVariants as errors;

    ghost from_gives = { λ _ error. error ≡ errors.NoMemory };

    fn from(_: NoMemory) -> Self {
        ServeError::NoMemory
    }
}
