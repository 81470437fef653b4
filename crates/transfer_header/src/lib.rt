//! Frames: what goes up to the server with a packet, and what comes down with it; the registers that hold a program's
//! values; and instructions that are computed in them by place.
#![tactic(auto)]

mod bits;
mod block_steps;
mod frame;
mod ready;
mod registers;
mod room;

pub use block_steps::BlockSteps;
pub use frame::{Head, Malformed, pack_down, pack_down_in, pack_up, unpack_down, unpack_up};
pub use ready::{PlacedOp, Places, ReadyKind, ReadyStep};
pub use registers::Regs;
pub use room::FrameRoom;
