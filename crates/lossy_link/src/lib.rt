//! Links that lose, repeat and reorder what is sent on them: the end that sends, which numbers its items and keeps what
//! is known to be delivered, the end that receives, which delivers each item once, and the bytes of commands.
#![tactic(auto)]

mod answers;
mod command;
mod marks;
mod number;
mod numbers;
mod receiver;
mod sender;

pub use answers::{Confirm, Took};
pub use command::{read_command, write_command};
pub use receiver::{Delivered, LinkReceiver};
pub use sender::LinkSender;
