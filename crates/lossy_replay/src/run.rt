//! What comes of a replay over links.

use lossy_link::{LinkReceiver, LinkSender};
use run_model::Run;

/// How many items were given to a link, how many datagrams were sent on it, how many items were delivered, and how many
/// are known to be.
#[derive(Clone, Copy, PartialEq, Eq)]
pub struct Tally4 {
    pub items: u32,
    pub sent: u32,
    pub delivered: u32,
    pub known: u32,
}

/// The two ends of a link.
#[derive(Drop)]
pub struct Ends {
    pub tally: Tally4,
    pub sender: LinkSender,
    pub receiver: LinkReceiver,
}

/// What is reported of a replay over links, and the links behind it: those of frames up and down, of commands, and of
/// their acknowledgements.
#[derive(Drop)]
pub struct LossyRun {
    pub run: Run,
    pub up: Ends,
    pub down: Ends,
    pub ctl: Ends,
    pub ack: Ends,
}
