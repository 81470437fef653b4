//! The events of a schedule over links that lose, repeat and reorder what is sent on them.
use crate::event::Event;
use gal_io::Items;

/// A link between the switch and the server.
#[derive(Clone, Copy, PartialEq, Eq)]
pub enum Link {
    /// Frames to the server, in any order.
    Up,
    /// Frames to the switch, in any order.
    Down,
    /// Commands to the switch, in order.
    Ctl,
    /// The acknowledgements of commands, in order.
    Ack,
}

/// One action of an actor, or of a link. What is named by a place is counted from 0.
#[derive(Clone, Copy, PartialEq, Eq)]
pub enum LinkEvent {
    /// The switch or the server acts.
    World(Event),
    /// The datagram of this one of the items that aren't known to be delivered, the first given first, is sent.
    Transmit(Link, u32),
    /// A datagram arrives, by its place among all that were sent.
    Deliver(Link, u32),
    /// A confirmation arrives, by its place among all that were sent back.
    Confirm(Link, u32),
}

/// A list of such events, in the order in which they happen.
pub type LinkEvents = Items<LinkEvent>;
