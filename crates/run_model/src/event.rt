//! The events of a schedule.
use gal_io::Items;

/// One action of one actor. An item is named by its place in a list, counted from 0.
#[derive(Clone, Copy, PartialEq, Eq)]
pub enum Event {
    /// The switch takes the next packet of the trace.
    Admit,
    /// A pass under way, by its place in their list, takes its next stage.
    Stage(u32),
    /// The server runs this item of the packets that were sent up.
    Serve(u32),
    /// The server sends the switch its next command.
    Send,
    /// The switch applies the next command that was sent.
    Apply,
    /// The switch acknowledges the next command that it applied.
    Ack,
    /// The server lets go of an output that it holds, by its place in their list.
    Hold(u32),
    /// A packet that comes down, by its place in their list, reaches the switch: it is released or, where passes go
    /// stage by stage, its pass begins.
    Down(u32),
}

/// A list of events, in the order in which they happen.
pub type Events = Items<Event>;
