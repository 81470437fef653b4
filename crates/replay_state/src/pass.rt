//! Passes that are under way.

/// A pass that is under way on the switch.
#[derive(Clone, Copy)]
pub struct Pass {
    /// Whether it comes before the server, and not behind it.
    pub pre: bool,
    /// The number of its packet.
    pub number: u32,
    /// The version that lookups saw at its entry, and the bit that stood then.
    pub version: u32,
    pub bit: bool,
    /// How many stages it has left.
    pub left: u32,
}
