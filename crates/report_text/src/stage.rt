//! What line of a report is awaited.

/// Where a part tells of.
#[derive(Clone, Copy, PartialEq, Eq)]
pub(crate) enum Side {
    OnServer,
    OnSwitch,
}

/// The next line.
#[derive(Clone, Copy)]
pub(crate) enum Stage {
    /// `report 1`.
    Title,
    /// How many packets there are.
    Packets,
    /// How many events.
    Events,
    /// The versions.
    Version,
    /// Whether it was drained.
    Drained,
    /// A line of each admitted packet, and then the order line.
    Fates,
    /// The part of the first object from this number on that is no table, or what follows these parts.
    Server(usize),
    /// A switch part of an object from this number on, or the end.
    Switch(usize),
    /// A row of this object, and so many more behind it.
    Table(Side, u32, u32),
    /// No line.
    Ended,
}
