//! Numbers that are told of an element, and of the end of a wire to it.

use crate::gauge::Gauge;

/// What is counted of the statements of an element.
#[derive(Clone, Copy)]
pub(crate) struct Figures {
    /// All that stands where the element does, but for what it reads of its port of arrival, and for what stands at the
    /// ends of its wires.
    pub own: u64,
    /// How much more that is for each byte of its port of arrival, as it is read.
    pub reads: u64,
    /// How often tests of its wires count.
    pub sent: u64,
    /// The `drop` at its end, where it may go on there.
    pub closing: u64,
}

/// What is counted at the end of a wire to an element.
#[derive(Clone, Copy)]
pub(crate) struct Ending {
    /// All but for what is read of the port of arrival.
    pub fixed: u64,
    /// How much more that is for each byte of the port of arrival, as it is read.
    pub reads: u64,
}

/// How the statements of an element are counted.
#[derive(Clone, Copy)]
pub(crate) struct Scale<'a> {
    pub gauge: Gauge,
    /// The bytes of the names of its objects, in order. An object past the end has none.
    pub objects: &'a [u64],
    /// The bytes of a reading of its port of arrival, with the one after it.
    pub port: u64,
    /// Whether the element has a wire.
    pub wired: bool,
}
