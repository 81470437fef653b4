//! Chains: which elements there are, and what is wired to what.
use element_lang::Middlebox;
use gal_io::{Bytes, Items};

/// An element: a middlebox under a name of its own.
#[derive(Drop)]
pub struct Element {
    pub name: Bytes,
    /// The name of its class, which says what it does.
    pub class: Bytes,
}

/// Where a wire leads.
#[derive(Clone, Copy, PartialEq, Eq)]
pub enum Target {
    /// To the element of this number, from 0.
    Element(u32),
    /// Out of the chain.
    Out,
}

/// A wire, from an output of an element to an input.
#[derive(Clone, Copy, PartialEq, Eq)]
pub struct Wire {
    /// The number of the element that it comes from, from 0.
    pub from: u32,
    /// The port by which that element sends.
    pub output: u8,
    /// The port at which packets arrive there.
    pub input: u8,
    pub to: Target,
}

/// A list of elements.
pub type Elements = Items<Element>;

/// A list of wires.
pub type Wires = Items<Wire>;

/// Elements and wires. The first element is the entry.
#[derive(Drop)]
pub struct Chain {
    pub elements: Elements,
    pub wires: Wires,
}

/// The middleboxes of the elements of a chain, in order.
pub type Classes = Vec<Middlebox>;
