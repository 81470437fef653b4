//! What the ends of a link answer.

/// What a confirmation was.
#[derive(Clone, Copy, PartialEq, Eq)]
pub enum Confirm {
    /// The item wasn't known to be delivered, and is from now on.
    Known,
    /// The item was known to be delivered. Nothing has changed.
    Again,
    /// The bytes aren't four bytes that spell the number of an item. Nothing has changed.
    Malformed,
}

/// What a datagram was, with its number.
#[derive(Clone, Copy, PartialEq, Eq)]
pub enum Took {
    /// The item is delivered now. The number is to be confirmed.
    New(u32),
    /// The item was delivered before. Nothing has changed. The number is to be confirmed, since the confirmation may
    /// have been lost.
    Again(u32),
    /// The link is ordered, and items before this one are still to come. Nothing has changed.
    Early(u32),
    /// There are fewer than four bytes. Nothing has changed.
    Malformed,
}
