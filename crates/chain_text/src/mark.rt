//! The symbols of a chain's text.
ghost use Rattle.std.specs.Prelude.{◌≡◌, ◌≤◌, length, IfSome};
ghost use Rattle.std.specs.List.{find};
ghost use Rattle.chain_text.specs.Token as chain;

/// A symbol of a chain's text.
#[derive(Clone, Copy, PartialEq, Eq)]
pub enum Mark {
    /// `::`, between an element and its class.
    Declares,
    /// `->`, between an output and an input.
    Arrow,
    Opens,
    Closes,
    Ends,
}

const MARKS: [Mark; 5] = [
    Mark::Declares,
    Mark::Arrow,
    Mark::Opens,
    Mark::Closes,
    Mark::Ends,
];

// The first mark of a list with whose spelling the bytes begin.
fn first_in_front(list: &[Mark], bytes: &[u8]) -> Option<Mark>
    ensures found { result ≡ find (chain.stands bytes.now) list.now }
    ensures within { IfSome result (λ mark. length (chain.spelling mark) ≤ length bytes.now) }
{
    for mark in list {
        if bytes.starts_with(mark.spelling().as_bytes()) {
            return Some(*mark);
        }
    }
    None
}

impl Mark {
    /// The symbol with which the bytes begin.
    pub(crate) fn in_front(bytes: &[u8]) -> Option<Mark>
        ensures found { result ≡ chain.mark_in_front bytes.now }
        ensures within { IfSome result (λ mark. length (chain.spelling mark) ≤ length bytes.now) }
    {
        first_in_front(&MARKS, bytes)
    }

    /// How it is written.
    pub fn spelling(self) -> &'static str
        ensures { result.now ≡ chain.spelling self }
    {
        match self {
            Mark::Declares => "::",
            Mark::Arrow => "->",
            Mark::Opens => "[",
            Mark::Closes => "]",
            Mark::Ends => ";",
        }
    }
}
