//! What the tokens of each kind of statement are.
ghost use Rattle.std.specs.Prelude.{◌≡◌, ◌≤◌, ℕ, List, length};
ghost use Rattle.chain_text.specs.Tokens.{token_of, tokens_of};
ghost use Rattle.chain_text.specs.Shapes.{fits, fit_of};

use crate::mark::Mark;
use crate::token::{Placed, Token};

/// What a token has to be.
#[derive(Clone, Copy)]
pub(crate) enum Kind {
    Name,
    Number,
    Fixed(Mark),
}

/// The tokens of a statement that declares an element.
pub(crate) const DECLARATION: [Kind; 4] = [
    Kind::Name,
    Kind::Fixed(Mark::Declares),
    Kind::Name,
    Kind::Fixed(Mark::Ends),
];

/// What the tokens are of a statement that wires an output.
pub(crate) const WIRE: [Kind; 10] = [
    Kind::Name,
    Kind::Fixed(Mark::Opens),
    Kind::Number,
    Kind::Fixed(Mark::Closes),
    Kind::Fixed(Mark::Arrow),
    Kind::Fixed(Mark::Opens),
    Kind::Number,
    Kind::Fixed(Mark::Closes),
    Kind::Name,
    Kind::Fixed(Mark::Ends),
];

impl Kind {
    fn fits(self, token: Token) -> bool
        ensures { (text : List ℕ) → result ≡ fits self (token_of text token) }
    {
        match (self, token) {
            (Kind::Name, Token::Name(_)) | (Kind::Number, Token::Number(_)) => true,
            (Kind::Fixed(mark), Token::Fixed(other)) => mark == other,
            _ => false,
        }
    }
}

/// How many of the first tokens are what they have to be.
pub(crate) fn fit(kinds: &[Kind], tokens: &[Placed]) -> usize
    ensures value { (text : List ℕ) → result ≡ fit_of kinds.now (tokens_of text tokens.now) }
    ensures bounded { result ≤ length kinds.now }
{
    let Some((kind, kinds)) = kinds.split_first() else {
        return 0;
    };
    let Some((placed, tokens)) = tokens.split_first() else {
        return 0;
    };
    if kind.fits(placed.token) {
        1 + fit(kinds, tokens)
    } else {
        0
    }
}
