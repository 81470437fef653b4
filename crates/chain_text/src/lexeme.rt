//! The token at a place in a chain's text, and how many bytes it takes.
ghost use Rattle.lexer.specs.Tokens.{lexeme_of};
ghost use Rattle.chain_text.specs.Token as chain;
ghost use Rattle.chain_text.specs.Tokens.{token_of};

use crate::mark::Mark;
use crate::token::Token;
use gal_io::number_up_to;
use lexer::{Lexeme, Lexical, Span, is_letter, is_number_byte, number_len, rest_of};

impl Lexical for Token {
    ghost use Rattle.std.specs.Prelude.{refl};

    ghost Meaning = { chain.Token };

    ghost meaning = { token_of };

    ghost lexeme = { chain.lexeme };

    ghost none_in_empty = { refl };

    #[tactic(auto, using(crate::proofs::Spellings::spelling_some, lemmas::proofs::Lists::word_within))]
    fn lexeme_at(text: &[u8], offset: usize) -> Option<Lexeme<Token>> {
        let rest = rest_of(text, offset);
        let first = *rest.first()?;
        let len = number_len(rest);
        if is_letter(first) {
            let token = Token::Name(Span { offset, len });
            return Some(Lexeme { token, len });
        }
        if is_number_byte(first) {
            let number = number_up_to(&rest[..len], 255)?;
            let token = Token::Number(number as u8);
            return Some(Lexeme { token, len });
        }
        let mark = Mark::in_front(rest)?;
        Some(Lexeme {
            token: Token::Fixed(mark),
            len: mark.spelling().len(),
        })
    }
}
