//! The token at a place in a source, and how many bytes it takes.
ghost use Rattle.std.specs.Prelude.{◌≡◌, ◌+◌, ◌≤◌, length};
ghost use Rattle.std.specs.Option.{option_map};
ghost use Rattle.element_lang.specs.Token as lang;
ghost use Rattle.lexer.specs.Tokens.{span_text};
ghost use Rattle.element_tokens.specs.Tokens.{token_of};

use crate::number::number_value;
use crate::scan::word_len;
use crate::token::Token;
use element_lang::Mark;
use lexer::{Lexeme, Lexical, Span, bytes_of, is_digit, is_letter, number_len, rest_of};
use packet_fields::field_of;

// The token that a word is. A word with a dot that names no field is none.
fn word_token(text: &[u8], span: Span) -> Option<Token>
    requires { span.offset + span.len ≤ length text.now }
    ensures { option_map (token_of text.now) result ≡ lang.word_token (span_text text.now span) }
{
    let word = bytes_of(text, span);
    if word.contains(&b'.') {
        return Some(Token::Field(field_of(word)?));
    }
    match Mark::keyword(word) {
        Some(mark) => Some(Token::Fixed(mark)),
        None => Some(Token::Name(span)),
    }
}

impl Lexical for Token {
    ghost use Rattle.std.specs.Prelude.{refl};

    ghost Meaning = { lang.Token };

    ghost meaning = { token_of };

    ghost lexeme = { lang.lexeme };

    ghost none_in_empty = { refl };

    #[tactic(auto, using(element_lang::proofs::FirstByte::written, lemmas::proofs::Lists::word_within))]
    fn lexeme_at(text: &[u8], offset: usize) -> Option<Lexeme<Token>> {
        let rest = rest_of(text, offset);
        let first = *rest.first()?;
        if is_letter(first) {
            let len = word_len(rest);
            let token = word_token(text, Span { offset, len })?;
            return Some(Lexeme { token, len });
        }
        if is_digit(first) {
            let len = number_len(rest);
            let token = Token::Number(number_value(&rest[..len])?);
            return Some(Lexeme { token, len });
        }
        let mark = Mark::symbol_in_front(rest)?;
        Some(Lexeme {
            token: Token::Fixed(mark),
            len: mark.spelling().len(),
        })
    }
}
