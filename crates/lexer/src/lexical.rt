//! What a language says of its tokens.
ghost use Rattle.std.specs.Prelude.{◌≡◌, ℕ, ◌+◌, ◌<◌, ◌≤◌, List, [], length, drop, Option, None, IfSome};
ghost use Rattle.std.specs.Option.{option_map};
ghost use Rattle.lexer.specs.declared.token.Lexeme.{Lexeme};
ghost use Rattle.lexer.specs.Tokens.{lexeme_of};

use crate::token::Lexeme;

/// The tokens of a language. Contracts see a token as its `Meaning`, in which a name is its bytes.
pub trait Lexical: Copy {
    ghost Meaning: { Type 0 };

    ghost meaning: { List ℕ → Self → Meaning };

    // the token in front of some bytes
    ghost lexeme: { List ℕ → Option (Lexeme Meaning) };

    /// The token at a place of the text, if one starts there.
    fn lexeme_at(text: &[u8], offset: usize) -> Option<Lexeme<Self>>
        requires { offset ≤ length text.now }
        ensures found { option_map (lexeme_of meaning text.now) result
            ≡ lexeme (drop offset text.now) }
        ensures some { IfSome result (λ found. 0 < found.len) }
        ensures within { IfSome result (λ found. offset + found.len ≤ length text.now) };

    ghost none_in_empty: { lexeme [] ≡ None };
}
