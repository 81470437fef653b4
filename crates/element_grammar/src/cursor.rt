//! Reading from the front of a list of tokens. Each function gives what it read and the tokens that are left.
ghost use Rattle.std.specs.Prelude.{◌≡◌, ◌<◌, [], ◌∷◌, length, IfOk, IfErr, IfSome, IfNone};
ghost use Rattle.element_lang.specs.Token.{fixed, number as number_token, name as name_token};
ghost use Rattle.element_tokens.specs.Tokens.{span_text, token_of, tokens_of};
ghost use Rattle.element_grammar.specs.Machine.{mark, some_number, some_name};
ghost use Rattle.element_grammar.specs.Refused.{NoMark, NoMarks, AtEnd, Misses};

use crate::error::ParseError;
use element_lang::Mark;
use element_tokens::{Placed, Span, Token};

// How many tokens are left.
pub(crate) fn count(text: &[u8], tokens: &[Placed]) -> usize
    ensures { result ≡ length (tokens_of text.now tokens.now) }
{
    tokens.len()
}

// The error where the first token is wrong, or where there is none.
pub(crate) fn wrong(text: &[u8], tokens: &[Placed]) -> ParseError
    ensures { result ≡ ParseError.Left (length (tokens_of text.now tokens.now)) }
{
    ParseError::Left(count(text, tokens))
}

// Reads the first token.
pub(crate) fn first<'t>(
    text: &[u8],
    tokens: &'t [Placed],
) -> Result<(Token, &'t [Placed]), ParseError>
    ensures ok { IfOk result (λ x.
        tokens_of text.now tokens.now ≡ token_of text.now x.0 ∷ tokens_of text.now x.1.now) }
    ensures shorter { IfOk result (λ x. length x.1.now < length tokens.now) }
    ensures err { IfErr result (λ e. AtEnd (tokens_of text.now tokens.now) e) }
{
    match tokens {
        [placed, rest @ ..] => Ok((placed.token, rest)),
        [] => Err(ParseError::Left(0)),
    }
}

// Reads the mark in front, if one is there.
pub(crate) fn mark_in_front<'t>(text: &[u8], tokens: &'t [Placed]) -> Option<(Mark, &'t [Placed])>
    ensures some { IfSome result (λ x.
        tokens_of text.now tokens.now ≡ fixed x.0 ∷ tokens_of text.now x.1.now) }
    ensures shorter { IfSome result (λ x. length x.1.now < length tokens.now) }
    ensures none { IfNone result (NoMarks (tokens_of text.now tokens.now)) }
{
    match first(text, tokens).ok()? {
        (Token::Fixed(found), rest) => Some((found, rest)),
        _ => None,
    }
}

// Reads a mark, where it stands in front.
pub(crate) fn skip_mark<'t>(text: &[u8], tokens: &'t [Placed], want: Mark) -> Option<&'t [Placed]>
    ensures some { IfSome result (λ rest.
        tokens_of text.now tokens.now ≡ fixed want ∷ tokens_of text.now rest.now) }
    ensures shorter { IfSome result (λ rest. length rest.now < length tokens.now) }
    ensures none { IfNone result (NoMark want (tokens_of text.now tokens.now)) }
{
    let (found, rest) = mark_in_front(text, tokens)?;
    if found == want { Some(rest) } else { None }
}

// Reads a mark.
#[tactic(auto, using(crate::proofs::Pieces::no_mark))]
pub(crate) fn after_mark<'t>(
    text: &[u8],
    tokens: &'t [Placed],
    want: Mark,
) -> Result<&'t [Placed], ParseError>
    ensures ok { IfOk result (λ rest.
        tokens_of text.now tokens.now ≡ fixed want ∷ tokens_of text.now rest.now) }
    ensures shorter { IfOk result (λ rest. length rest.now < length tokens.now) }
    ensures err { IfErr result (λ e. Misses (mark want ∷ []) (tokens_of text.now tokens.now) e) }
{
    match skip_mark(text, tokens, want) {
        Some(rest) => Ok(rest),
        None => Err(wrong(text, tokens)),
    }
}

// Reads two marks.
#[tactic(auto, using(crate::proofs::Pieces::two_marks))]
pub(crate) fn after_marks<'t>(
    text: &[u8],
    tokens: &'t [Placed],
    one: Mark,
    other: Mark,
) -> Result<&'t [Placed], ParseError>
    ensures ok { IfOk result (λ rest.
        tokens_of text.now tokens.now ≡ fixed one ∷ fixed other ∷ tokens_of text.now rest.now) }
    ensures shorter { IfOk result (λ rest. length rest.now < length tokens.now) }
    ensures err { IfErr result (λ e.
        Misses (mark one ∷ mark other ∷ []) (tokens_of text.now tokens.now) e) }
{
    let rest = after_mark(text, tokens, one)?;
    after_mark(text, rest, other)
}

// Reads the number in front.
pub(crate) fn number<'t>(
    text: &[u8],
    tokens: &'t [Placed],
) -> Result<(u64, &'t [Placed]), ParseError>
    ensures ok { IfOk result (λ x.
        tokens_of text.now tokens.now ≡ number_token x.0 ∷ tokens_of text.now x.1.now) }
    ensures shorter { IfOk result (λ x. length x.1.now < length tokens.now) }
    ensures err { IfErr result (λ e. Misses (some_number ∷ []) (tokens_of text.now tokens.now) e) }
{
    match first(text, tokens)? {
        (Token::Number(value), rest) => Ok((value, rest)),
        _ => Err(wrong(text, tokens)),
    }
}

// Reads the name in front.
pub(crate) fn name<'t>(
    text: &[u8],
    tokens: &'t [Placed],
) -> Result<(Span, &'t [Placed]), ParseError>
    ensures ok { IfOk result (λ x. tokens_of text.now tokens.now
        ≡ name_token (span_text text.now x.0) ∷ tokens_of text.now x.1.now) }
    ensures shorter { IfOk result (λ x. length x.1.now < length tokens.now) }
    ensures err { IfErr result (λ e. Misses (some_name ∷ []) (tokens_of text.now tokens.now) e) }
{
    match first(text, tokens)? {
        (Token::Name(word), rest) => Ok((word, rest)),
        _ => Err(wrong(text, tokens)),
    }
}

// Reads the number in front and the mark behind it.
pub(crate) fn number_then<'t>(
    text: &[u8],
    tokens: &'t [Placed],
    want: Mark,
) -> Result<(u64, &'t [Placed]), ParseError>
    ensures ok { IfOk result (λ x. tokens_of text.now tokens.now
        ≡ number_token x.0 ∷ fixed want ∷ tokens_of text.now x.1.now) }
    ensures shorter { IfOk result (λ x. length x.1.now < length tokens.now) }
    ensures err { IfErr result (λ e.
        Misses (some_number ∷ mark want ∷ []) (tokens_of text.now tokens.now) e) }
{
    let (value, rest) = number(text, tokens)?;
    let rest = after_mark(text, rest, want)?;
    Ok((value, rest))
}

// Reads the name in front and the mark behind it.
pub(crate) fn name_then<'t>(
    text: &[u8],
    tokens: &'t [Placed],
    want: Mark,
) -> Result<(Span, &'t [Placed]), ParseError>
    ensures ok { IfOk result (λ x. tokens_of text.now tokens.now
        ≡ name_token (span_text text.now x.0) ∷ fixed want ∷ tokens_of text.now x.1.now) }
    ensures shorter { IfOk result (λ x. length x.1.now < length tokens.now) }
    ensures err { IfErr result (λ e.
        Misses (some_name ∷ mark want ∷ []) (tokens_of text.now tokens.now) e) }
{
    let (word, rest) = name(text, tokens)?;
    let rest = after_mark(text, rest, want)?;
    Ok((word, rest))
}
