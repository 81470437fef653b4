//! The bytes of a text: which divide tokens, and over which a number or a word goes on.
ghost use Rattle.std.specs.Prelude.{◌≡◌, ◌+◌, ◌≤◌, length, drop, false};
ghost use Rattle.std.specs.List.{prefix_len};
ghost use Rattle.lexer.specs.Bytes as bytes;
ghost use Rattle.lexer.specs.Tokens.{span_text};

use crate::token::Span;

#[inline]
fn is_blank(byte: u8) -> bool
    ensures { result ≡ bytes.is_blank byte }
{
    byte == b' ' || byte == b'\t' || byte == b'\r' || byte == b'\n'
}

/// Whether a byte is an ASCII letter.
#[inline]
pub fn is_letter(byte: u8) -> bool
    ensures { result ≡ bytes.is_letter byte }
{
    b'A' <= byte && byte <= b'Z' || b'a' <= byte && byte <= b'z'
}

/// Whether a byte is a decimal digit.
#[inline]
pub fn is_digit(byte: u8) -> bool
    ensures { result ≡ bytes.is_digit byte }
{
    b'0' <= byte && byte <= b'9'
}

/// Whether a byte is an ASCII letter, a decimal digit or `_`.
#[inline]
pub fn is_number_byte(byte: u8) -> bool
    ensures { result ≡ bytes.is_number_byte byte }
{
    is_letter(byte) || is_digit(byte) || byte == b'_'
}

/// The bytes from a place on.
#[inline]
pub fn rest_of(text: &[u8], offset: usize) -> &[u8]
    requires { offset ≤ length text.now }
    ensures { result.now ≡ drop offset text.now }
{
    &text[offset..]
}

/// The bytes of a span.
#[inline]
pub fn bytes_of(text: &[u8], span: Span) -> &[u8]
    requires { span.offset + span.len ≤ length text.now }
    ensures { result.now ≡ span_text text.now span }
{
    &text[span.offset..span.offset + span.len]
}

// How many bytes of blanks and comments stand in front.
fn gap(text: &[u8]) -> usize
    ensures value { result ≡ bytes.gap false text.now }
    ensures within { result ≤ length text.now }
{
    let mut inside = false;
    for (i, byte) in text.iter().enumerate() {
        if inside {
            inside = *byte != b'\n';
        } else if !is_blank(*byte) {
            if !text[i..].starts_with(b"//") {
                return i;
            }
            inside = true;
        }
    }
    text.len()
}

// The place behind the blanks and comments at a place.
pub(crate) fn past_gap(text: &[u8], offset: usize) -> usize
    requires { offset ≤ length text.now }
    ensures value { result ≡ offset + bytes.gap false (drop offset text.now) }
    ensures within { result ≤ length text.now }
{
    offset + gap(rest_of(text, offset))
}

/// How many letters, digits and `_` stand in front.
#[inline]
pub fn number_len(text: &[u8]) -> usize
    ensures { result ≡ prefix_len bytes.is_number_byte text.now }
{
    text.iter()
        .take_while(|byte| is_number_byte(**byte))
        .count()
}
