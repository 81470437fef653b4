//! The bytes of a packet in a text: pairs of hexadecimal digits, or `-` for none.
ghost use Rattle.std.specs.Prelude.{◌≡◌, ◌<◌, ◌≤◌, ◌*◌, ◌++◌, ℕ, List, Ok, IfOk, IfSome, MatchResult, OnOk, false, length};
ghost use Rattle.std.specs.List.{list_all, list_any};
ghost use Rattle.std.specs.Str.{bytes_eq};
ghost use Rattle.hex.specs.Hex.{IsBytes, decode_of, encode_lower, hex_digit_value, pair_value};
ghost use Rattle.run_text.specs.Body.{is_by_capitals, is_printed_digit, spelled, spelled_by};
ghost use Rattle.run_text.specs.Report.{body_text};

use gal_io::{Bytes, NoMemory, Text};
use hex::FromHexError;
use std::alloc::Global;

/// What a body spells.
#[derive(Drop)]
pub struct Body {
    pub bytes: Bytes,
    /// Whether the bytes are printed as this body: its digits are lower-case.
    pub printed: bool,
}

// The value of a hexadecimal digit of either case. Of another byte, some number.
fn digit_value(digit: u8) -> u8
    ensures value { IfSome (hex_digit_value digit) (λ value. result ≡ value) }
    ensures small { result < 16 }
{
    (digit % 16 + 9 * (digit / 64)) % 16
}

// The byte that two digits spell.
fn byte_of(high: u8, low: u8) -> u8
    ensures { (at byte : ℕ) → pair_value high low at ≡ Ok byte → result ≡ byte }
{
    16 * digit_value(high) + digit_value(low)
}

// Whether a byte is one of the digits that `hex` prints.
fn is_printed_digit(byte: u8) -> bool
    ensures { result ≡ is_printed_digit byte }
{
    (byte >= b'0') & (byte <= b'9') | (byte >= b'a') & (byte <= b'f')
}

// Whether a text holds capital letters, or bytes beside them. Loops without branches may be compiled to vector code, and
// this one is the shorter one.
fn has_capitals(text: &[u8]) -> bool
    ensures { result ≡ list_any is_by_capitals text.now }
{
    let mut any = false;
    for byte in text {
        any |= *byte / 32 == 2;
    }
    any
}

// Whether a text holds no other bytes than the digits that `hex` prints.
fn are_printed_digits(text: &[u8]) -> bool
    ensures { result ≡ list_all is_printed_digit text.now }
{
    let mut all = true;
    for byte in text {
        all &= is_printed_digit(*byte);
    }
    all
}

// Fills in the bytes that pairs of digits spell. This has no branch, and asks of no byte whether it is a digit.
fn fill(digits: &[u8], bytes: &mut [u8])
    requires { 2 * length bytes.old ≤ length digits.now }
    ensures { (found : List ℕ) → decode_of digits.now ≡ Ok found → length found ≡ length bytes.old → bytes.new ≡ found }
{
    for at in 0..bytes.len() {
        bytes[at] = byte_of(digits[2 * at], digits[2 * at + 1]);
    }
}

// The bytes that pairs of digits spell. Of another text, some bytes.
fn bytes_of(alloc: Global, digits: &[u8]) -> Result<Vec<u8>, NoMemory>
    ensures { IfOk result (λ bytes. (found : List ℕ) → decode_of digits.now ≡ Ok found → bytes.items ≡ found) }
{
    let mut bytes = vec![in alloc; 0; digits.len() / 2]?;
    fill(digits, bytes.as_mut_slice());
    Ok(bytes)
}

// Whether `hex` prints a text, which then is what it prints of the bytes that the text spells. Capitals are looked for
// first, since a text that has some is read by `hex`, which takes its time.
#[tactic(auto, using(crate::proofs::Bodies::printed_or_not))]
fn is_printed(text: &[u8]) -> bool
    ensures { MatchResult (decode_of text.now)
        (λ bytes. result ≡ bytes_eq (encode_lower bytes) text.now)
        (λ e. result ≡ false) }
{
    if has_capitals(text) {
        return false;
    }
    text.len() % 2 == 0 && are_printed_digits(text)
}

// What pairs of digits spell. `hex` reads with several branches at each digit, so the digits that it prints are known by
// one look at all, and read without any.
fn read_digits(alloc: Global, digits: &[u8]) -> Result<Option<Body>, NoMemory>
    ensures { IfOk result (λ body. body ≡ spelled_by digits.now (decode_of digits.now)) }
{
    if is_printed(digits) {
        return Ok(Some(Body {
            bytes: Bytes::from(bytes_of(alloc, digits)?),
            printed: true,
        }));
    }
    match hex::decode(alloc, digits) {
        Ok(bytes) => Ok(Some(Body {
            bytes: Bytes::from(bytes),
            printed: false,
        })),
        Err(FromHexError::OutOfMemory) => Err(NoMemory),
        Err(_) => Ok(None),
    }
}

/// What a body spells: `-` for no bytes, or pairs of hexadecimal digits of either case. It may be longer than a packet.
pub fn read_body(alloc: Global, body: &[u8]) -> Result<Option<Body>, NoMemory>
    ensures { IfOk result (λ found. found ≡ spelled body.now) }
{
    if body.is_empty() {
        return Ok(None);
    }
    if body == b"-".as_slice() {
        return Ok(Some(Body {
            bytes: Bytes::new(alloc),
            printed: true,
        }));
    }
    read_digits(alloc, body)
}

/// Puts the bytes of a packet behind a text: in lower-case hexadecimal digits, or `-` for none.
pub(crate) fn put_body(alloc: Global, bytes: &[u8], text: &mut Text) -> Result<(), NoMemory>
    ensures text { OnOk result (text.new ≡ text.old ++ body_text bytes.now) }
    ensures fits { IsBytes bytes.now }
{
    match bytes {
        [] => text.push(b'-'),
        _ => text.extend(hex::encode(alloc, bytes)?.as_bytes()),
    }
}
