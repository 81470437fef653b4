//! The values of numbers in a source.
ghost use Rattle.std.specs.Prelude.{◌≡◌, Some};
ghost use Rattle.element_lang.specs.Token as lang;

use lexer::is_digit;

fn decimal_digit(byte: u8) -> Option<u64>
    ensures { result ≡ lang.decimal_digit byte }
{
    if is_digit(byte) {
        Some(u64::from(byte - b'0'))
    } else {
        None
    }
}

fn hex_digit(byte: u8) -> Option<u64>
    ensures { result ≡ lang.hex_digit byte }
{
    match byte {
        b'0'..=b'9' => Some(u64::from(byte - b'0')),
        b'a'..=b'f' => Some(u64::from(byte - b'a' + 10)),
        b'A'..=b'F' => Some(u64::from(byte - b'A' + 10)),
        _ => None,
    }
}

// The number with one more digit behind it, where it stays below 2^64.
fn with_digit(base: u64, number: u64, digit: u64) -> Option<u64>
    ensures { result ≡ lang.with_digit base number (Some digit) }
{
    number.checked_mul(base)?.checked_add(digit)
}

fn decimal_value(digits: &[u8]) -> Option<u64>
    ensures { result ≡ lang.decimal_value (Some 0) digits.now }
{
    let mut value = 0;
    for byte in digits {
        value = with_digit(10, value, decimal_digit(*byte)?)?;
    }
    Some(value)
}

fn hex_value(digits: &[u8]) -> Option<u64>
    ensures { result ≡ lang.hex_value (Some 0) digits.now }
{
    let mut value = 0;
    for byte in digits {
        value = with_digit(16, value, hex_digit(*byte)?)?;
    }
    Some(value)
}

// The value that these bytes spell, in decimal or behind `0x`.
pub(crate) fn number_value(bytes: &[u8]) -> Option<u64>
    ensures { result ≡ lang.number_value bytes.now }
{
    if !bytes.starts_with(b"0x") {
        return decimal_value(bytes);
    }
    if bytes.len() == 2 {
        return None;
    }
    hex_value(&bytes[2..])
}
