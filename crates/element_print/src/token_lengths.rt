//! How many bytes a token has, with the one that stands after it.
ghost use Rattle.std.specs.Prelude.{◌≡◌, ◌≤◌, ◌*◌, length, decimal, sum};
ghost use Rattle.element_print.specs.Lengths as lengths;
ghost use Rattle.element_print.specs.Lengths.{capped};

use element_lang::Mark;
use packet_fields::{Field, field_name};

/// The sum of these numbers, or the greatest number of 64 bits where it is more.
pub(crate) fn total(parts: &[u64]) -> u64
    ensures { result ≡ capped (sum parts.now) }
{
    let mut total: u64 = 0;
    for part in parts {
        total = total.saturating_add(*part);
    }
    total
}

/// The bytes of a keyword or a symbol.
pub(crate) fn mark_length(mark: Mark) -> u64
    ensures { result ≡ lengths.mark_length mark }
{
    mark.spelling().len() as u64 + 1
}

// How many digits a number has.
#[tactic(auto, using(lemmas::proofs::Numbers::one_digit, lemmas::proofs::Numbers::more_digits, lemmas::proofs::Numbers::few_digits))]
fn digits(n: u64) -> u64
    ensures { result ≡ length (decimal n) }
{
    if n < 10 { 1 } else { digits(n / 10) + 1 }
}

/// The bytes of a number.
#[tactic(auto, using(lemmas::proofs::Numbers::few_digits))]
pub fn number_length(n: u64) -> u64
    ensures value { result ≡ lengths.number_length n }
    ensures bounded { result ≤ 21 }
{
    digits(n) + 1
}

/// The bytes of a number and its width.
pub fn literal_length(value: u64, width: u64) -> u64
    ensures { result ≡ lengths.literal_length value width }
{
    number_length(value) + mark_length(Mark::Colon) + number_length(width)
}

/// The bytes of the name of a field.
pub fn field_length(field: Field) -> u64
    ensures { result ≡ lengths.field_length field }
{
    field_name(field).len() as u64 + 1
}

/// The bytes of a name, by its number.
pub(crate) fn name_length(names: &[u64], x: u32) -> u64
    ensures { result ≡ capped (lengths.name_length names.now x) }
{
    match names.get(x as usize) {
        Some(bytes) => bytes.saturating_add(1),
        None => 1,
    }
}

/// The bytes of a pair of brackets, where it is needed.
pub(crate) fn brackets_length(needed: bool) -> u64
    ensures { result ≡ lengths.brackets_length needed }
{
    if needed {
        mark_length(Mark::LeftParen) + mark_length(Mark::RightParen)
    } else {
        0
    }
}

/// The bytes of a pair of braces.
pub(crate) fn braces_length() -> u64
    ensures { result ≡ lengths.braces_length }
{
    mark_length(Mark::LeftBrace) + mark_length(Mark::RightBrace)
}

/// The bytes of all that stands around the declarations and the statements.
pub fn frame_length() -> u64
    ensures { result ≡ lengths.frame_length }
{
    mark_length(Mark::Process) + braces_length()
}

/// The bytes of a mark that stands so often.
pub(crate) fn marks_length(mark: Mark, count: u64) -> u64
    ensures { result ≡ capped (count * lengths.mark_length mark) }
{
    count.saturating_mul(mark_length(mark))
}

/// The bytes of a mark that stands between two of so many parts.
pub(crate) fn between_length(mark: Mark, count: usize) -> u64
    ensures { result ≡ capped (lengths.between_length mark count) }
{
    marks_length(mark, (count as u64).saturating_sub(1))
}
