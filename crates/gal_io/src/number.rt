//! Numbers in a text.
ghost use Rattle.std.specs.Prelude.{◌≡◌, ◌≤◌, ℕ, IsTrue, IfSome, Some, ◌++◌, length, drop};
ghost use Rattle.std.specs.Option.{SomeIff};
ghost use Rattle.std.specs.Fmt.{decimal};
ghost use Rattle.std.specs.Str.{all_ascii_digits};
ghost use Rattle.std.specs.Str.Parse.{digits_value};
ghost use Rattle.gal_io.specs.Number.{number_up_to};

// The value of digits, leading zeros or not, where it is at most `most`.
#[tactic(auto, using(crate::proofs::NumberLemmas::value_with_next))]
fn value_up_to(digits: &[u8], most: u64) -> Option<u64>
    ensures { SomeIff result
        (IsTrue (all_ascii_digits digits.now) × (digits_value 10 digits.now ≤ most))
        (digits_value 10 digits.now) }
{
    let mut value: u64 = 0;
    for digit in digits {
        if !digit.is_ascii_digit() {
            return None;
        }
        value = value
            .checked_mul(10)?
            .checked_add(u64::from(*digit - b'0'))?;
    }
    (value <= most).then_some(value)
}

fn parse(text: &[u8], most: u64) -> Option<u64>
    ensures { result ≡ number_up_to most text.now }
{
    match text {
        [] | [b'0', _, ..] => None,
        _ => value_up_to(text, most),
    }
}

/// The number that the bytes write in decimal, where it is at most `most`. A sign, a blank, a zero in front of
/// another digit or no byte at all makes no number.
#[tactic(auto, using(crate::proofs::NumberLemmas::printed_again, crate::proofs::NumberLemmas::read_again))]
pub fn number_up_to(digits: &[u8], most: u64) -> Option<u64>
    ensures number { result ≡ number_up_to most digits.now }
    ensures printed { IfSome result (λ number. digits.now ≡ decimal number) }
    ensures read_back { (number : ℕ) → number ≤ most → digits.now ≡ decimal number → result ≡ Some number }
{
    parse(digits, most)
}

/// Writes a number in decimal to the end of `digits`, and answers where it begins there.
pub(crate) fn write_decimal(number: u64, digits: &mut [u8; 20]) -> usize
    ensures start { result ≤ 20 }
    ensures digits { drop result digits.new ≡ decimal number }
{
    let mut rest = number;
    let mut start = digits.len();
    loop {
        start -= 1;
        digits[start] = b'0' + (rest % 10) as u8;
        if rest < 10 {
            return start;
        }
        rest /= 10;
    }
}
