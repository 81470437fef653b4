//! Short lists of numbers.
ghost use Rattle.std.specs.Prelude.{◌≡◌, ◌≤◌, [], ◌∷◌, length, replicate};

use gal_bits::Values;

/// The list of one number.
pub fn single(number: u64) -> Values
    ensures { result ≡ number ∷ [] }
{
    let mut values = Values::new();
    values.push(number);
    values
}

/// As many zeros.
pub fn zeros(count: usize) -> Values
    requires { count ≤ 8 }
    ensures { result ≡ replicate count 0 }
{
    let mut values = Values::new();
    for _ in 0..count {
        values.push(0);
    }
    values
}

/// The same numbers.
pub fn values_of(numbers: &[u64]) -> Values
    requires { length numbers.now ≤ 8 }
    ensures { result ≡ numbers.now }
{
    let mut values = Values::new();
    for number in numbers {
        values.push(*number);
    }
    values
}
