//! Short lists of numbers as one number, from the highest bit down.
ghost use Rattle.std.specs.Prelude.{◌≡◌, ℕ, ◌*◌, ◌<◌, ◌≤◌, ◌^◌, IfSome, IsTrue, length, nat_lt, Some, None};
ghost use Rattle.std.specs.Prelude.{if◌then◌else◌};
ghost use Rattle.slot_table.specs.Table.{IsWords};
ghost use Rattle.state_store.specs.Kept.{have_widths};
ghost use Rattle.state_store.specs.Packing as rule;

use gal_bits::{Values, Widths};

// Whether a number needs no more bits than these.
fn fits(number: u64, width: u64) -> bool
    ensures { result ≡ nat_lt number (2 ^ width) }
{
    width >= 64 || number >> width == 0
}

/// Whether each width is from 1 to 64, and all of them have room in so many bits.
pub fn have_room(bits: u64, widths: &[u64]) -> bool
    ensures { result ≡ rule.have_room bits widths.now }
{
    let mut room = bits;
    for width in widths {
        if *width == 0 || *width > 64 || *width > room {
            return false;
        }
        room -= *width;
    }
    true
}

/// Whether there are as many numbers as widths, and each has no more bits than the width at its place.
pub fn have_widths(widths: &[u64], numbers: &[u64]) -> bool
    ensures { result ≡ have_widths widths.now numbers.now }
{
    if widths.len() != numbers.len() {
        return false;
    }
    for i in 0..widths.len() {
        if !fits(numbers[i], widths[i]) {
            return false;
        }
    }
    true
}

/// The numbers one behind the other, where they have these widths.
pub fn packed(bits: u64, widths: &[u64], numbers: &[u64]) -> Option<u128>
    requires bits { bits ≤ 128 }
    requires room { IsTrue (rule.have_room bits widths.now) }
    ensures value { result ≡ (if have_widths widths.now numbers.now then Some (rule.packed bits widths.now numbers.now)
        else None) }
    ensures below { IfSome result (λ whole. whole < 2 ^ bits) }
{
    if widths.len() != numbers.len() {
        return None;
    }
    let mut room = bits;
    let mut whole: u128 = 0;
    for i in 0..widths.len() {
        if !fits(numbers[i], widths[i]) {
            return None;
        }
        room -= widths[i];
        whole += u128::from(numbers[i]) << room;
    }
    Some(whole)
}

// The numbers again, for at most 8 widths.
fn parts_of(bits: u64, widths: &[u64], whole: u128) -> Values
    requires bits { bits ≤ 128 }
    requires few_widths { length widths.now ≤ 8 }
    requires room { IsTrue (rule.have_room bits widths.now) }
    requires below { whole < 2 ^ bits }
    ensures { result ≡ rule.parts bits widths.now whole }
{
    let mut values = Values::new();
    let mut room = bits;
    let mut rest = whole;
    for width in widths {
        room -= *width;
        values.push((rest >> room) as u64);
        rest %= 1 << room;
    }
    values
}

/// The numbers again.
pub fn parts(bits: u64, widths: &Widths, whole: u128) -> Values
    requires bits { bits ≤ 128 }
    requires room { IsTrue (rule.have_room bits widths.now) }
    requires below { whole < 2 ^ bits }
    ensures { result ≡ rule.parts bits widths.now whole }
{
    let count = widths.len();
    prove!(count <= 8);
    parts_of(bits, widths.as_slice(), whole)
}

/// A number in one word, or in two.
pub fn words<const N: usize>(whole: u128) -> [u64; N]
    requires words { IsWords N }
    requires below { whole < 2 ^ (64 * N) }
    ensures { result ≡ rule.words N whole }
{
    let mut words = [0; N];
    words[N - 1] = (whole % (1 << 64)) as u64;
    if N == 2 {
        words[0] = (whole >> 64) as u64;
    }
    words
}

/// The number again.
pub fn number<const N: usize>(words: &[u64; N]) -> u128
    requires words { IsWords N }
    ensures value { result ≡ rule.number words.now }
    ensures below { result < 2 ^ (64 * N) }
{
    let low = u128::from(words[N - 1]);
    if N == 2 {
        (u128::from(words[0]) << 64) + low
    } else {
        low
    }
}

/// How many words have room for numbers of these widths, if one or two have.
pub fn words_for(widths: &[u64]) -> Option<usize>
    ensures words { IfSome result IsWords }
    ensures room { IfSome result (λ count. IsTrue (rule.have_room (64 * count) widths.now)) }
{
    if have_room(64, widths) {
        Some(1)
    } else if have_room(128, widths) {
        Some(2)
    } else {
        None
    }
}
