//! The lines of a part.
ghost use Rattle.std.specs.Prelude.{◌≡◌, ◌<◌, nat_le, MatchOption, None, Some, slice_index, [], ◌+◌, ◌*◌, ◌^◌, ◌-◌};
ghost use Rattle.report_text.specs.Parse.{count_of, key_number, keys_at, most_of, row_of, values_at};
ghost use Rattle.report_text.specs.Machine.{keys_above};

use crate::piece::{after, labelled, labelled_up_to, number_at, whole};
use gal_bits::{Values, Widths};
use state_store::Row;

// The greatest number of a width, at most 64 bits.
fn most_of(width: u64) -> u64
    ensures { result ≡ most_of width }
{
    if width < 64 {
        (1 << width) - 1
    } else {
        u64::MAX
    }
}

// A number of a width, and what follows the space behind it.
#[tactic(auto, unfolding(crate::specs::Parse::key_number))]
fn read_number(width: u64, line: &[u8]) -> Option<(u64, &[u8])>
    ensures { MatchOption result (key_number width line.now ≡ None)
        (λ found. key_number width line.now ≡ Some (found.0, found.1.now)) }
{
    let (number, rest) = number_at(most_of(width), line)?;
    let rest = after(b" ", rest)?;
    Some((number, rest))
}

// The numbers of a key, each before a space.
#[tactic(auto, using(crate::proofs::Loops::keys_on, crate::proofs::Loops::keys_stop))]
fn read_keys<'a>(widths: &Widths, line: &'a [u8]) -> Option<(Values, &'a [u8])>
    ensures { MatchOption result (keys_at [] widths.now line.now ≡ None)
        (λ found. keys_at [] widths.now line.now ≡ Some (found.0, found.1.now)) }
{
    let mut keys = Values::new();
    let mut ahead = line;
    for at in 0..widths.len() {
        let Some((number, rest)) = read_number(widths.at(at), ahead) else {
            return None;
        };
        keys.push(number);
        ahead = rest;
    }
    Some((keys, ahead))
}

// The numbers of a value, each behind a space.
#[tactic(auto, using(crate::proofs::Loops::values_on, crate::proofs::Loops::values_stop))]
fn read_values<'a>(widths: &Widths, line: &'a [u8]) -> Option<(Values, &'a [u8])>
    ensures { MatchOption result (values_at [] widths.now line.now ≡ None)
        (λ found. values_at [] widths.now line.now ≡ Some (found.0, found.1.now)) }
{
    let mut values = Values::new();
    let mut ahead = line;
    for at in 0..widths.len() {
        let Some((number, rest)) = labelled_up_to(most_of(widths.at(at)), b" ", ahead) else {
            return None;
        };
        values.push(number);
        ahead = rest;
    }
    Some((values, ahead))
}

/// A row of numbers of these widths.
#[tactic(auto, unfolding(crate::specs::Parse::row_of))]
pub(crate) fn read_row(key_widths: &Widths, value_widths: &Widths, line: &[u8]) -> Option<Row>
    ensures { result ≡ row_of key_widths.now value_widths.now line.now }
{
    let Some((keys, rest)) = read_keys(key_widths, line) else {
        return None;
    };
    let rest = after(b"->", rest)?;
    let Some((values, rest)) = read_values(value_widths, rest) else {
        return None;
    };
    if rest.is_empty() {
        Some(Row { keys, values })
    } else {
        None
    }
}

/// The number of rows on the line of the object of this name.
#[tactic(auto, unfolding(crate::specs::Parse::count_of))]
pub(crate) fn read_count(word: &[u8], name: &[u8], line: &[u8]) -> Option<u32>
    ensures { result ≡ count_of word.now name.now line.now }
{
    let rest = after(word, line)?;
    let rest = after(name, rest)?;
    let (count, rest) = labelled(b" ", rest)?;
    whole(count, rest)
}

// How many keys are greater by one number more, where so many are by those in front.
fn with_number(above: u64, width: u64, number: u64) -> u64
    requires front { above < 2 ^ 32 }
    requires width { 0 < above → width < 32 }
    ensures { result ≡ above * 2 ^ width + (most_of width - number) }
{
    let gap = most_of(width).saturating_sub(number);
    if above == 0 {
        gap
    } else {
        above * (1 << width) + gap
    }
}

// The number of a key at this place, or 0.
fn number_of(key: &Values, at: usize) -> u64
    ensures { result ≡ slice_index key.now at }
{
    if at < key.len() { key.at(at) } else { 0 }
}

/// Whether so many keys are greater than this one. Numbers that are missing from it are 0.
#[tactic(auto, using(crate::proofs::Loops::leaves_on, crate::proofs::Loops::leaves_many, crate::proofs::Loops::leaves_wide))]
pub(crate) fn leaves(rows: u32, widths: &Widths, key: &Values) -> bool
    ensures { result ≡ nat_le rows (keys_above 0 widths.now key.now) }
{
    let mut above: u64 = 0;
    for at in 0..widths.len() {
        let width = widths.at(at);
        if above > 0 && width >= 32 {
            return true;
        }
        above = with_number(above, width, number_of(key, at));
        if above >= u64::from(u32::MAX) {
            return true;
        }
    }
    u64::from(rows) <= above
}
