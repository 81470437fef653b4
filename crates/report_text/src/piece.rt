//! Pieces of a line, from its front on.
ghost use Rattle.std.specs.Prelude.{◌≡◌, ◌≤◌, IfSome, MatchOption, None, Some};
ghost use Rattle.run_text.specs.Trace.{largest};
ghost use Rattle.report_text.specs.Parse.{after, labelled, number_at, whole};

use gal_io::{first_space, number_up_to};

/// What follows the word that a line begins with.
pub(crate) fn after<'a>(word: &[u8], line: &'a [u8]) -> Option<&'a [u8]>
    ensures { MatchOption result (after word.now line.now ≡ None) (λ rest. after word.now line.now ≡ Some rest.now) }
{
    if line.len() < word.len() {
        return None;
    }
    let (front, rest) = line.split_at(word.len());
    if front == word { Some(rest) } else { None }
}

/// The number up to the first space, where it is at most `most`, and what follows from that space on.
#[tactic(auto, unfolding(crate::specs::Parse::number_at), using(gal_io::proofs::NumberLemmas::number_small))]
pub(crate) fn number_at(most: u64, line: &[u8]) -> Option<(u64, &[u8])>
    ensures small { IfSome result (λ found. found.0 ≤ most) }
    ensures found { MatchOption result (number_at most line.now ≡ None)
        (λ found. number_at most line.now ≡ Some (found.0, found.1.now)) }
{
    let (digits, rest) = line.split_at(first_space(line));
    let number = number_up_to(digits, most)?;
    Some((number, rest))
}

/// The number behind a word, and what follows it.
#[tactic(auto, unfolding(crate::specs::Parse::labelled))]
pub(crate) fn labelled_up_to<'a>(most: u64, word: &[u8], line: &'a [u8]) -> Option<(u64, &'a [u8])>
    ensures small { IfSome result (λ found. found.0 ≤ most) }
    ensures found { MatchOption result (labelled most word.now line.now ≡ None)
        (λ found. labelled most word.now line.now ≡ Some (found.0, found.1.now)) }
{
    let rest = after(word, line)?;
    number_at(most, rest)
}

/// The same of a number of 32 bits.
pub(crate) fn labelled<'a>(word: &[u8], line: &'a [u8]) -> Option<(u32, &'a [u8])>
    ensures { MatchOption result (labelled largest word.now line.now ≡ None)
        (λ found. labelled largest word.now line.now ≡ Some (found.0, found.1.now)) }
{
    let (number, rest) = labelled_up_to(u64::from(u32::MAX), word, line)?;
    Some((number as u32, rest))
}

/// The value, where nothing follows it on its line.
pub(crate) fn whole<T: Drop>(value: T, rest: &[u8]) -> Option<T>
    ensures { result ≡ whole value rest.now }
{
    if rest.is_empty() { Some(value) } else { None }
}
