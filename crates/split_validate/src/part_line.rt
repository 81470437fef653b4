//! The lines of a split text, one by one.
ghost use Rattle.std.specs.Prelude.{◌≡◌};
ghost use Rattle.split_validate.specs.SplitSteps.{is_count, is_title, part_of, post_of, pre_of, slow_of};
ghost use Rattle.split_validate.specs.SplitSteps.{stage_of, words_of, writes};

use gal_io::{number_up_to, split_at_space};
use split_model::{Part, Slow};

/// The highest stage that a text may name.
const MAX_STAGE: u64 = 4_096;

// Whether a word writes this number.
fn writes_number(word: &[u8], number: usize) -> bool
    ensures { result ≡ writes number word.now }
{
    match number_up_to(word, number as u64) {
        Some(read) => read == number as u64,
        None => false,
    }
}

// The stage that a word writes.
fn read_stage(word: &[u8]) -> Option<u32>
    ensures { result ≡ stage_of word.now }
{
    match number_up_to(word, MAX_STAGE) {
        Some(stage) => Some(stage as u32),
        None => None,
    }
}

// A stage in preprocessing, or a dash.
fn read_pre(word: &[u8]) -> Option<Option<u32>>
    ensures { result ≡ pre_of word.now }
{
    if word == b"-".as_slice() {
        return Some(None);
    }
    match read_stage(word) {
        Some(stage) => Some(Some(stage)),
        None => None,
    }
}

// A stage in postprocessing.
fn read_post(words: &[u8]) -> Option<Slow>
    ensures { result ≡ post_of words.now }
{
    let (word, stage) = split_at_space(words)?;
    if word != b"post".as_slice() {
        return None;
    }
    match read_stage(stage) {
        Some(stage) => Some(Slow::Post(stage)),
        None => None,
    }
}

// Who gives the results for a packet that visits the server.
fn read_slow(words: &[u8]) -> Option<Slow>
    ensures { result ≡ slow_of words.now }
{
    if words == b"carried".as_slice() {
        return Some(Slow::Carried);
    }
    if words == b"server".as_slice() {
        return Some(Slow::Server);
    }
    read_post(words)
}

// What follows the number of an instruction.
fn read_words(words: &[u8]) -> Option<Part>
    ensures { result ≡ words_of words.now }
{
    let (pre, slow) = split_at_space(words)?;
    let pre = read_pre(pre)?;
    let slow = read_slow(slow)?;
    Some(Part { pre, slow })
}

/// The part of the instruction of a number that a line spells.
pub(crate) fn read_part(line: &[u8], number: usize) -> Option<Part>
    ensures { result ≡ part_of number line.now }
{
    let (word, words) = split_at_space(line)?;
    if !writes_number(word, number) {
        return None;
    }
    read_words(words)
}

// Whether words tell the version of the text, and so many instructions.
fn is_count(words: &[u8], count: usize) -> bool
    ensures { result ≡ is_count count words.now }
{
    match split_at_space(words) {
        Some((version, number)) => version == b"1".as_slice() && writes_number(number, count),
        None => false,
    }
}

/// Whether a line is the first of a split text for so many instructions.
pub(crate) fn is_title(line: &[u8], count: usize) -> bool
    ensures { result ≡ is_title count line.now }
{
    match split_at_space(line) {
        Some((word, words)) => word == b"split".as_slice() && is_count(words, count),
        None => false,
    }
}
