//! The lines of a text.
ghost use Rattle.std.specs.Prelude.{◌≡◌, ◌<◌, ◌≤◌, ◌==◌, [], ◌∷◌, length, drop, IfSome, MatchOption};
ghost use Rattle.std.specs.List.{position_or_len};
ghost use Rattle.gal_io.specs.Lines.{lines, without_return, is_skipped};

use memchr::memchr;

// Where the first LF stands, or the text ends.
fn line_end(text: &[u8]) -> usize
    ensures end { result ≡ position_or_len (λ byte. byte == 10) text.now }
    ensures within { result ≤ length text.now }
{
    memchr(b'\n', text).unwrap_or(text.len())
}

fn without_first(bytes: &[u8]) -> &[u8]
    ensures { result.now ≡ drop 1 bytes.now }
{
    match bytes {
        [] => bytes,
        [_, rest @ ..] => rest,
    }
}

fn without_return(line: &[u8]) -> &[u8]
    ensures { result.now ≡ without_return line.now }
{
    match line {
        [front @ .., b'\r'] => front,
        _ => line,
    }
}

/// The first line of a text, without what ends it, and what follows. A line ends with LF or with the text, and one
/// CR at its end belongs to neither.
#[tactic(auto, using(crate::proofs::LineLemmas::lines_first))]
pub fn split_line(text: &[u8]) -> Option<(&[u8], &[u8])>
    ensures parts { MatchOption result (text.now ≡ [])
        (λ parts. lines text.now ≡ parts.0.now ∷ lines parts.1.now) }
    ensures shorter { IfSome result (λ parts. length parts.1.now < length text.now) }
{
    if text.is_empty() {
        return None;
    }
    let (line, ended) = text.split_at(line_end(text));
    Some((without_return(line), without_first(ended)))
}

/// Whether a line is empty or a comment, which the readers of texts pass over.
pub fn is_skipped(line: &[u8]) -> bool
    ensures { result ≡ is_skipped line.now }
{
    match line {
        [] => true,
        [first, ..] => *first == b'#',
    }
}
