//! The words of a line, and the spaces between them.
ghost use Rattle.std.specs.Prelude.{◌≡◌, ◌≤◌, false, true, length, MatchOption};
ghost use Rattle.std.specs.List.{after_first, before_first, list_any, position_or_len};
ghost use Rattle.gal_io.specs.Lines.{is_space};

/// Where the first space of a line stands, or where the line ends.
pub fn first_space(line: &[u8]) -> usize
    ensures place { result ≡ position_or_len is_space line.now }
    ensures within { result ≤ length line.now }
{
    line.iter().take_while(|byte| **byte != b' ').count()
}

/// What stands before the first space of a line, and what stands behind it.
#[tactic(auto, using(std::proofs::lemmas::Grind::common_steps, crate::proofs::Spaces::any_space))]
pub fn split_at_space(line: &[u8]) -> Option<(&[u8], &[u8])>
    ensures { MatchOption result (list_any is_space line.now ≡ false)
        (λ parts. (list_any is_space line.now ≡ true)
        × (parts.0.now ≡ before_first is_space line.now)
        × (parts.1.now ≡ after_first is_space line.now)) }
{
    let at = first_space(line);
    if at == line.len() {
        return None;
    }
    Some((&line[..at], &line[at + 1..]))
}
