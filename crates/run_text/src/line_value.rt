//! Values of which each stands on a line of a text.
ghost use Rattle.std.specs.Prelude.{◌≡◌, ◌≤◌, ◌<◌, ◌⊎◌, ◌+◌, ◌^◌, length, IfOk, IfErr, IfSome, MatchOption, true, false, Ok, Err, []};
ghost use Rattle.std.specs.Prelude.{not, ◌&&◌};
ghost use Rattle.std.specs.List.{list_any};
ghost use Rattle.gal_io.specs.Lines.{lines};
ghost use Rattle.run_text.specs.Said.{IsFirst, IsSaidFirst, said_by};
ghost use Rattle.run_text.specs.Trace.{at_most, values_until};

use crate::refusal::{LineKind, LinesError};
use gal_io::{NoMemory, is_skipped, split_line};
use std::alloc::Global;

/// A value that a line spells.
pub(crate) trait LineValue: Sized + Drop {
    ghost use Rattle.std.specs.Prelude.{List, ℕ, Bool, Result};
    ghost use Rattle.run_text.specs.declared.refusal.LineKind.{LineKind};

    ghost line_gives: { List ℕ → Result Self LineKind };

    ghost line_ends: { List ℕ → Bool };

    /// The value of a line, or what is wrong with it.
    fn from_line(alloc: Global, line: &[u8]) -> Result<Result<Self, LineKind>, NoMemory>
        ensures { IfOk result (λ given. given ≡ line_gives line.now) };

    /// Whether a line spells no value and is the last that may stand.
    fn is_end(line: &[u8]) -> bool
        ensures { result ≡ line_ends line.now };

    /// The value that the first line of a text spells, and the lines behind it, where a look at a few bytes tells.
    fn at_once(text: &[u8]) -> Option<(Self, &[u8])>
        ensures { IfSome result (λ first. IsFirst line_ends line_gives text.now first.0 first.1.now) };
}

// What a line says.
#[derive(Drop)]
enum Said<V> {
    Value(V),
    Nothing,
    End,
    Wrong(LineKind),
}

/// The values of the lines of a text, and whether one ended them.
#[derive(Drop)]
pub(crate) struct LineValues<V> {
    pub(crate) items: Vec<V>,
    pub(crate) ended: bool,
}

// What a line says that isn't the first one to end the values.
fn read_line<V: LineValue>(alloc: Global, line: &[u8], ended: bool) -> Result<Said<V>, NoMemory>
    ensures { (not ended && V.line_ends line.now) ≡ false
        → IfOk result (λ said. said ≡ said_by V.line_ends V.line_gives ended line.now) }
{
    if is_skipped(line) {
        return Ok(Said::Nothing);
    }
    if ended {
        return Ok(Said::Wrong(LineKind::AfterDrain));
    }
    match V::from_line(alloc, line)? {
        Ok(value) => Ok(Said::Value(value)),
        Err(kind) => Ok(Said::Wrong(kind)),
    }
}

// What the first line of a text says, where the values have ended already or not, and the lines behind it.
fn first_said<'t, V: LineValue>(
    alloc: Global,
    text: &'t [u8],
    ended: bool,
) -> Result<Option<(Said<V>, &'t [u8])>, NoMemory>
    ensures { IfOk result (λ first. MatchOption first (text.now ≡ [])
        (λ parts. IsSaidFirst V.line_ends V.line_gives ended text.now parts.0 parts.1.now)) }
{
    if !ended {
        if let Some((value, behind)) = V::at_once(text) {
            return Ok(Some((Said::Value(value), behind)));
        }
    }
    let Some((line, behind)) = split_line(text) else {
        return Ok(None);
    };
    if !ended && V::is_end(line) {
        return Ok(Some((Said::End, behind)));
    }
    Ok(Some((read_line(alloc, line, ended)?, behind)))
}

// No values yet, with room for as many as the lines of a text can spell, but for no more than `most`: each line has a
// byte and, but for the last one, an end.
fn room_for<V>(alloc: Global, text: &[u8], most: usize) -> Result<Vec<V>, NoMemory>
    ensures { IfOk result (λ items. items.items ≡ []) }
{
    let lines = text.len() / 2 + 1;
    Ok(Vec::with_capacity(alloc, lines.min(most))?)
}

/// The values of the lines of a text, in front of which so many lines stand. Those past the first `most` are counted
/// and not kept.
#[tactic(auto, using(std::proofs::lemmas::Grind::common_steps, crate::proofs::LineSteps::values_first, crate::proofs::LineSteps::ended_first, crate::proofs::LineSteps::stands_kept, crate::proofs::LineSteps::stands_counted))]
pub(crate) fn read_values<V: LineValue>(
    alloc: Global,
    text: &[u8],
    before: usize,
    most: usize,
) -> Result<LineValues<V>, LinesError>
    requires bounded_text { before + length text.now < 2 ^ 64 }
    ensures ok { IfOk result (λ values.
        at_most most (values_until V.line_ends V.line_gives (before + 1) (lines text.now)) ≡ Ok values.items.items) }
    ensures ended { IfOk result (λ values. values.ended ≡ list_any V.line_ends (lines text.now)) }
    ensures err { IfErr result (λ e. (e ≡ LinesError.NoMemory)
        ⊎ (at_most most (values_until V.line_ends V.line_gives (before + 1) (lines text.now)) ≡ Err e)) }
{
    let mut items = room_for(alloc, text, most)?;
    let mut have: usize = 0;
    let mut number = before;
    let mut ended = false;
    let mut ahead = text;
    while let Some((said, behind)) = first_said::<V>(alloc, ahead, ended)? {
        number += 1;
        ahead = behind;
        match said {
            Said::Value(value) => {
                if have < most {
                    items.push(value)?;
                }
                have += 1;
            }
            Said::Nothing => {}
            Said::End => ended = true,
            Said::Wrong(kind) => return Err(LinesError::Line { number, kind }),
        }
    }
    if have > most {
        return Err(LinesError::TooMany {
            have,
            allowed: most,
        });
    }
    Ok(LineValues { items, ended })
}
