//! The text of a schedule.
ghost use Rattle.std.specs.Prelude.{◌≡◌, ◌≤◌, ◌<◌, ◌+◌, ◌^◌, ◌⊎◌, ◌++◌, ◌∷◌, length, decimal, map, All, OnOk, IfOk, IfErr};
ghost use Rattle.std.specs.Prelude.{IfSome, MatchOption, MatchResult, Some, None, Ok, Err, []};
ghost use Rattle.gal_io.specs.Lines.{lines, line_end, lined};
ghost use Rattle.gal_io.specs.Number.{number_up_to};
ghost use Rattle.run_model.specs.Sizes.{most_events};
ghost use Rattle.run_text.specs.Printed.{IsLineOf, event_text, schedule_text};
ghost use Rattle.run_text.specs.Trace.{behind_fine, event_line, is_drain, largest, plan_behind, schedule_of, word_event};

use crate::line_value::{LineValue, read_values};
use crate::plan::Plan;
use crate::refusal::{LineKind, LinesError, MAX_EVENTS};
use gal_io::{NoMemory, Text, is_skipped, number_up_to, split_line};
use run_model::{Event, Events};
use std::alloc::Global;

pub(crate) fn read_item(item: &[u8]) -> Result<u32, LineKind>
    ensures { MatchResult result (λ number. number_up_to largest item.now ≡ Some number)
        (λ kind. (kind ≡ LineKind.Number) × (number_up_to largest item.now ≡ None)) }
{
    match number_up_to(item, u64::from(u32::MAX)) {
        None => Err(LineKind::Number),
        Some(number) => Ok(number as u32),
    }
}

// The event that a letter names.
fn read_letter(letter: u8) -> Option<Event>
    ensures { result ≡ word_event (letter ∷ []) }
{
    match letter {
        b'a' => Some(Event::Admit),
        b'c' => Some(Event::Send),
        b'w' => Some(Event::Apply),
        b'k' => Some(Event::Ack),
        _ => None,
    }
}

// The event that a line without an item names.
pub(crate) fn read_word(line: &[u8]) -> Option<Event>
    ensures { result ≡ word_event line.now }
{
    match line {
        [letter] => read_letter(*letter),
        _ => None,
    }
}

// The event that a letter names with an item.
fn event_with(letter: u8, item: u32) -> Option<Event>
    ensures { MatchOption result (event_line (letter ∷ 32 ∷ decimal item) ≡ Err LineKind.Form)
        (λ event. IsLineOf event_line (letter ∷ 32 ∷ decimal item) event) }
{
    match letter {
        b'u' => Some(Event::Serve(item)),
        b'h' => Some(Event::Hold(item)),
        b'd' => Some(Event::Down(item)),
        b's' => Some(Event::Stage(item)),
        _ => None,
    }
}

// The event that this letter names with the item behind it.
fn read_numbered(letter: u8, item: &[u8]) -> Result<Event, LineKind>
    ensures { result ≡ event_line (letter ∷ 32 ∷ item.now) }
{
    match letter {
        b'u' => Ok(Event::Serve(read_item(item)?)),
        b'h' => Ok(Event::Hold(read_item(item)?)),
        b'd' => Ok(Event::Down(read_item(item)?)),
        b's' => Ok(Event::Stage(read_item(item)?)),
        _ => Err(LineKind::Form),
    }
}

fn read_event(line: &[u8]) -> Result<Event, LineKind>
    ensures { result ≡ event_line line.now }
{
    match line {
        [letter, b' ', item @ ..] => read_numbered(*letter, item),
        _ => read_word(line).ok_or(LineKind::Form),
    }
}

impl LineValue for Event {
    ghost line_gives = { event_line };

    ghost line_ends = { is_drain };

    fn from_line(_alloc: Global, line: &[u8]) -> Result<Result<Event, LineKind>, NoMemory> {
        Ok(read_event(line))
    }

    fn is_end(line: &[u8]) -> bool {
        line == b"drain".as_slice()
    }

    fn at_once(text: &[u8]) -> Option<(Event, &[u8])> {
        match text {
            [letter, b'\n', behind @ ..] => Some((read_letter(*letter)?, behind)),
            [letter, b' ', digit @ b'0'..=b'9', b'\n', behind @ ..] => {
                Some((event_with(*letter, u32::from(*digit - b'0'))?, behind))
            }
            _ => None,
        }
    }
}

// How many lines there are up to the word `fine`, and what stands behind it, where it is the first line that isn't
// skipped.
fn split_fine(text: &[u8]) -> Option<(usize, &[u8])>
    ensures parts { MatchOption result (behind_fine 0 (lines text.now) ≡ None)
        (λ parts. behind_fine 0 (lines text.now) ≡ Some (parts.0, lines parts.1.now)) }
    ensures bounded { IfSome result (λ parts. parts.0 + length parts.1.now ≤ length text.now) }
{
    let mut number: usize = 0;
    let mut ahead = text;
    while let Some((line, behind)) = split_line(ahead) {
        number += 1;
        ahead = behind;
        if is_skipped(line) {
            continue;
        }
        if line == b"fine".as_slice() {
            return Some((number, ahead));
        }
        return None;
    }
    None
}

// The plan that a text spells in front of which so many lines stand.
fn read_plan(alloc: Global, fine: bool, before: usize, text: &[u8]) -> Result<Plan, LinesError>
    requires bounded_text { before + length text.now < 2 ^ 64 }
    ensures ok { IfOk result (λ plan. plan_behind fine before (lines text.now) ≡ Ok plan) }
    ensures err { IfErr result (λ e. (e ≡ LinesError.NoMemory) ⊎ (plan_behind fine before (lines text.now) ≡ Err e)) }
    ensures bounded { IfOk result (λ plan. length plan.events ≤ most_events) }
{
    let lines = read_values(alloc, text, before, MAX_EVENTS)?;
    Ok(Plan {
        fine,
        events: Events::from(lines.items),
        drain: lines.ended,
    })
}

/// The plan of a schedule. A line is `a` for the next packet of the trace, `c`, `w` or `k` for the next command to be
/// sent, applied or acknowledged, or `u`, `h`, `d` or `s`, a space and the number of an item in decimal. The line `fine`
/// may come before them, and `drain` may end it.
pub fn read_schedule(alloc: Global, text: &[u8]) -> Result<Plan, LinesError>
    ensures ok { IfOk result (λ plan. schedule_of text.now ≡ Ok plan) }
    ensures err { IfErr result (λ e. (e ≡ LinesError.NoMemory) ⊎ (schedule_of text.now ≡ Err e)) }
    ensures bounded { IfOk result (λ plan. length plan.events ≤ most_events) }
{
    match split_fine(text) {
        Some((before, behind)) => read_plan(alloc, true, before, behind),
        None => read_plan(alloc, false, 0, text),
    }
}

// An item behind the letter of its event.
fn put_item(letter: u8, item: u32, text: &mut Text) -> Result<(), NoMemory>
    ensures text { OnOk result (text.new ≡ text.old ++ (letter ∷ 32 ∷ decimal item)) }
    ensures fits { item ≤ largest }
{
    text.push(letter)?;
    text.push(b' ')?;
    text.push_number(u64::from(item))
}

pub(crate) fn put_event(event: &Event, text: &mut Text) -> Result<(), NoMemory>
    ensures text { OnOk result (text.new ≡ text.old ++ event_text event.now) }
    ensures back { OnOk result (IsLineOf event_line (event_text event.now) event.now) }
{
    match event {
        Event::Admit => text.push(b'a'),
        Event::Stage(item) => put_item(b's', *item, text),
        Event::Serve(item) => put_item(b'u', *item, text),
        Event::Send => text.push(b'c'),
        Event::Apply => text.push(b'w'),
        Event::Ack => text.push(b'k'),
        Event::Hold(item) => put_item(b'h', *item, text),
        Event::Down(item) => put_item(b'd', *item, text),
    }
}

fn put_events(events: &[Event], text: &mut Text) -> Result<(), NoMemory>
    ensures text { OnOk result (text.new ≡ text.old ++ lined (map event_text events.now)) }
    ensures back { OnOk result (All (λ event. IsLineOf event_line (event_text event) event) events.now) }
{
    for event in events {
        put_event(event, text)?;
        text.push(b'\n')?;
    }
    Ok(())
}

/// The text of a schedule, with a line for each event. It reads back, where there are no more events than a schedule
/// may have.
pub fn print_schedule(alloc: Global, plan: &Plan) -> Result<Text, NoMemory>
    ensures text { IfOk result (λ text. text ≡ schedule_text plan.now) }
    ensures back { length plan.now.events ≤ most_events → IfOk result (λ text. schedule_of text ≡ Ok plan.now) }
{
    let mut text = Text::new(alloc);
    if plan.fine {
        text.extend(b"fine\n")?;
    }
    put_events(plan.events.as_slice(), &mut text)?;
    if plan.drain {
        text.extend(b"drain\n")?;
    }
    Ok(text)
}
