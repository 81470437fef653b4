//! The text of a schedule over links.
ghost use Rattle.std.specs.Prelude.{◌≡◌, ◌≤◌, ◌⊎◌, ◌++◌, ◌∷◌, length, decimal, map, All, OnOk, IfOk, IfErr};
ghost use Rattle.std.specs.Prelude.{Ok, Err, false};
ghost use Rattle.gal_io.specs.Lines.{line_end, lined};
ghost use Rattle.run_model.specs.LinkEvents.{IsLinkSchedule, takes_stage};
ghost use Rattle.run_text.specs.LinkSchedule.{letter_event, link_event_line, link_named, link_schedule_of, place_line};
ghost use Rattle.run_text.specs.LinkSchedule.{link_event_text, link_name, link_schedule_text, place_text};
ghost use Rattle.run_text.specs.Printed.{IsLineOf};
ghost use Rattle.run_text.specs.Trace.{largest};

use crate::line_value::{LineValue, read_values};
use crate::refusal::{LineKind, LinesError, MAX_EVENTS};
use crate::schedule::{put_event, read_item, read_word};
use gal_io::{NoMemory, Text, split_at_space};
use run_model::{Event, Link, LinkEvent, LinkEvents};
use std::alloc::Global;

// The link of this name.
fn link_named(name: &[u8]) -> Option<Link>
    ensures { result ≡ link_named name.now }
{
    match name {
        [b'u', b'p'] => Some(Link::Up),
        [b'd', b'o', b'w', b'n'] => Some(Link::Down),
        [b'c', b't', b'l'] => Some(Link::Ctl),
        [b'a', b'c', b'k'] => Some(Link::Ack),
        _ => None,
    }
}

// The name of a link, a space and a number.
fn read_place(text: &[u8]) -> Result<(Link, u32), LineKind>
    ensures { result ≡ place_line text.now }
{
    let Some((name, number)) = split_at_space(text) else {
        return Err(LineKind::Form);
    };
    let Some(link) = link_named(name) else {
        return Err(LineKind::Form);
    };
    Ok((link, read_item(number)?))
}

// An event by its letter and what stands behind its space.
fn read_letter(letter: &[u8], behind: &[u8]) -> Result<LinkEvent, LineKind>
    ensures { result ≡ letter_event letter.now behind.now }
{
    match letter {
        [b'u'] => Ok(LinkEvent::World(Event::Serve(read_item(behind)?))),
        [b'h'] => Ok(LinkEvent::World(Event::Hold(read_item(behind)?))),
        [b'd'] => Ok(LinkEvent::World(Event::Down(read_item(behind)?))),
        [b'x'] => {
            let (link, number) = read_place(behind)?;
            Ok(LinkEvent::Transmit(link, number))
        }
        [b'y'] => {
            let (link, number) = read_place(behind)?;
            Ok(LinkEvent::Deliver(link, number))
        }
        [b'z'] => {
            let (link, number) = read_place(behind)?;
            Ok(LinkEvent::Confirm(link, number))
        }
        _ => Err(LineKind::Form),
    }
}

fn read_link_event(line: &[u8]) -> Result<LinkEvent, LineKind>
    ensures { result ≡ link_event_line line.now }
{
    if let Some(event) = read_word(line) {
        return Ok(LinkEvent::World(event));
    }
    match split_at_space(line) {
        Some((letter, behind)) => read_letter(letter, behind),
        None => Err(LineKind::Form),
    }
}

impl LineValue for LinkEvent {
    ghost line_gives = { link_event_line };

    ghost line_ends = { λ _. false };

    fn from_line(_alloc: Global, line: &[u8]) -> Result<Result<LinkEvent, LineKind>, NoMemory> {
        Ok(read_link_event(line))
    }

    fn is_end(_line: &[u8]) -> bool {
        false
    }

    fn at_once(_text: &[u8]) -> Option<(LinkEvent, &[u8])> {
        None
    }
}

/// The events of a schedule over links. A line is one of a schedule, but neither `fine` nor `drain` nor one for a stage;
/// or `x`, `y` or `z` for a datagram that is sent, a datagram that arrives or a confirmation that arrives, a space, the
/// name of a link, which is `up`, `down`, `ctl` or `ack`, a space and a place in decimal.
pub fn read_link_schedule(alloc: Global, text: &[u8]) -> Result<LinkEvents, LinesError>
    ensures ok { IfOk result (λ events. link_schedule_of text.now ≡ Ok events) }
    ensures err { IfErr result (λ e. (e ≡ LinesError.NoMemory) ⊎ (link_schedule_of text.now ≡ Err e)) }
    ensures fits { IfOk result IsLinkSchedule }
{
    let lines = read_values(alloc, text, 0, MAX_EVENTS)?;
    Ok(LinkEvents::from(lines.items))
}

fn name_of(link: Link) -> &'static [u8]
    ensures { result.now ≡ link_name link }
{
    match link {
        Link::Up => b"up",
        Link::Down => b"down",
        Link::Ctl => b"ctl",
        Link::Ack => b"ack",
    }
}

// A link and a place behind the letter of their event.
fn put_place(letter: u8, link: Link, number: u32, text: &mut Text) -> Result<(), NoMemory>
    ensures text { OnOk result (text.new ≡ text.old ++ (letter ∷ 32 ∷ place_text link number)) }
    ensures fits { number ≤ largest }
{
    text.push(letter)?;
    text.push(b' ')?;
    text.extend(name_of(link))?;
    text.push(b' ')?;
    text.push_number(u64::from(number))
}

fn put_link_event(event: &LinkEvent, text: &mut Text) -> Result<(), NoMemory>
    ensures text { OnOk result (text.new ≡ text.old ++ link_event_text event.now) }
    ensures back { takes_stage event.now ≡ false
        → OnOk result (IsLineOf link_event_line (link_event_text event.now) event.now) }
{
    match event {
        LinkEvent::World(event) => put_event(event, text),
        LinkEvent::Transmit(link, number) => put_place(b'x', *link, *number, text),
        LinkEvent::Deliver(link, number) => put_place(b'y', *link, *number, text),
        LinkEvent::Confirm(link, number) => put_place(b'z', *link, *number, text),
    }
}

fn put_link_events(events: &[LinkEvent], text: &mut Text) -> Result<(), NoMemory>
    ensures text { OnOk result (text.new ≡ text.old ++ lined (map link_event_text events.now)) }
    ensures back { OnOk result (All (λ event. takes_stage event ≡ false
        → IsLineOf link_event_line (link_event_text event) event) events.now) }
{
    for event in events {
        put_link_event(event, text)?;
        text.push(b'\n')?;
    }
    Ok(())
}

/// The text of a schedule over links, with a line for each event. It reads back, where there are no more events than a
/// schedule may have, and none is a stage of a pass.
pub fn print_link_schedule(alloc: Global, events: &LinkEvents) -> Result<Text, NoMemory>
    ensures text { IfOk result (λ text. text ≡ link_schedule_text events.now) }
    ensures back { IsLinkSchedule events.now → IfOk result (λ text. link_schedule_of text ≡ Ok events.now) }
{
    let mut text = Text::new(alloc);
    put_link_events(events.as_slice(), &mut text)?;
    Ok(text)
}
