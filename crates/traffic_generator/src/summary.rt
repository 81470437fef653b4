//! What is told of a replay of made packets.
ghost use Rattle.std.specs.Prelude.{◌≡◌, ◌++◌, count_by, codes, IfOk, OnOk};
ghost use Rattle.traffic_generator.specs.Summary.{drained_line, events_text, heading_line, number_line};
ghost use Rattle.traffic_generator.specs.Summary.{packets_text, summary_of, was_dropped, went_fast, went_slow};

use crate::count::Count;
use gal_io::{NoMemory, Text};
use packet_fields::Verdict;
use run_model::{Fate, Run};
use std::alloc::Global;

fn went_fast(fate: &Fate) -> bool
    ensures { result ≡ went_fast fate.now }
{
    matches!(fate, Fate::Fast { .. })
}

fn went_slow(fate: &Fate) -> bool
    ensures { result ≡ went_slow fate.now }
{
    matches!(fate, Fate::Held { .. } | Fate::Slow { .. })
}

fn was_dropped(fate: &Fate) -> bool
    ensures { result ≡ was_dropped fate.now }
{
    match fate {
        Fate::Pass { .. } | Fate::Up { .. } | Fate::Held { .. } => false,
        Fate::Slow { verdict, .. } | Fate::Fast { verdict, .. } => matches!(verdict, Verdict::Drop),
    }
}

fn fast_count(fates: &[Fate]) -> u64
    ensures { result ≡ count_by went_fast fates.now }
{
    fates.iter().filter(|fate| went_fast(fate)).count() as u64
}

fn slow_count(fates: &[Fate]) -> u64
    ensures { result ≡ count_by went_slow fates.now }
{
    fates.iter().filter(|fate| went_slow(fate)).count() as u64
}

fn dropped_count(fates: &[Fate]) -> u64
    ensures { result ≡ count_by was_dropped fates.now }
{
    fates.iter().filter(|fate| was_dropped(fate)).count() as u64
}

// Puts a line with a name and a number behind a text.
fn put_number(name: &str, number: u64, text: &mut Text) -> Result<(), NoMemory>
    ensures { OnOk result (text.new ≡ text.old ++ number_line name.now number) }
{
    text.extend(name.as_bytes())?;
    text.push(b' ')?;
    text.push_number(number)?;
    text.push(b'\n')
}

fn put_heading(seed: u64, count: Count, text: &mut Text) -> Result<(), NoMemory>
    ensures { OnOk result (text.new ≡ text.old ++ heading_line seed count.packets) }
{
    text.extend(b"gen ")?;
    text.push_number(seed)?;
    text.push(b' ')?;
    text.push_number(u64::from(count.packets))?;
    text.push(b'\n')
}

fn put_packets(run: &Run, text: &mut Text) -> Result<(), NoMemory>
    ensures { OnOk result (text.new ≡ text.old ++ packets_text run.now) }
{
    let fates = run.fates.as_slice();
    put_number("packets", u64::from(run.total), text)?;
    put_number("fast", fast_count(fates), text)?;
    put_number("slow", slow_count(fates), text)?;
    put_number("dropped", dropped_count(fates), text)
}

fn put_events(run: &Run, commands: u32, text: &mut Text) -> Result<(), NoMemory>
    ensures { OnOk result (text.new ≡ text.old ++ events_text run.now commands) }
{
    put_number("version", u64::from(run.version), text)?;
    put_number("commands", u64::from(commands), text)?;
    put_number("events", u64::from(run.events), text)?;
    put_number("idle", u64::from(run.idle), text)
}

fn put_drained(drained: bool, text: &mut Text) -> Result<(), NoMemory>
    ensures { OnOk result (text.new ≡ text.old ++ drained_line drained) }
{
    if drained {
        text.extend(b"drained yes\n")
    } else {
        text.extend(b"drained no\n")
    }
}

/// The summary of a replay of so many packets that were made from this seed, with so many commands for the switch.
pub fn print_summary(
    alloc: Global,
    seed: u64,
    count: Count,
    run: &Run,
    commands: u32,
) -> Result<Text, NoMemory>
    ensures { IfOk result (λ text. text ≡ summary_of seed count.packets run.now commands) }
{
    let mut text = Text::new(alloc);
    put_heading(seed, count, &mut text)?;
    put_packets(run, &mut text)?;
    put_events(run, commands, &mut text)?;
    put_drained(run.drained, &mut text)?;
    text.extend(b"end\n")?;
    Ok(text)
}
