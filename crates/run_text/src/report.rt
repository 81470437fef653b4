//! The text of a report.
ghost use Rattle.std.specs.Prelude.{◌≡◌, ◌++◌, codes, decimal, IfOk, OnOk, string_bytes};
ghost use Rattle.run_text.specs.Report.{decided_text, drained_line, events_line, fate_line};
ghost use Rattle.run_text.specs.Report.{fate_lines, fate_text, order_line, packets_line, released_text, report_of};
ghost use Rattle.run_text.specs.Report.{tables_text, verdict_text, version_line};
ghost use Rattle.gal_io.specs.Number.{spaced_numbers};

use crate::body::put_body;
use crate::parts::put_parts;
use gal_io::{NoMemory, Text};
use packet_fields::Verdict;
use run_model::{Fate, Run};
use state_store::{ObjectDecl, Objects};
use std::alloc::Global;

/// Puts a verdict behind a text.
pub(crate) fn put_verdict(alloc: Global, verdict: &Verdict, text: &mut Text) -> Result<(), NoMemory>
    ensures { OnOk result (text.new ≡ text.old ++ verdict_text verdict.now) }
{
    match verdict {
        Verdict::Drop => text.extend(b"drop"),
        Verdict::Send(port, bytes) => {
            put_labelled("send ", u32::from(*port), text)?;
            text.push(b' ')?;
            put_body(alloc, bytes.as_slice(), text)
        }
    }
}

// Puts a number behind a label.
fn put_labelled(label: &str, number: u32, text: &mut Text) -> Result<(), NoMemory>
    ensures { OnOk result (text.new ≡ text.old ++ (label.now ++ decimal number)) }
{
    text.extend(label.as_bytes())?;
    text.push_number(u64::from(number))
}

fn put_decided(
    path: &str,
    admitted: u32,
    decided: u32,
    version: u32,
    text: &mut Text,
) -> Result<(), NoMemory>
    ensures { OnOk result (text.new ≡ text.old ++ decided_text path.now admitted decided version) }
{
    text.extend(path.as_bytes())?;
    put_labelled(" admitted ", admitted, text)?;
    put_labelled(" decided ", decided, text)?;
    put_labelled(" version ", version, text)
}

fn put_released(
    alloc: Global,
    released: u32,
    verdict: &Verdict,
    text: &mut Text,
) -> Result<(), NoMemory>
    ensures { OnOk result (text.new ≡ text.old ++ released_text released verdict.now) }
{
    put_labelled(" released ", released, text)?;
    text.push(b' ')?;
    put_verdict(alloc, verdict, text)
}

fn put_fate(alloc: Global, fate: &Fate, text: &mut Text) -> Result<(), NoMemory>
    ensures { OnOk result (text.new ≡ text.old ++ fate_text fate.now) }
{
    match fate {
        Fate::Pass { admitted } => put_labelled("pass admitted ", *admitted, text),
        Fate::Up { admitted } => put_labelled("up admitted ", *admitted, text),
        Fate::Held {
            admitted,
            decided,
            version,
        } => {
            put_decided("slow", *admitted, *decided, *version, text)?;
            text.extend(b" held")
        }
        Fate::Slow {
            admitted,
            decided,
            version,
            released,
            verdict,
        } => {
            put_decided("slow", *admitted, *decided, *version, text)?;
            put_released(alloc, *released, verdict, text)
        }
        Fate::Fast {
            admitted,
            decided,
            version,
            released,
            verdict,
        } => {
            put_decided("fast", *admitted, *decided, *version, text)?;
            put_released(alloc, *released, verdict, text)
        }
    }
}

/// Puts the front of the line of a packet behind a text: its number and a space.
pub(crate) fn put_packet_number(number: usize, text: &mut Text) -> Result<(), NoMemory>
    ensures { OnOk result (text.new ≡ text.old ++ (codes "packet " ++ (decimal number ++ codes " "))) }
{
    text.extend(b"packet ")?;
    text.push_number(number as u64)?;
    text.push(b' ')
}

fn put_fate_line(alloc: Global, number: usize, fate: &Fate, text: &mut Text) -> Result<(), NoMemory>
    ensures { OnOk result (text.new ≡ text.old ++ fate_line number fate.now) }
{
    put_packet_number(number, text)?;
    put_fate(alloc, fate, text)?;
    text.push(b'\n')
}

fn put_fates(alloc: Global, fates: &[Fate], text: &mut Text) -> Result<(), NoMemory>
    ensures { OnOk result (text.new ≡ text.old ++ fate_lines 0 fates.now) }
{
    for number in 0..fates.len() {
        put_fate_line(alloc, number, &fates[number], text)?;
    }
    Ok(())
}

fn put_numbers(numbers: &[u32], text: &mut Text) -> Result<(), NoMemory>
    ensures { OnOk result (text.new ≡ text.old ++ spaced_numbers numbers.now) }
{
    for number in numbers {
        text.push(b' ')?;
        text.push_number(u64::from(*number))?;
    }
    Ok(())
}

fn put_order(order: &[u32], text: &mut Text) -> Result<(), NoMemory>
    ensures { OnOk result (text.new ≡ text.old ++ order_line order.now) }
{
    text.extend(b"order")?;
    match order {
        [] => text.extend(b" -")?,
        _ => put_numbers(order, text)?,
    }
    text.push(b'\n')
}

fn packets_line(alloc: Global, run: &Run) -> Result<String, NoMemory>
    ensures { IfOk result (λ line. string_bytes line ≡ packets_line run.now) }
{
    let (total, decided, released) = (run.total, run.decided, run.released);
    let admitted = run.fates.as_slice().len();
    Ok(format!(in alloc;
        "packets {total} admitted {admitted} decided {decided} released {released}\n"
    )?)
}

fn events_line(alloc: Global, run: &Run) -> Result<String, NoMemory>
    ensures { IfOk result (λ line. string_bytes line ≡ events_line run.now) }
{
    let (events, idle) = (run.events, run.idle);
    Ok(format!(in alloc; "events {events} idle {idle}\n")?)
}

fn version_line(alloc: Global, run: &Run) -> Result<String, NoMemory>
    ensures { IfOk result (λ line. string_bytes line ≡ version_line run.now) }
{
    let (version, visible) = (run.version, run.visible);
    Ok(format!(in alloc; "version {version} visible {visible}\n")?)
}

fn drained_line(drained: bool) -> &'static [u8]
    ensures { result.now ≡ drained_line drained }
{
    if drained {
        b"drained yes\n"
    } else {
        b"drained no\n"
    }
}

fn put_tables(objects: &[ObjectDecl], run: &Run, text: &mut Text) -> Result<(), NoMemory>
    ensures { OnOk result (text.new ≡ text.old ++ tables_text objects.now run.now) }
{
    put_parts("object", objects, run.objects.as_slice(), text)?;
    put_parts("switch", objects, run.switch.as_slice(), text)
}

/// The report of a run of a middlebox with these objects: its counts, a line for each admitted packet, the serial
/// order, the rows of the objects on the server, and those of the replicated ones on the switch.
pub fn print_run(alloc: Global, objects: &Objects, run: &Run) -> Result<Text, NoMemory>
    ensures { IfOk result (λ text. text ≡ report_of objects.now run.now) }
{
    let mut text = Text::from_slice(alloc, b"report 1\n")?;
    text.extend(packets_line(alloc, run)?.as_bytes())?;
    text.extend(events_line(alloc, run)?.as_bytes())?;
    text.extend(version_line(alloc, run)?.as_bytes())?;
    text.extend(drained_line(run.drained))?;
    put_fates(alloc, run.fates.as_slice(), &mut text)?;
    put_order(run.order.as_slice(), &mut text)?;
    put_tables(objects.as_slice(), run, &mut text)?;
    text.extend(b"end\n")?;
    Ok(text)
}
