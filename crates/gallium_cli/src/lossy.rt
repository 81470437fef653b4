//! Replays of a middlebox over links that lose, repeat and reorder.
ghost use Rattle.std.specs.Prelude.{◌≡◌, ◌⊎◌, ◌≤◌, ◌++◌, Some, IfOk, IfErr, OnOk, false, is_some, length};
ghost use Rattle.gal_io.specs.Count.{Rose};
ghost use Rattle.element_lang.specs.View.{tree};
ghost use Rattle.flat_ir.specs.Program.{program_of};
ghost use Rattle.run_model.specs.LinkEvents.{IsLinkSchedule};
ghost use Rattle.run_model.specs.Sizes.{most_packets};
ghost use Rattle.run_text.specs.Report.{report_of};
ghost use Rattle.lossy_replay.specs.declared.run.LossyRun.{LossyRun};
ghost use Rattle.gallium_cli.specs.Answers.{given};
ghost use Rattle.gallium_cli.specs.Broken.{IsBrokenOn};
ghost use Rattle.gallium_cli.specs.Call.{work_of};
ghost use Rattle.gallium_cli.specs.Causes.{HasEnded, HasRead};
ghost use Rattle.gallium_cli.specs.Links.{IsLinkReplayed, IsLinkReport, IsLinkTraffic, count_text, link_line, link_lines};
ghost use Rattle.gallium_cli.specs.Roles.{link_gates};
ghost use Rattle.gallium_cli.specs.Runnable.{IsRunnable};
ghost use Rattle.gallium_cli.specs.Words.{Lossy};

use crate::formats::{Flattened, LinkScheduleFormat, TraceFormat};
use crate::load::load;
use crate::output::put;
use crate::refusal::Refusal;
use crate::splitting::{SplitMiddlebox, load_within};
use element_lang::Middlebox;
use gal_io::{Files, NoMemory, Sink, Text};
use lossy_replay::{LossyRun, Tally4, replay_lossy};
use packet_fields::Packets;
use run_model::{Events, LinkEvents};
use run_text::print_run;
use schedule_replay::{Job, ReplayError};
use std::alloc::Global;
use switch_ir::SwitchPort;

// The packets and the events that two files spell.
fn load_link_traffic<'a, F: Files>(
    alloc: Global,
    trace: &'a str,
    schedule: &'a str,
    files: &mut F,
) -> Result<(Packets, LinkEvents), Refusal<'a>>
    ensures ok { IfOk result (λ x. IsLinkTraffic (F.seen files.old).told trace.now schedule.now x.0 x.1) }
    ensures few_packets { IfOk result (λ x. length x.0 ≤ most_packets) }
    ensures fits { IfOk result (λ x. IsLinkSchedule x.1) }
    ensures reads { HasRead result (link_gates trace.now schedule.now) 2 (F.seen files.old) (F.seen files.new) }
{
    let packets = load(alloc, files, &TraceFormat, trace)?;
    match load(alloc, files, &LinkScheduleFormat, schedule) {
        Ok(events) => Ok((packets, events)),
        Err(refusal) => Err(refusal),
    }
}

// Replays packets by a schedule over links with a split middlebox, and gives the middlebox back with what came of it.
fn replayed<S: SwitchPort>(
    alloc: Global,
    split_middlebox: SplitMiddlebox,
    packets: Packets,
    events: &LinkEvents,
    port: &mut S,
) -> Result<(Middlebox, LossyRun), Refusal<'static>>
    requires runnable { IsRunnable (tree split_middlebox.program.middlebox) (program_of split_middlebox.program.flat)
        split_middlebox.split split_middlebox.writeback }
    requires few_packets { length packets ≤ most_packets }
    requires fits { IsLinkSchedule events.now }
    ensures same { IfOk result (λ x. x.0 ≡ split_middlebox.program.middlebox) }
    ensures ok { IfOk result (λ x. let m = tree split_middlebox.program.middlebox in
        IsLinkReplayed m (given m split_middlebox.split split_middlebox.writeback packets false) events.now x.1
        (S.seen port.old) (S.seen port.new)) }
    ensures stays { is_some (S.seen port.new).told ≡ is_some (S.seen port.old).told }
    ensures no_fault { OnOk result ((S.seen port.new).faults ≡ (S.seen port.old).faults) }
    ensures err { IfErr result (λ refusal.
        ((refusal ≡ Refusal.NoMemory) × ((S.seen port.new).faults ≡ (S.seen port.old).faults))
        ⊎ ((refusal ≡ Refusal.SwitchFault) × Rose (S.seen port.old).faults (S.seen port.new).faults)) }
    ensures broken { IfErr result (λ refusal. refusal ≡ Refusal.SwitchFault → IsBrokenOn
        (given (tree split_middlebox.program.middlebox) split_middlebox.split split_middlebox.writeback packets false)
        (S.seen port.old) (S.seen port.new)) }
{
    // The list tells the proof that each of its packets may arrive.
    let _ = packets.as_slice();
    let SplitMiddlebox {
        program,
        split,
        writeback,
    } = split_middlebox;
    let Flattened { middlebox, flat } = program;
    let job = Job {
        flat,
        split,
        writeback,
        packets,
        fine: false,
        events: Events::new(alloc),
        drain: false,
    };
    match replay_lossy(alloc, &job, events, port) {
        Ok(run) => Ok((middlebox, run)),
        Err(ReplayError::PortFault) => Err(Refusal::SwitchFault),
        Err(ReplayError::NoMemory) => Err(Refusal::NoMemory),
    }
}

// Puts a word and a number behind a text.
fn put_count(word: &str, count: u32, text: &mut Text) -> Result<(), NoMemory>
    ensures { OnOk result (text.new ≡ text.old ++ count_text word.now count) }
{
    text.extend(word.as_bytes())?;
    text.push_number(u64::from(count))
}

// Puts the line of a link behind a text.
fn put_link(name: &str, tally: Tally4, text: &mut Text) -> Result<(), NoMemory>
    ensures { OnOk result (text.new ≡ text.old ++ link_line name.now tally) }
{
    text.extend(b"link ")?;
    text.extend(name.as_bytes())?;
    put_count(" items ", tally.items, text)?;
    put_count(" sent ", tally.sent, text)?;
    put_count(" delivered ", tally.delivered, text)?;
    put_count(" known ", tally.known, text)?;
    text.push(b'\n')
}

// Puts the lines of the four links behind a text.
fn put_links(run: &LossyRun, text: &mut Text) -> Result<(), NoMemory>
    ensures { OnOk result (text.new ≡ text.old ++ link_lines run.now) }
{
    put_link("up", run.up.tally, text)?;
    put_link("down", run.down.tally, text)?;
    put_link("ctl", run.ctl.tally, text)?;
    put_link("ack", run.ack.tally, text)
}

// The text that reports a replay over links.
fn text_of(alloc: Global, middlebox: &Middlebox, run: &LossyRun) -> Result<Text, NoMemory>
    ensures { IfOk result (λ text. text ≡ report_of (tree middlebox.now).objects run.now.run ++ link_lines run.now) }
{
    let mut text = print_run(alloc, &middlebox.objects, &run.run)?;
    put_links(run, &mut text)?;
    Ok(text)
}

// The text that reports the replay of a split middlebox over links.
fn report<S: SwitchPort>(
    alloc: Global,
    split_middlebox: SplitMiddlebox,
    packets: Packets,
    events: &LinkEvents,
    port: &mut S,
) -> Result<Text, Refusal<'static>>
    requires runnable { IsRunnable (tree split_middlebox.program.middlebox) (program_of split_middlebox.program.flat)
        split_middlebox.split split_middlebox.writeback }
    requires few_packets { length packets ≤ most_packets }
    requires fits { IsLinkSchedule events.now }
    ensures ok { IfOk result (λ text. let m = tree split_middlebox.program.middlebox in
        (run : LossyRun) × IsLinkReport text m
        (given m split_middlebox.split split_middlebox.writeback packets false) events.now run
        (S.seen port.old) (S.seen port.new)) }
    ensures stays { is_some (S.seen port.new).told ≡ is_some (S.seen port.old).told }
    ensures no_fault { OnOk result ((S.seen port.new).faults ≡ (S.seen port.old).faults) }
    ensures err { IfErr result (λ refusal.
        ((refusal ≡ Refusal.NoMemory) × ((S.seen port.new).faults ≡ (S.seen port.old).faults))
        ⊎ ((refusal ≡ Refusal.SwitchFault) × Rose (S.seen port.old).faults (S.seen port.new).faults)) }
    ensures broken { IfErr result (λ refusal. refusal ≡ Refusal.SwitchFault → IsBrokenOn
        (given (tree split_middlebox.program.middlebox) split_middlebox.split split_middlebox.writeback packets false)
        (S.seen port.old) (S.seen port.new)) }
{
    match replayed(alloc, split_middlebox, packets, events, port) {
        Ok((middlebox, run)) => match text_of(alloc, &middlebox, &run) {
            Ok(text) => Ok(text),
            Err(_) => Err(Refusal::NoMemory),
        },
        Err(refusal) => Err(refusal),
    }
}

/// Replays what three files spell over links, with the split that the limits of a fourth allow, and writes the report with
/// a line for each link behind it.
pub fn perform_lossy<'a, F: Files, S: SwitchPort, O: Sink>(
    alloc: Global,
    source: &'a str,
    trace: &'a str,
    schedule: &'a str,
    limits: &'a str,
    files: &mut F,
    port: &mut S,
    out: &mut O,
) -> Result<(), Refusal<'a>>
    ensures { HasEnded result (Some (Lossy source.now trace.now schedule.now limits.now))
        (work_of (F.seen files.old) (F.seen files.new) (S.seen port.old) (S.seen port.new)
        (O.seen out.old) (O.seen out.new)) }
{
    let middlebox = load_within(alloc, source, limits, false, files)?;
    let (packets, events) = load_link_traffic(alloc, trace, schedule, files)?;
    let text = report(alloc, middlebox, packets, &events, port)?;
    put(out, text.as_slice())
}
