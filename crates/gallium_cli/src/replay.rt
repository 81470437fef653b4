//! Replays of a middlebox over a switch.
ghost use Rattle.std.specs.Prelude.{◌≡◌, ◌⊎◌, ◌≤◌, Some, IfOk, IfErr, OnOk, is_some, length};
ghost use Rattle.gal_io.specs.Count.{Rose};
ghost use Rattle.element_lang.specs.View.{tree};
ghost use Rattle.flat_ir.specs.Program.{program_of};
ghost use Rattle.run_model.specs.Sizes.{most_events, most_packets};
ghost use Rattle.replay_contracts.specs.declared.job.Replayed.{Replayed};
ghost use Rattle.gallium_cli.specs.Answers.{IsReplayed, IsReport, IsTraffic, given};
ghost use Rattle.gallium_cli.specs.Broken.{IsBrokenOn};
ghost use Rattle.gallium_cli.specs.Call.{work_of};
ghost use Rattle.gallium_cli.specs.Causes.{HasEnded, HasRead};
ghost use Rattle.gallium_cli.specs.Roles.{event_gates};
ghost use Rattle.gallium_cli.specs.Runnable.{IsRunnable};
ghost use Rattle.gallium_cli.specs.Words.{Replay, split_asked};

use crate::formats::{Flattened, ScheduleFormat, TraceFormat};
use crate::load::load;
use crate::output::put;
use crate::refusal::Refusal;
use crate::splitting::{SplitMiddlebox, load_split};
use crate::words::SplitForm;
use element_lang::Middlebox;
use gal_io::{Files, Sink, Text};
use packet_fields::Packets;
use run_text::{Plan, print_run};
use schedule_replay::{Job, ReplayError, Replayed, replay};
use std::alloc::Global;
use switch_ir::SwitchPort;

// The packets and the events that two files spell.
fn load_traffic<'a, F: Files>(
    alloc: Global,
    trace: &'a str,
    schedule: &'a str,
    files: &mut F,
) -> Result<(Packets, Plan), Refusal<'a>>
    ensures ok { IfOk result (λ x. IsTraffic (F.seen files.old).told trace.now schedule.now x.0 x.1) }
    ensures few_packets { IfOk result (λ x. length x.0 ≤ most_packets) }
    ensures few_events { IfOk result (λ x. length x.1.events ≤ most_events) }
    ensures reads { HasRead result (event_gates trace.now schedule.now) 2
        (F.seen files.old) (F.seen files.new) }
{
    let packets = load(alloc, files, &TraceFormat, trace)?;
    match load(alloc, files, &ScheduleFormat, schedule) {
        Ok(plan) => Ok((packets, plan)),
        Err(refusal) => Err(refusal),
    }
}

/// Replays packets by a plan with a split middlebox, and gives the middlebox back with what came of it.
pub fn replayed<S: SwitchPort>(
    alloc: Global,
    split_middlebox: SplitMiddlebox,
    packets: Packets,
    plan: Plan,
    port: &mut S,
) -> Result<(Middlebox, Replayed), Refusal<'static>>
    requires runnable { IsRunnable (tree split_middlebox.program.middlebox) (program_of split_middlebox.program.flat)
        split_middlebox.split split_middlebox.writeback }
    requires few_packets { length packets ≤ most_packets }
    requires few_events { length plan.events ≤ most_events }
    ensures same { IfOk result (λ x. x.0 ≡ split_middlebox.program.middlebox) }
    ensures ok { IfOk result (λ x. let m = tree split_middlebox.program.middlebox in
        IsReplayed m (given m split_middlebox.split split_middlebox.writeback packets plan.fine) plan x.1
        (S.seen port.old) (S.seen port.new)) }
    ensures stays { is_some (S.seen port.new).told ≡ is_some (S.seen port.old).told }
    ensures no_fault { OnOk result ((S.seen port.new).faults ≡ (S.seen port.old).faults) }
    ensures err { IfErr result (λ refusal.
        ((refusal ≡ Refusal.NoMemory) × ((S.seen port.new).faults ≡ (S.seen port.old).faults))
        ⊎ ((refusal ≡ Refusal.SwitchFault) × Rose (S.seen port.old).faults (S.seen port.new).faults)) }
    ensures broken { IfErr result (λ refusal. refusal ≡ Refusal.SwitchFault → IsBrokenOn
        (given (tree split_middlebox.program.middlebox) split_middlebox.split split_middlebox.writeback packets plan.fine)
        (S.seen port.old) (S.seen port.new)) }
{
    // The list tells the proof that each of its packets may arrive.
    let _ = packets.as_slice();
    let SplitMiddlebox {
        program,
        split,
        writeback,
    } = split_middlebox;
    let Flattened { middlebox, flat } = program;
    let Plan {
        fine,
        events,
        drain,
    } = plan;
    let job = Job {
        flat,
        split,
        writeback,
        packets,
        fine,
        events,
        drain,
    };
    match replay(alloc, &job, port) {
        Ok(replayed) => Ok((middlebox, replayed)),
        Err(ReplayError::PortFault) => Err(Refusal::SwitchFault),
        Err(ReplayError::NoMemory) => Err(Refusal::NoMemory),
    }
}

// The text that reports the replay of a split middlebox.
fn report<S: SwitchPort>(
    alloc: Global,
    split_middlebox: SplitMiddlebox,
    packets: Packets,
    plan: Plan,
    port: &mut S,
) -> Result<Text, Refusal<'static>>
    requires runnable { IsRunnable (tree split_middlebox.program.middlebox) (program_of split_middlebox.program.flat)
        split_middlebox.split split_middlebox.writeback }
    requires few_packets { length packets ≤ most_packets }
    requires few_events { length plan.events ≤ most_events }
    ensures ok { IfOk result (λ text. let m = tree split_middlebox.program.middlebox in
        (replayed : Replayed) × IsReport text m
        (given m split_middlebox.split split_middlebox.writeback packets plan.fine) plan replayed (S.seen port.old) (S.seen port.new)) }
    ensures stays { is_some (S.seen port.new).told ≡ is_some (S.seen port.old).told }
    ensures no_fault { OnOk result ((S.seen port.new).faults ≡ (S.seen port.old).faults) }
    ensures err { IfErr result (λ refusal.
        ((refusal ≡ Refusal.NoMemory) × ((S.seen port.new).faults ≡ (S.seen port.old).faults))
        ⊎ ((refusal ≡ Refusal.SwitchFault) × Rose (S.seen port.old).faults (S.seen port.new).faults)) }
    ensures broken { IfErr result (λ refusal. refusal ≡ Refusal.SwitchFault → IsBrokenOn
        (given (tree split_middlebox.program.middlebox) split_middlebox.split split_middlebox.writeback packets plan.fine)
        (S.seen port.old) (S.seen port.new)) }
{
    match replayed(alloc, split_middlebox, packets, plan, port) {
        Ok((middlebox, told)) => match print_run(alloc, &middlebox.objects, &told.run) {
            Ok(text) => Ok(text),
            Err(_) => Err(Refusal::NoMemory),
        },
        Err(refusal) => Err(refusal),
    }
}

/// Replays what three files spell with the split that is asked for, and writes the report.
pub fn perform_replay<'a, F: Files, S: SwitchPort, O: Sink>(
    alloc: Global,
    source: &'a str,
    trace: &'a str,
    schedule: &'a str,
    split: SplitForm<'a>,
    files: &mut F,
    port: &mut S,
    out: &mut O,
) -> Result<(), Refusal<'a>>
    ensures { HasEnded result (Some (Replay source.now trace.now schedule.now (split_asked split.entry)))
        (work_of (F.seen files.old) (F.seen files.new) (S.seen port.old) (S.seen port.new)
        (O.seen out.old) (O.seen out.new)) }
{
    let middlebox = load_split(alloc, source, split, files)?;
    let (packets, plan) = load_traffic(alloc, trace, schedule, files)?;
    let text = report(alloc, middlebox, packets, plan, port)?;
    put(out, text.as_slice())
}
