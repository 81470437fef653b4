//! Replays of packets that are made from a number.
ghost use Rattle.std.specs.Prelude.{◌≡◌, ◌⊎◌, ◌≤◌, false, Some, IfOk, IfErr, IsTrue, OnOk, is_some, length};
ghost use Rattle.gal_io.specs.Count.{Rose};
ghost use Rattle.gal_io.specs.Files.{FilesState};
ghost use Rattle.element_lang.specs.View.{tree};
ghost use Rattle.element_lang.specs.Rules.{is_good};
ghost use Rattle.flat_ir.specs.Program.{program_of};
ghost use Rattle.flatten.specs.Flatten.{flat_of};
ghost use Rattle.split_model.specs.Bounds.{HasFewStages, IsBounded};
ghost use Rattle.split_model.specs.Legal.{IsLegal};
ghost use Rattle.resource_limits.specs.Limits.{AreInRange};
ghost use Rattle.resource_limits.specs.Kept.{KeepsLimits};
ghost use Rattle.partition.specs.Choice.{IsChosen};
ghost use Rattle.run_model.specs.Sizes.{most_events, most_packets};
ghost use Rattle.traffic_generator.specs.Packets.{packets_of as made_packets};
ghost use Rattle.traffic_generator.specs.Translator.{translator_text};
ghost use Rattle.gallium_cli.specs.Roles.{IsOnlySource};
ghost use Rattle.gallium_cli.specs.Answers.{IsMadeSplit, IsSummary, made_plan};
ghost use Rattle.gallium_cli.specs.Broken.{IsMadeBroken};
ghost use Rattle.gallium_cli.specs.Call.{work_of};
ghost use Rattle.gallium_cli.specs.Causes.{HasEnded};
ghost use Rattle.gallium_cli.specs.Runnable.{IsRunnable};
ghost use Rattle.gallium_cli.specs.Words.{Gen};

use crate::formats::{Flattened, ProgramFormat};
use crate::load::Format;
use crate::output::put;
use crate::refusal::Refusal;
use crate::replay::replayed;
use crate::splitting::{SplitMiddlebox, choose};
use flat_ir::Flat;
use gal_io::{NoMemory, Sink, Text};
use packet_fields::Packets;
use resource_limits::Limits;
use run_text::Plan;
use split_model::Split;
use std::alloc::Global;
use switch_ir::SwitchPort;
use traffic_generator::{
    Count, events_of, packets_of, print_summary, translator_limits, translator_source,
};

// The flat program of the middlebox that packets are made for. Its source spells one that is short enough, so nothing but
// want of memory stops this.
fn made_program(alloc: Global) -> Result<Flattened, NoMemory>
    ensures source { IfOk result (λ p. IsOnlySource translator_text (tree p.middlebox)) }
    ensures program { IfOk result (λ p. program_of p.flat ≡ flat_of (tree p.middlebox)) }
    ensures bounded { IfOk result (λ p. IsBounded (flat_of (tree p.middlebox))) }
    ensures good { IfOk result (λ p. IsTrue (is_good (tree p.middlebox))) }
{
    match ProgramFormat.read(alloc, translator_source().as_bytes()) {
        Ok(program) => Ok(program),
        Err(_) => Err(NoMemory),
    }
}

// The split of that program. The greatest one keeps the limits, so nothing but want of memory stops this.
fn made_parts(alloc: Global, f: &Flat, allowed: &Limits) -> Result<Split, NoMemory>
    requires bounded { IsBounded (program_of f.now) }
    requires in_range { AreInRange allowed.now }
    ensures chosen { IfOk result (λ split. IsChosen (program_of f.now) allowed.now false split) }
    ensures legal { IfOk result (λ split. IsLegal (program_of f.now) split) }
    ensures keeps { IfOk result (λ split. KeepsLimits (program_of f.now) split allowed.now) }
    ensures few_stages { IfOk result HasFewStages }
{
    match choose(alloc, f, allowed, false) {
        Ok(split) => Ok(split),
        Err(_) => Err(NoMemory),
    }
}

fn made_split(alloc: Global) -> Result<SplitMiddlebox, NoMemory>
    ensures ok { IfOk result (λ x. IsMadeSplit (tree x.program.middlebox) x.split x.writeback) }
    ensures runnable { IfOk result (λ x.
        IsRunnable (tree x.program.middlebox) (program_of x.program.flat) x.split x.writeback) }
{
    let allowed = translator_limits();
    let flattened = made_program(alloc)?;
    let parts = made_parts(alloc, &flattened.flat, &allowed)?;
    Ok(SplitMiddlebox {
        program: flattened,
        split: parts,
        writeback: allowed.writeback,
    })
}

// The packets and the events that are made from a seed.
fn made_traffic(alloc: Global, seed: u64, count: Count) -> Result<(Packets, Plan), NoMemory>
    ensures packets { IfOk result (λ x. x.0 ≡ made_packets seed count.packets) }
    ensures plan { IfOk result (λ x. x.1 ≡ made_plan count.packets) }
    ensures few_packets { IfOk result (λ x. length x.0 ≤ most_packets) }
    ensures few_events { IfOk result (λ x. length x.1.events ≤ most_events) }
{
    let packets = packets_of(alloc, seed, count)?;
    let events = events_of(alloc, count)?;
    Ok((
        packets,
        Plan {
            fine: false,
            events,
            drain: false,
        },
    ))
}

// The summary of a replay of made packets.
fn summary<S: SwitchPort>(
    alloc: Global,
    seed: u64,
    count: Count,
    port: &mut S,
) -> Result<Text, Refusal<'static>>
    ensures ok { IfOk result (λ text. IsSummary text seed count.packets (S.seen port.old) (S.seen port.new)) }
    ensures stays { is_some (S.seen port.new).told ≡ is_some (S.seen port.old).told }
    ensures no_fault { OnOk result ((S.seen port.new).faults ≡ (S.seen port.old).faults) }
    ensures err { IfErr result (λ refusal.
        ((refusal ≡ Refusal.NoMemory) × ((S.seen port.new).faults ≡ (S.seen port.old).faults))
        ⊎ ((refusal ≡ Refusal.SwitchFault) × Rose (S.seen port.old).faults (S.seen port.new).faults)) }
    ensures broken { IfErr result (λ refusal. refusal ≡ Refusal.SwitchFault
        → IsMadeBroken seed count.packets (S.seen port.old) (S.seen port.new)) }
{
    let middlebox = made_split(alloc)?;
    let (packets, plan) = made_traffic(alloc, seed, count)?;
    let (_, told) = replayed(alloc, middlebox, packets, plan, port)?;
    let text = print_summary(alloc, seed, count, &told.run, told.commands)?;
    Ok(text)
}

/// Replays so many packets that are made from a seed, and writes the summary. It reads no file.
pub fn perform_gen<S: SwitchPort, O: Sink>(
    alloc: Global,
    seed: u64,
    count: Count,
    port: &mut S,
    out: &mut O,
) -> Result<(), Refusal<'static>>
    ensures { (files : FilesState) → HasEnded result (Some (Gen seed count.packets))
        (work_of files files (S.seen port.old) (S.seen port.new) (O.seen out.old) (O.seen out.new)) }
{
    let text = summary(alloc, seed, count, port)?;
    put(out, text.as_slice())
}
