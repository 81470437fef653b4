//! What the files of a command are read as.
ghost use Rattle.std.specs.Prelude.{◌≡◌, ◌≤◌, ◌<◌, ◌^◌, IsTrue, Ok, IfOk, IfErr, length};
ghost use Rattle.packet_fields.specs.Arrivals.{AreArrivals};
ghost use Rattle.element_lang.specs.Accepted.{HasNames};
ghost use Rattle.element_lang.specs.View.{tree};
ghost use Rattle.element_lang.specs.Rules.{is_good};
ghost use Rattle.flat_ir.specs.Program.{program_of};
ghost use Rattle.flatten.specs.Flatten.{flat_of};
ghost use Rattle.resource_limits.specs.Limits.{AreInRange};
ghost use Rattle.split_model.specs.Bounds.{IsBounded};
ghost use Rattle.run_model.specs.Sizes.{most_events, most_packets};
ghost use Rattle.report_text.specs.Form.{are_declared};
ghost use Rattle.run_model.specs.LinkEvents.{IsLinkSchedule};
ghost use Rattle.run_text.specs.LinkSchedule.{link_schedule_of};
ghost use Rattle.run_text.specs.Trace.{trace_of, schedule_of};
ghost use Rattle.gallium_cli.specs.Roles.{source, program, limits, trace, schedule, link_schedule, capture, AreLimits, IsCaptured};
ghost use Rattle.gallium_cli.specs.Roles.{IsOnlySource};
ghost use Rattle.gallium_cli.specs.Loads.{refusal_of, IsUnread};

use crate::load::{Format, MAX_SOURCE, MAX_TEXT};
use crate::refusal::Refusal;
use element_lang::Middlebox;
use element_text::TextError;
use flat_ir::Flat;
use flatten::{FlatError, flatten};
use packet_fields::Packets;
use pcap_trace::{Pcap, PcapError, read_pcap};
use resource_limits::{Limits, LimitsError, read_limits};
use run_model::LinkEvents;
use run_text::{LinesError, Plan, read_link_schedule, read_schedule, read_trace};
use std::alloc::Global;

/// The source of a middlebox.
pub struct SourceFormat;

/// The source of a middlebox that is split, so that its flat program has to be short enough.
pub struct ProgramFormat;

/// The limits of a split.
pub struct LimitsFormat;

/// The packets of a trace.
pub struct TraceFormat;

/// The events of a schedule, and whether it ends with `drain`.
pub struct ScheduleFormat;

/// The events of a schedule over links.
pub struct LinkScheduleFormat;

/// The packets of a capture, with what stands beside them.
pub struct CaptureFormat;

/// A middlebox with its flat program.
#[derive(Drop)]
pub struct Flattened {
    pub middlebox: Middlebox,
    pub flat: Flat,
}

// The refusal of a source that isn't read.
fn source_refusal(fault: TextError) -> Refusal<'static>
    ensures { result ≡ refusal_of fault }
{
    match fault {
        TextError::NoMemory => Refusal::NoMemory,
        _ => Refusal::Source(fault),
    }
}

impl Format for SourceFormat {
    type Value = Middlebox;

    ghost role = { λ _. source };

    ghost spells = { λ _ text m. IsOnlySource text (tree m) };

    ghost sound = { λ _ m. IsTrue (is_good (tree m)) × (length m.objects < 2 ^ 32)
        × IsTrue (are_declared (tree m).objects) × HasNames (tree m) };

    ghost ready = { λ _. Unit {0} };

    fn size(&self) -> usize {
        MAX_SOURCE
    }

    fn read(&self, alloc: Global, text: &[u8]) -> Result<Middlebox, Refusal<'static>> {
        match element_text::read(alloc, text) {
            Ok(m) => Ok(m),
            Err(fault) => Err(source_refusal(fault)),
        }
    }
}

// The flat program of a middlebox that a text spells.
fn with_flat(
    alloc: Global,
    text: &[u8],
    middlebox: Middlebox,
) -> Result<Flattened, Refusal<'static>>
    requires spells { IsOnlySource text.now (tree middlebox) }
    ensures same { IfOk result (λ p. tree p.middlebox ≡ tree middlebox) }
    ensures program { IfOk result (λ p. program_of p.flat ≡ flat_of (tree p.middlebox)) }
    ensures bounded { IfOk result (λ p. IsBounded (flat_of (tree p.middlebox))) }
    ensures good { IfOk result (λ p. IsTrue (is_good (tree p.middlebox))) }
    ensures err { IfErr result (λ refusal. IsUnread refusal program text.now) }
{
    match flatten(alloc, &middlebox) {
        Ok(flat) => Ok(Flattened { middlebox, flat }),
        Err(FlatError::TooLarge) => Err(Refusal::LongProgram),
        Err(FlatError::NoMemory) => Err(Refusal::NoMemory),
    }
}

// The capture that the bytes are.
fn captured(alloc: Global, bytes: &[u8]) -> Result<Pcap, Refusal<'static>>
    ensures ok { IfOk result (λ p. IsCaptured bytes.now p) }
    ensures err { IfErr result (λ refusal. IsUnread refusal capture bytes.now) }
{
    match read_pcap(alloc, bytes) {
        Ok(p) => Ok(p),
        Err(PcapError::NoMemory) => Err(Refusal::NoMemory),
        Err(fault) => Err(Refusal::Pcap(fault)),
    }
}

impl Format for ProgramFormat {
    type Value = Flattened;

    ghost role = { λ _. program };

    ghost spells = { λ _ text p. IsOnlySource text (tree p.middlebox) };

    ghost sound = { λ _ p. (program_of p.flat ≡ flat_of (tree p.middlebox)) × IsBounded (flat_of (tree p.middlebox))
        × IsTrue (is_good (tree p.middlebox)) };

    ghost ready = { λ _. Unit {0} };

    fn size(&self) -> usize {
        MAX_SOURCE
    }

    fn read(&self, alloc: Global, text: &[u8]) -> Result<Flattened, Refusal<'static>> {
        match element_text::read(alloc, text) {
            Ok(m) => with_flat(alloc, text, m),
            Err(fault) => Err(source_refusal(fault)),
        }
    }
}

impl Format for LimitsFormat {
    type Value = Limits;

    ghost role = { λ _. limits };

    ghost spells = { λ _ text allowed. AreLimits text allowed };

    ghost sound = { λ _ allowed. AreInRange allowed };

    ghost ready = { λ _. Unit {0} };

    fn size(&self) -> usize {
        MAX_TEXT
    }

    fn read(&self, alloc: Global, text: &[u8]) -> Result<Limits, Refusal<'static>> {
        match read_limits(alloc, text) {
            Ok(allowed) => Ok(allowed),
            Err(LimitsError::NoMemory) => Err(Refusal::NoMemory),
            Err(fault) => Err(Refusal::Limits(fault)),
        }
    }
}

impl Format for TraceFormat {
    type Value = Packets;

    ghost role = { λ _. trace };

    ghost spells = { λ _ text packets. trace_of text ≡ Ok packets };

    ghost sound = { λ _ packets. (length packets ≤ most_packets) × AreArrivals packets };

    ghost ready = { λ _. Unit {0} };

    fn size(&self) -> usize {
        MAX_TEXT
    }

    fn read(&self, alloc: Global, text: &[u8]) -> Result<Packets, Refusal<'static>> {
        match read_trace(alloc, text) {
            Ok(packets) => Ok(packets),
            Err(LinesError::NoMemory) => Err(Refusal::NoMemory),
            Err(fault) => Err(Refusal::Trace(fault)),
        }
    }
}

impl Format for ScheduleFormat {
    type Value = Plan;

    ghost role = { λ _. schedule };

    ghost spells = { λ _ text plan. schedule_of text ≡ Ok plan };

    ghost sound = { λ _ plan. length plan.events ≤ most_events };

    ghost ready = { λ _. Unit {0} };

    fn size(&self) -> usize {
        MAX_TEXT
    }

    fn read(&self, alloc: Global, text: &[u8]) -> Result<Plan, Refusal<'static>> {
        match read_schedule(alloc, text) {
            Ok(plan) => Ok(plan),
            Err(LinesError::NoMemory) => Err(Refusal::NoMemory),
            Err(fault) => Err(Refusal::Schedule(fault)),
        }
    }
}

impl Format for LinkScheduleFormat {
    type Value = LinkEvents;

    ghost role = { λ _. link_schedule };

    ghost spells = { λ _ text events. link_schedule_of text ≡ Ok events };

    ghost sound = { λ _ events. IsLinkSchedule events };

    ghost ready = { λ _. Unit {0} };

    fn size(&self) -> usize {
        MAX_TEXT
    }

    fn read(&self, alloc: Global, text: &[u8]) -> Result<LinkEvents, Refusal<'static>> {
        match read_link_schedule(alloc, text) {
            Ok(events) => Ok(events),
            Err(LinesError::NoMemory) => Err(Refusal::NoMemory),
            Err(fault) => Err(Refusal::Schedule(fault)),
        }
    }
}

impl Format for CaptureFormat {
    type Value = Pcap;

    ghost role = { λ _. capture };

    ghost spells = { λ _ bytes p. IsCaptured bytes p };

    ghost sound = { λ _ p. Unit {0} };

    ghost ready = { λ _. Unit {0} };

    fn size(&self) -> usize {
        MAX_TEXT
    }

    fn read(&self, alloc: Global, text: &[u8]) -> Result<Pcap, Refusal<'static>> {
        captured(alloc, text)
    }
}
