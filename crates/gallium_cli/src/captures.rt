//! Packets out of a capture, and into one.
ghost use Rattle.std.specs.Prelude.{◌≡◌, ◌≤◌, Some, IfOk, length};
ghost use Rattle.pcap_trace.specs.Format.{pcap_bytes};
ghost use Rattle.pcap_trace.specs.Packets.{packets_of, pcap_of};
ghost use Rattle.pcap_trace.specs.Records.{most_records};
ghost use Rattle.run_text.specs.Printed.{trace_text};
ghost use Rattle.switch_ir.specs.Port.{PortState};
ghost use Rattle.gallium_cli.specs.Words.{PcapIn, PcapOut};
ghost use Rattle.gallium_cli.specs.Call.{work_of};
ghost use Rattle.gallium_cli.specs.Causes.{HasEnded};

use crate::formats::{CaptureFormat, TraceFormat};
use crate::load::load;
use crate::output::put;
use crate::refusal::Refusal;
use gal_io::{Bytes, Files, NoMemory, Sink, Text};
use packet_fields::Packets;
use pcap_trace::{Pcap, packets_of, pcap_of, print_pcap};
use run_text::print_trace;
use std::alloc::Global;

// The trace of the packets of a capture, each of which arrives by this port.
fn trace_of(alloc: Global, p: &Pcap, port: u8) -> Result<Text, NoMemory>
    ensures { IfOk result (λ text. text ≡ trace_text (packets_of p.now port)) }
{
    let packets = packets_of(alloc, p, port)?;
    print_trace(alloc, &packets)
}

// The bytes of a capture of the packets of a trace.
fn capture_of(alloc: Global, packets: &Packets, big: bool, nano: bool) -> Result<Bytes, NoMemory>
    requires { length packets.now ≤ most_records }
    ensures { IfOk result (λ bytes. bytes ≡ pcap_bytes (pcap_of packets.now big nano)) }
{
    let made = pcap_of(alloc, packets, big, nano)?;
    print_pcap(alloc, &made)
}

/// Writes the packets of a capture as a trace. Each arrives by this port.
pub fn perform_pcap_in<'a, F: Files, O: Sink>(
    alloc: Global,
    capture: &'a str,
    port: u8,
    files: &mut F,
    out: &mut O,
) -> Result<(), Refusal<'a>>
    ensures { (switch : PortState) → HasEnded result (Some (PcapIn capture.now port))
        (work_of (F.seen files.old) (F.seen files.new) switch switch (O.seen out.old) (O.seen out.new)) }
{
    let p = load(alloc, files, &CaptureFormat, capture)?;
    let Ok(text) = trace_of(alloc, &p, port) else {
        return Err(Refusal::NoMemory);
    };
    put(out, text.as_slice())
}

/// Writes the packets of a trace as a capture: with the highest byte of its numbers first where `big`, and with
/// nanoseconds where `nano`.
pub fn perform_pcap_out<'a, F: Files, O: Sink>(
    alloc: Global,
    trace: &'a str,
    big: bool,
    nano: bool,
    files: &mut F,
    out: &mut O,
) -> Result<(), Refusal<'a>>
    ensures { (switch : PortState) → HasEnded result (Some (PcapOut trace.now big nano))
        (work_of (F.seen files.old) (F.seen files.new) switch switch (O.seen out.old) (O.seen out.new)) }
{
    let packets = load(alloc, files, &TraceFormat, trace)?;
    let Ok(bytes) = capture_of(alloc, &packets, big, nano) else {
        return Err(Refusal::NoMemory);
    };
    put(out, bytes.as_slice())
}
