//! The text of a trace.
ghost use Rattle.std.specs.Prelude.{◌≡◌, ◌≤◌, ◌⊎◌, ◌++◌, length, false, codes, decimal, IfOk, IfErr, OnOk, Ok, Err};
ghost use Rattle.gal_io.specs.Lines.{line_end};
ghost use Rattle.packet_fields.specs.Arrivals.{AreArrivals};
ghost use Rattle.packet_fields.specs.Sizes.{largest_packet};
ghost use Rattle.run_text.specs.Printed.{IsLineOf, packet_text, trace_text};
ghost use Rattle.run_model.specs.Sizes.{most_packets};
ghost use Rattle.run_text.specs.Trace.{body_of, packet_line, trace_of};

use crate::body::{put_body, read_body};
use crate::line_value::{LineValue, read_values};
use crate::refusal::{LineKind, LinesError, MAX_PACKETS};
use gal_io::{Bytes, NoMemory, Text, number_up_to, split_at_space};
use packet_fields::{Packet, Packets, is_short};
use std::alloc::Global;

// The bytes of a body, where a packet may have so many.
fn read_bytes(alloc: Global, body: &[u8]) -> Result<Result<Bytes, LineKind>, NoMemory>
    ensures { IfOk result (λ given. given ≡ body_of body.now) }
{
    match read_body(alloc, body)? {
        Some(body) if is_short(body.bytes.as_slice()) => Ok(Ok(body.bytes)),
        Some(_) => Ok(Err(LineKind::Long)),
        None => Ok(Err(LineKind::Hex)),
    }
}

impl LineValue for Packet {
    ghost line_gives = { packet_line };

    ghost line_ends = { λ _. false };

    fn from_line(alloc: Global, line: &[u8]) -> Result<Result<Packet, LineKind>, NoMemory> {
        let Some((port, body)) = split_at_space(line) else {
            return Ok(Err(LineKind::Form));
        };
        let Some(port) = number_up_to(port, 255) else {
            return Ok(Err(LineKind::Number));
        };
        match read_bytes(alloc, body)? {
            Ok(bytes) => Ok(Ok(Packet {
                port: port as u8,
                bytes,
            })),
            Err(kind) => Ok(Err(kind)),
        }
    }

    fn is_end(_line: &[u8]) -> bool {
        false
    }

    fn at_once(_text: &[u8]) -> Option<(Packet, &[u8])> {
        None
    }
}

/// The packets of a trace. Each line has a port in decimal, a space and a body; the empty body is `-`.
pub fn read_trace(alloc: Global, text: &[u8]) -> Result<Packets, LinesError>
    ensures ok { IfOk result (λ packets. trace_of text.now ≡ Ok packets) }
    ensures err { IfErr result (λ e. (e ≡ LinesError.NoMemory) ⊎ (trace_of text.now ≡ Err e)) }
    ensures bounded { IfOk result (λ packets. length packets ≤ most_packets) }
    ensures arrivals { IfOk result AreArrivals }
{
    let lines = read_values(alloc, text, 0, MAX_PACKETS)?;
    Ok(Packets::of(lines.items))
}

fn put_port(port: u8, text: &mut Text) -> Result<(), NoMemory>
    ensures text { OnOk result (text.new ≡ text.old ++ (decimal port ++ codes " ")) }
    ensures fits { port ≤ 255 }
{
    text.push_number(u64::from(port))?;
    text.push(b' ')
}

fn put_packet(alloc: Global, packet: &Packet, text: &mut Text) -> Result<(), NoMemory>
    requires { length packet.now.bytes ≤ largest_packet }
    ensures text { OnOk result (text.new ≡ text.old ++ (packet_text packet.now ++ line_end)) }
    ensures back { OnOk result (IsLineOf packet_line (packet_text packet.now) packet.now) }
{
    put_port(packet.port, text)?;
    put_body(alloc, packet.bytes.as_slice(), text)?;
    text.push(b'\n')
}

/// The text of a trace, with a line for each packet. It reads back, where there are no more packets than a trace may
/// have.
pub fn print_trace(alloc: Global, packets: &Packets) -> Result<Text, NoMemory>
    ensures text { IfOk result (λ text. text ≡ trace_text packets.now) }
    ensures back { length packets.now ≤ most_packets → IfOk result (λ text. trace_of text ≡ Ok packets.now) }
{
    let mut text = Text::new(alloc);
    for packet in packets.as_slice() {
        put_packet(alloc, packet, &mut text)?;
    }
    Ok(text)
}
