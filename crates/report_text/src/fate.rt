//! The line of a packet.
ghost use Rattle.std.specs.Prelude.{◌≡◌, IfOk, MatchOption, None, Some};
ghost use Rattle.report_text.specs.Parse.{admitted_at, body_at, fast_at, fate_of, pass_at, path_at, released_at};
ghost use Rattle.report_text.specs.Parse.{slow_at, stamps_at, up_at, verdict_at};

use crate::piece::{after, labelled, labelled_up_to, whole};
use gal_io::{Bytes, NoMemory};
use packet_fields::Verdict;
use run_model::Fate;
use run_text::read_body;
use std::alloc::Global;

/// The events that admitted and decided a packet, and the version that it was decided at.
#[derive(Clone, Copy)]
pub(crate) struct Stamps {
    pub(crate) admitted: u32,
    pub(crate) decided: u32,
    pub(crate) version: u32,
}

// The bytes of a packet: lower-case hexadecimal digits, or `-` for none.
fn read_bytes(alloc: Global, body: &[u8]) -> Result<Option<Bytes>, NoMemory>
    ensures { IfOk result (λ bytes. bytes ≡ body_at body.now) }
{
    match read_body(alloc, body)? {
        Some(body) if body.printed => Ok(Some(body.bytes)),
        _ => Ok(None),
    }
}

#[tactic(auto, unfolding(crate::specs::Parse::verdict_at))]
fn read_verdict(alloc: Global, line: &[u8]) -> Result<Option<Verdict>, NoMemory>
    ensures { IfOk result (λ verdict. verdict ≡ verdict_at line.now) }
{
    if line == b" drop".as_slice() {
        return Ok(Some(Verdict::Drop));
    }
    let Some((port, rest)) = labelled_up_to(255, b" send ", line) else {
        return Ok(None);
    };
    let Some(body) = after(b" ", rest) else {
        return Ok(None);
    };
    match read_bytes(alloc, body)? {
        None => Ok(None),
        Some(bytes) => Ok(Some(Verdict::Send(port as u8, bytes))),
    }
}

/// When a packet was released, and what became of it.
#[tactic(auto, unfolding(crate::specs::Parse::released_at))]
fn read_released(alloc: Global, line: &[u8]) -> Result<Option<(u32, Verdict)>, NoMemory>
    ensures { IfOk result (λ released. released ≡ released_at line.now) }
{
    let Some((released, rest)) = labelled(b" released ", line) else {
        return Ok(None);
    };
    match read_verdict(alloc, rest)? {
        None => Ok(None),
        Some(verdict) => Ok(Some((released, verdict))),
    }
}

#[tactic(auto, unfolding(crate::specs::Parse::stamps_at))]
fn read_stamps(line: &[u8]) -> Option<(Stamps, &[u8])>
    ensures { MatchOption result (stamps_at line.now ≡ None)
        (λ found. stamps_at line.now ≡ Some (found.0, found.1.now)) }
{
    let (admitted, rest) = labelled(b" admitted ", line)?;
    let (decided, rest) = labelled(b" decided ", rest)?;
    let (version, rest) = labelled(b" version ", rest)?;
    Some((
        Stamps {
            admitted,
            decided,
            version,
        },
        rest,
    ))
}

// The event that admitted a packet, of which nothing else is told.
#[tactic(auto, unfolding(crate::specs::Parse::admitted_at))]
fn read_admitted(line: &[u8]) -> Option<u32>
    ensures { result ≡ admitted_at line.now }
{
    let (admitted, rest) = labelled(b" admitted ", line)?;
    whole(admitted, rest)
}

fn read_pass(line: &[u8]) -> Option<Fate>
    ensures { result ≡ pass_at line.now }
{
    let admitted = read_admitted(line)?;
    Some(Fate::Pass { admitted })
}

fn read_up(line: &[u8]) -> Option<Fate>
    ensures { result ≡ up_at line.now }
{
    let admitted = read_admitted(line)?;
    Some(Fate::Up { admitted })
}

#[tactic(auto, unfolding(crate::specs::Parse::slow_at))]
fn read_slow(alloc: Global, line: &[u8]) -> Result<Option<Fate>, NoMemory>
    ensures { IfOk result (λ fate. fate ≡ slow_at line.now) }
{
    let Some((stamps, rest)) = read_stamps(line) else {
        return Ok(None);
    };
    let (admitted, decided, version) = (stamps.admitted, stamps.decided, stamps.version);
    if rest == b" held".as_slice() {
        return Ok(Some(Fate::Held {
            admitted,
            decided,
            version,
        }));
    }
    match read_released(alloc, rest)? {
        None => Ok(None),
        Some((released, verdict)) => Ok(Some(Fate::Slow {
            admitted,
            decided,
            version,
            released,
            verdict,
        })),
    }
}

#[tactic(auto, unfolding(crate::specs::Parse::fast_at))]
fn read_fast(alloc: Global, line: &[u8]) -> Result<Option<Fate>, NoMemory>
    ensures { IfOk result (λ fate. fate ≡ fast_at line.now) }
{
    let Some((stamps, rest)) = read_stamps(line) else {
        return Ok(None);
    };
    let (admitted, decided, version) = (stamps.admitted, stamps.decided, stamps.version);
    match read_released(alloc, rest)? {
        None => Ok(None),
        Some((released, verdict)) => Ok(Some(Fate::Fast {
            admitted,
            decided,
            version,
            released,
            verdict,
        })),
    }
}

fn read_path(alloc: Global, line: &[u8]) -> Result<Option<Fate>, NoMemory>
    ensures { IfOk result (λ fate. fate ≡ path_at line.now) }
{
    if let Some(rest) = after(b" pass", line) {
        return Ok(read_pass(rest));
    }
    if let Some(rest) = after(b" up", line) {
        return Ok(read_up(rest));
    }
    if let Some(rest) = after(b" slow", line) {
        return read_slow(alloc, rest);
    }
    match after(b" fast", line) {
        Some(rest) => read_fast(alloc, rest),
        None => Ok(None),
    }
}

/// The fate of the packet of this number.
#[tactic(auto, unfolding(crate::specs::Parse::fate_of))]
pub(crate) fn read_fate(alloc: Global, number: usize, line: &[u8]) -> Result<Option<Fate>, NoMemory>
    ensures { IfOk result (λ fate. fate ≡ fate_of number line.now) }
{
    match labelled(b"packet ", line) {
        Some((packet, rest)) if packet as usize == number => read_path(alloc, rest),
        _ => Ok(None),
    }
}
