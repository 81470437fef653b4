//! What becomes of packets, by number.
ghost use Rattle.std.specs.Prelude.{◌≡◌, ◌<◌, ◌^◌, count_by, length, slice_get, slice_set, IfOk, Some};
ghost use Rattle.run_model.specs.Fate.{is_decided, is_released};
ghost use Rattle.replay_course.specs.Fates.{decided, finished, released, went_up};

use gal_io::NoMemory;
use packet_fields::Verdict;
use run_model::{Fate, Fates};
use std::alloc::Global;
use std::mem;

/// The switch finished the packet of this number at an event, over this version.
#[tactic(auto, using(std::proofs::lemmas::List::set_past))]
pub(crate) fn finish_at(
    fates: &mut Vec<Fate>,
    number: u32,
    event: u32,
    version: u32,
    verdict: Verdict,
)
    ensures { fates.new.items
        ≡ slice_set fates.old.items number (finished event version verdict (slice_get fates.old.items number)) }
{
    if (number as usize) < fates.len() {
        finish(&mut fates[number as usize], event, version, verdict);
    }
}

fn finish(fate: &mut Fate, event: u32, version: u32, verdict: Verdict)
    ensures { fate.new ≡ finished event version verdict (Some fate.old) }
{
    let before = mem::replace(fate, Fate::Up { admitted: 0 });
    *fate = match before {
        Fate::Pass { admitted } => Fate::Fast {
            admitted,
            decided: event,
            version,
            released: event,
            verdict,
        },
        other => other,
    };
}

/// The packet of this number goes up.
#[tactic(auto, using(std::proofs::lemmas::List::set_past))]
pub(crate) fn send_up_at(fates: &mut Vec<Fate>, number: u32)
    ensures { fates.new.items ≡ slice_set fates.old.items number (went_up (slice_get fates.old.items number)) }
{
    if (number as usize) < fates.len() {
        send_up(&mut fates[number as usize]);
    }
}

fn send_up(fate: &mut Fate)
    ensures { fate.new ≡ went_up (Some fate.old) }
{
    let before = mem::replace(fate, Fate::Up { admitted: 0 });
    *fate = match before {
        Fate::Pass { admitted } => Fate::Up { admitted },
        other => other,
    };
}

/// The packet of this number is decided at an event, with this version.
#[tactic(auto, using(std::proofs::lemmas::List::set_past))]
pub(crate) fn decide_at(fates: &mut Vec<Fate>, number: u32, event: u32, version: u32)
    ensures { fates.new.items
        ≡ slice_set fates.old.items number (decided event version (slice_get fates.old.items number)) }
{
    if (number as usize) < fates.len() {
        decide(&mut fates[number as usize], event, version);
    }
}

fn decide(fate: &mut Fate, event: u32, version: u32)
    ensures { fate.new ≡ decided event version (Some fate.old) }
{
    let before = mem::replace(fate, Fate::Up { admitted: 0 });
    *fate = match before {
        Fate::Up { admitted } => Fate::Held {
            admitted,
            decided: event,
            version,
        },
        other => other,
    };
}

/// The packet of this number is released at an event.
#[tactic(auto, using(std::proofs::lemmas::List::set_past))]
pub(crate) fn release_at(fates: &mut Vec<Fate>, number: u32, event: u32, verdict: Verdict)
    ensures { fates.new.items
        ≡ slice_set fates.old.items number (released event verdict (slice_get fates.old.items number)) }
{
    if (number as usize) < fates.len() {
        release(&mut fates[number as usize], event, verdict);
    }
}

fn release(fate: &mut Fate, event: u32, verdict: Verdict)
    ensures { fate.new ≡ released event verdict (Some fate.old) }
{
    let before = mem::replace(fate, Fate::Up { admitted: 0 });
    *fate = match before {
        Fate::Held {
            admitted,
            decided,
            version,
        } => Fate::Slow {
            admitted,
            decided,
            version,
            released: event,
            verdict,
        },
        other => other,
    };
}

pub(crate) fn count_decided(fates: &[Fate]) -> u32
    requires { length fates.now < 2 ^ 32 }
    ensures { result ≡ count_by is_decided fates.now }
{
    fates.iter().filter(|fate| fate.is_decided()).count() as u32
}

pub(crate) fn count_released(fates: &[Fate]) -> u32
    requires { length fates.now < 2 ^ 32 }
    ensures { result ≡ count_by is_released fates.now }
{
    fates.iter().filter(|fate| fate.is_released()).count() as u32
}

/// The same fates again, in memory of their own.
pub(crate) fn copy_fates(alloc: Global, fates: &[Fate]) -> Result<Fates, NoMemory>
    ensures { IfOk result (λ made. made ≡ fates.now) }
{
    let mut copies = Vec::new(alloc);
    for fate in fates {
        copies.push(copy_fate(alloc, fate)?)?;
    }
    Ok(Fates::from(copies))
}

fn copy_fate(alloc: Global, fate: &Fate) -> Result<Fate, NoMemory>
    ensures { IfOk result (λ made. made ≡ fate.now) }
{
    Ok(match fate {
        Fate::Pass { admitted } => Fate::Pass {
            admitted: *admitted,
        },
        Fate::Up { admitted } => Fate::Up {
            admitted: *admitted,
        },
        Fate::Held {
            admitted,
            decided,
            version,
        } => Fate::Held {
            admitted: *admitted,
            decided: *decided,
            version: *version,
        },
        Fate::Slow {
            admitted,
            decided,
            version,
            released,
            verdict,
        } => Fate::Slow {
            admitted: *admitted,
            decided: *decided,
            version: *version,
            released: *released,
            verdict: copy_verdict(alloc, verdict)?,
        },
        Fate::Fast {
            admitted,
            decided,
            version,
            released,
            verdict,
        } => Fate::Fast {
            admitted: *admitted,
            decided: *decided,
            version: *version,
            released: *released,
            verdict: copy_verdict(alloc, verdict)?,
        },
    })
}

fn copy_verdict(alloc: Global, verdict: &Verdict) -> Result<Verdict, NoMemory>
    ensures { IfOk result (λ made. made ≡ verdict.now) }
{
    Ok(match verdict {
        Verdict::Drop => Verdict::Drop,
        Verdict::Send(port, bytes) => Verdict::Send(*port, bytes.copy(alloc)?),
    })
}
