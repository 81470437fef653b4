//! Packets, events and summaries that are worked out by hand.

use gal_io::{Bytes, NoMemory};
use packet_fields::Verdict;
use run_model::{Event, Fate, Fates, Order, Run, StoreRows};
use std::alloc::Global;
use traffic_generator::{Count, events_of, packets_of, print_summary};

// Whether the last of so many packets of seed 7 comes in by port 0 with these bytes.
fn ends_with(alloc: Global, number: u64, want: &[u8]) -> Result<bool, NoMemory> {
    let Some(count) = Count::of(number) else {
        return Ok(false);
    };
    let packets = packets_of(alloc, 7, count)?;
    match packets.as_slice().last() {
        Some(packet) => Ok(packet.port == 0 && packet.bytes.as_slice() == want),
        None => Ok(false),
    }
}

// Flow 56.
const FIRST: &[u8] = b"\x02\0\0\0\0\x01\x02\0\0\0\0\x02\x08\0\
\x45\0\0\x28\0\x01\x40\0\x40\x06\x06\x94\x0a\0\0\x01\xc6\x33\x64\x07\
\x13\xc0\0\x50\0\0\0\0\0\0\0\0\x50\x02\x20\0\x47\x97\0\0";

// Flow 55: round 255 with seed 7 is round 6 of those that come again.
const LAST: &[u8] = b"\x02\0\0\0\0\x01\x02\0\0\0\0\x02\x08\0\
\x45\0\0\x28\0\x01\x40\0\x40\x06\x06\x94\x0a\0\0\x01\xc6\x33\x64\x07\
\x13\xbf\0\x50\0\0\0\0\0\0\0\0\x50\x02\x20\0\x47\x98\0\0";

#[test]
fn the_first_packet(rt: HostRuntime) {
    assert_eq!(rt; ends_with(rt.alloc(), 1, FIRST), Ok(true));
}

#[test]
fn the_last_of_4096_packets(rt: HostRuntime) {
    assert_eq!(rt; ends_with(rt.alloc(), 4096, LAST), Ok(true));
}

// The event of this place in a round.
fn round_event(place: usize) -> Event {
    if place < 16 {
        return Event::Admit;
    }
    if place < 32 {
        return Event::Serve(0);
    }
    if place >= 240 {
        return Event::Down(0);
    }
    if place >= 224 {
        return Event::Hold(0);
    }
    match place % 3 {
        2 => Event::Send,
        0 => Event::Apply,
        _ => Event::Ack,
    }
}

// Whether so many packets have this number of events, each as in its place of a round.
fn has_rounds(alloc: Global, packets: u64, events: usize) -> Result<bool, NoMemory> {
    let Some(count) = Count::of(packets) else {
        return Ok(false);
    };
    let made = events_of(alloc, count)?;
    let mut places = made.as_slice().iter().enumerate();
    Ok(made.len() == events && places.all(|(place, event)| *event == round_event(place % 256)))
}

#[test]
fn a_round_of_16_packets(rt: HostRuntime) {
    assert_eq!(rt; has_rounds(rt.alloc(), 16, 256), Ok(true));
}

#[test]
fn a_last_round_of_one_packet(rt: HostRuntime) {
    assert_eq!(rt; has_rounds(rt.alloc(), 4097, 257 * 256), Ok(true));
}

#[test]
fn counts_of_packets(rt: HostRuntime) {
    assert!(rt;
        Count::of(0).is_none() && Count::of(16_385).is_none() && Count::of(16_384).is_some()
    );
}

fn slow(verdict: Verdict) -> Fate {
    Fate::Slow {
        admitted: 1,
        decided: 2,
        version: 1,
        released: 3,
        verdict,
    }
}

fn fast(verdict: Verdict) -> Fate {
    Fate::Fast {
        admitted: 1,
        decided: 1,
        version: 0,
        released: 1,
        verdict,
    }
}

fn sent(alloc: Global) -> Verdict {
    Verdict::Send(1, Bytes::new(alloc))
}

// A run of these packets with round numbers.
fn run_of(alloc: Global, total: u32, drained: bool, fates: Vec<Fate>) -> Run {
    Run {
        total,
        decided: total,
        released: total,
        events: 65_536,
        idle: 30_720,
        version: 1024,
        visible: 1024,
        drained,
        fates: Fates::from(fates),
        order: Order::from(Vec::new(alloc)),
        objects: StoreRows::from(Vec::new(alloc)),
        switch: StoreRows::from(Vec::new(alloc)),
    }
}

// Whether the summary of so many commands for a run of so many packets of seed 7 is this text.
fn is_told(
    alloc: Global,
    number: u64,
    run: &Run,
    commands: u32,
    want: &[u8],
) -> Result<bool, NoMemory> {
    let Some(count) = Count::of(number) else {
        return Ok(false);
    };
    let text = print_summary(alloc, 7, count, run, commands)?;
    Ok(text.as_slice() == want)
}

// A run in which 2,048 packets went each way.
fn both_ways(alloc: Global) -> Result<Run, NoMemory> {
    let mut fates = Vec::new(alloc);
    for _ in 0..2048u32 {
        fates.push(slow(sent(alloc)))?;
        fates.push(fast(sent(alloc)))?;
    }
    Ok(run_of(alloc, 4096, true, fates))
}

fn tells_both_ways(alloc: Global, want: &[u8]) -> Result<bool, NoMemory> {
    let run = both_ways(alloc)?;
    is_told(alloc, 4096, &run, 8192, want)
}

const BOTH_WAYS: &[u8] = b"gen 7 4096\npackets 4096\nfast 2048\nslow 2048\ndropped 0\n\
version 1024\ncommands 8192\nevents 65536\nidle 30720\ndrained yes\nend\n";

#[test]
fn a_summary_of_packets_that_went_both_ways(rt: HostRuntime) {
    assert_eq!(rt; tells_both_ways(rt.alloc(), BOTH_WAYS), Ok(true));
}

// A run in which one packet is passing, one on its way up, one held, and two of each way released, of which one each was
// dropped.
fn all_kinds(alloc: Global) -> Result<Run, NoMemory> {
    let mut fates = Vec::new(alloc);
    push_unreleased(&mut fates)?;
    push_released(alloc, &mut fates)?;
    Ok(run_of(alloc, 8, false, fates))
}

fn push_unreleased(fates: &mut Vec<Fate>) -> Result<(), NoMemory> {
    fates.push(Fate::Pass { admitted: 9 })?;
    fates.push(Fate::Up { admitted: 9 })?;
    fates.push(Fate::Held {
        admitted: 1,
        decided: 2,
        version: 1,
    })?;
    Ok(())
}

fn push_released(alloc: Global, fates: &mut Vec<Fate>) -> Result<(), NoMemory> {
    fates.push(slow(Verdict::Drop))?;
    fates.push(slow(sent(alloc)))?;
    fates.push(fast(Verdict::Drop))?;
    fates.push(fast(sent(alloc)))?;
    Ok(())
}

fn tells_all_kinds(alloc: Global, want: &[u8]) -> Result<bool, NoMemory> {
    let run = all_kinds(alloc)?;
    is_told(alloc, 8, &run, 24, want)
}

const ALL_KINDS: &[u8] = b"gen 7 8\npackets 8\nfast 2\nslow 3\ndropped 2\n\
version 1024\ncommands 24\nevents 65536\nidle 30720\ndrained no\nend\n";

#[test]
fn a_summary_of_packets_of_all_kinds(rt: HostRuntime) {
    assert_eq!(rt; tells_all_kinds(rt.alloc(), ALL_KINDS), Ok(true));
}
