//! The events that are made.
ghost use Rattle.std.specs.Prelude.{◌≡◌, ◌≤◌, ◌++◌, length, IfOk, OnOk};
ghost use Rattle.run_model.specs.Sizes.{most_events};
ghost use Rattle.traffic_generator.specs.Schedule.{copies, events_of, round_events};

use crate::count::Count;
use gal_io::NoMemory;
use run_model::{Event, Events};
use std::alloc::Global;

// Puts all of these last.
fn put_all(events: &mut Events, group: &[Event]) -> Result<(), NoMemory>
    ensures { OnOk result (events.new ≡ events.old ++ group.now) }
{
    for event in group {
        events.push(*event)?;
    }
    Ok(())
}

// Puts so many copies of these last.
#[tactic(auto, using(crate::proofs::Copies::copies_more, std::proofs::lemmas::List::append_assoc))]
fn put_copies(events: &mut Events, number: u32, group: &[Event]) -> Result<(), NoMemory>
    ensures { OnOk result (events.new ≡ events.old ++ copies number group.now) }
{
    for turn in 0..number {
        put_all(events, group)?;
    }
    Ok(())
}

fn put_round(events: &mut Events) -> Result<(), NoMemory>
    ensures { OnOk result (events.new ≡ events.old ++ round_events) }
{
    put_copies(events, 16, &[Event::Admit])?;
    put_copies(events, 16, &[Event::Serve(0)])?;
    put_copies(events, 64, &[Event::Send, Event::Apply, Event::Ack])?;
    put_copies(events, 16, &[Event::Hold(0)])?;
    put_copies(events, 16, &[Event::Down(0)])
}

/// The events for so many packets: 256 for each round of 16, also for a last one that has fewer. They are enough for a
/// round in which each of 8 new flows writes two rows.
#[tactic(auto, using(crate::proofs::Copies::copies_more))]
pub fn events_of(alloc: Global, count: Count) -> Result<Events, NoMemory>
    ensures events { IfOk result (λ events. events ≡ events_of count.packets) }
    ensures bounded { IfOk result (λ events. length events ≤ most_events) }
{
    let mut events = Events::new(alloc);
    for round in 0..(count.packets + 15) / 16 {
        put_round(&mut events)?;
    }
    Ok(events)
}
