//! Whole replays over links.
ghost use Rattle.run_model.specs.LinkEvents.{IsLinkSchedule};
ghost use Rattle.replayer_tests.specs.Ready.{IsReady};

use crate::samples::{FORWARDS, TELLS, job, of_bytes};
use lossy_link::Delivered;
use lossy_replay::{Ends, LossyRun, Tally4, replay_lossy};
use replay_contracts::Job;
use run_model::{Fate, LinkEvents};
use run_text::{print_link_schedule, read_link_schedule};
use std::alloc::Global;
use std::test::Fail;
use switch_machine::ModelSwitch;

fn run_of(alloc: Global, job: &Job, events: &LinkEvents) -> Result<LossyRun, Fail>
    requires ready { IsReady job.now }
    requires fits { IsLinkSchedule events.now }
{
    let mut port = ModelSwitch::new(alloc);
    Ok(replay_lossy(alloc, job, events, &mut port)?)
}

fn run_by(alloc: Global, job: &Job, schedule: &[u8]) -> Result<LossyRun, Fail>
    requires { IsReady job.now }
{
    let events = read_link_schedule(alloc, schedule)?;
    run_of(alloc, job, &events)
}

// What comes of a schedule over packets of one byte each.
fn replayed(alloc: Global, source: &str, bytes: &[u8], schedule: &[u8]) -> Result<LossyRun, Fail> {
    let job = job(alloc, source, of_bytes(alloc, bytes)?)?;
    run_by(alloc, &job, schedule)
}

fn tally(items: u32, sent: u32, delivered: u32, known: u32) -> Tally4 {
    Tally4 {
        items,
        sent,
        delivered,
        known,
    }
}

// Whether the links of frames have these tallies.
fn has_frames(run: &LossyRun, up: Tally4, down: Tally4) -> bool {
    run.up.tally == up && run.down.tally == down
}

// Whether the links of commands and of their acknowledgements have these tallies.
fn has_commands(run: &LossyRun, ctl: Tally4, ack: Tally4) -> bool {
    run.ctl.tally == ctl && run.ack.tally == ack
}

// How many events there were, how many were idle, and when packets were decided and released.
fn told(run: &LossyRun) -> (u32, u32, u32, u32) {
    (
        run.run.events,
        run.run.idle,
        run.run.decided,
        run.run.released,
    )
}

// Whether a pair has this number, and the item that the sender has there.
fn is_pair(ends: &Ends, pair: &Delivered, number: u32) -> bool {
    match ends.sender.items().get(number as usize) {
        Some(item) => pair.number == number && item.as_slice() == pair.item.as_slice(),
        None => false,
    }
}

// Whether the receiver delivered these numbers, in this order, each with the item that the sender has.
fn delivered(ends: &Ends, numbers: &[u32]) -> bool {
    let pairs = ends.receiver.as_slice();
    let mut same = pairs.len() == numbers.len();
    for (pair, number) in pairs.iter().zip(numbers) {
        same = same && is_pair(ends, pair, *number);
    }
    same
}

// The frame is sent twice and comes twice; it can't be run before it came, nor a second time.
const REPEATED: &[u8] =
    b"a\nx up 0\nx up 0\nu 0\ny up 1\ny up 0\nu 0\nz up 0\nh 0\nx down 0\ny down 0\nd 0\n";

fn runs_once(run: &LossyRun) -> bool {
    told(run) == (4, 0, 1, 1)
        && has_frames(run, tally(1, 2, 1, 1), tally(1, 1, 1, 0))
        && has_commands(run, tally(0, 0, 0, 0), tally(0, 0, 0, 0))
        && delivered(&run.up, &[0])
        && delivered(&run.down, &[0])
}

fn is_repeated_frame_run_once(alloc: Global) -> Result<bool, Fail> {
    Ok(runs_once(&replayed(alloc, FORWARDS, &[7], REPEATED)?))
}

#[test]
fn a_repeated_frame_is_run_once(rt: HostRuntime) -> Result<(), Fail> {
    assert!(rt; is_repeated_frame_run_once(rt.alloc())?);
    Ok(())
}

// Whether the schedule is printed as it was read.
fn printed_again(alloc: Global, schedule: &[u8]) -> Result<bool, Fail> {
    let events = read_link_schedule(alloc, schedule)?;
    let text = print_link_schedule(alloc, &events)?;
    Ok(text.as_slice() == schedule)
}

#[test]
fn a_schedule_is_printed_back(rt: HostRuntime) -> Result<(), Fail> {
    assert!(rt; printed_again(rt.alloc(), REPEATED)?);
    Ok(())
}

// What is lost is sent again. The frame of the second packet comes first, and is run first.
const LOST: &[u8] =
    b"a\na\nx up 0\nx up 1\ny up 1\nu 1\nu 0\nx up 0\ny up 2\nu 0\nh 0\nh 0\nx down 1\ny down 0\nd 0\nd 0\n";

// When a packet was decided, of a run of packets that all go to the server.
fn decided(run: &LossyRun, number: usize) -> Option<u32> {
    match run.run.fates.as_slice().get(number)? {
        Fate::Held { decided, .. } | Fate::Slow { decided, .. } => Some(*decided),
        _ => None,
    }
}

fn runs_later(run: &LossyRun) -> bool {
    told(run) == (7, 0, 2, 1)
        && decided(run, 0) == Some(4)
        && decided(run, 1) == Some(3)
        && has_frames(run, tally(2, 3, 2, 0), tally(2, 1, 1, 0))
        && delivered(&run.up, &[1, 0])
        && delivered(&run.down, &[1])
}

fn is_lost_frame_run_later(alloc: Global) -> Result<bool, Fail> {
    Ok(runs_later(&replayed(alloc, FORWARDS, &[7, 8], LOST)?))
}

#[test]
fn a_lost_frame_comes_later(rt: HostRuntime) -> Result<(), Fail> {
    assert!(rt; is_lost_frame_run_later(rt.alloc())?);
    Ok(())
}

// A change is staged, and the bit is set by the second command, which comes before the first at first.
const EARLY: &[u8] =
    b"a\nx up 0\ny up 0\nu 0\nc\nc\nx ctl 1\nx ctl 0\ny ctl 0\nw\ny ctl 1\nw\nw\ny ctl 0\nw\nh 0\nx ack 0\nx ack 1\ny ack 1\nk\ny ack 0\nk\nk\nh 0\ny ack 0\nk\ny ack 1\nk\nh 0\nz ctl 0\nz ctl 0\n";

fn applies_in_order(run: &LossyRun) -> bool {
    told(run) == (9, 0, 1, 0)
        && run.run.visible == 1
        && has_commands(run, tally(2, 2, 2, 1), tally(2, 2, 2, 0))
        && delivered(&run.ctl, &[0, 1])
        && delivered(&run.ack, &[0, 1])
}

fn are_early_commands_applied_in_order(alloc: Global) -> Result<bool, Fail> {
    Ok(applies_in_order(&replayed(alloc, TELLS, &[7], EARLY)?))
}

#[test]
fn commands_are_applied_in_order(rt: HostRuntime) -> Result<(), Fail> {
    assert!(rt; are_early_commands_applied_in_order(rt.alloc())?);
    Ok(())
}
