//! What no clause can say: that calls succeed with ample memory.
use gal_bits::Values;
use gal_io::{Bytes, NoMemory};
use output_commit::{Commit, Release};
use std::alloc::Global;
use std::process::Abort;
use std::test::Fail;
use writeback_table::{Command, To, Update, Updates};

// A change of each of these objects, which removes the empty key.
fn changes(alloc: Global, objects: &[u32]) -> Result<Updates, NoMemory> {
    let mut updates = Updates::new(alloc);
    for object in objects {
        updates.push(Update {
            object: *object,
            key: Values::new(),
            to: To::Gone,
        })?;
    }
    Ok(updates)
}

fn hold(
    alloc: Global,
    commit: &mut Commit,
    number: u32,
    need: u32,
    objects: &[u32],
) -> Result<(), NoMemory> {
    let updates = changes(alloc, objects)?;
    if !commit.has_room_for(&updates) {
        return Err(NoMemory);
    }
    let frame = Bytes::from_slice(alloc, b"frame")?;
    commit.hold(number, need, frame, &updates)
}

// A call and its answer, or what is read of a commit and is to be found there.
#[derive(Clone, Copy)]
enum Step {
    // An output of the packet of this number waits, which needs this version and has changed these objects.
    Holds(u32, u32, &'static [u32]),
    Sends(bool),
    // What kind of command is next, and of which object, while it stays there.
    Peeks(char, u32),
    // The same where the command is taken.
    Comes(char, u32),
    Acks(bool),
    // So many commands are sent, applied and acknowledged.
    Passes(u32),
    // An output at this place goes, which has this number.
    Goes(usize, u32),
    // An output at this place needs a version, and this one is acknowledged.
    Waits(usize, u32, u32),
    // There is no output at this place, and so many are there.
    Lacks(usize, usize),
    Bit(bool),
    Commands(u32),
    Unapplied(u32),
    Visible(u32),
    Acknowledged(u32),
    Quiet(bool),
}

use Step::{
    Acknowledged, Acks, Bit, Comes, Commands, Goes, Holds, Lacks, Passes, Peeks, Quiet, Sends,
    Unapplied, Visible, Waits,
};

// What kind of command this is: its first letter, and the object that it names.
fn is_kind(command: Option<Command>, kind: char, object: u32) -> bool {
    let found = match command {
        Some(Command::Stage(update)) => ('S', update.object),
        Some(Command::On) => ('O', 0),
        Some(Command::Main(update)) => ('M', update.object),
        Some(Command::Off) => ('F', 0),
        Some(Command::Clear(object, _)) => ('C', object),
        None => ('-', 0),
    };
    found == (kind, object)
}

fn goes(answer: &Release, wanted: u32) -> bool {
    match answer {
        Release::Frame { number, frame } => {
            *number == wanted && frame.as_slice() == b"frame".as_slice()
        }
        Release::NotYet { .. } | Release::NoSuch(_) => false,
    }
}

fn waits(answer: &Release, needed: u32, seen: u32) -> bool {
    match answer {
        Release::NotYet { need, acknowledged } => *need == needed && *acknowledged == seen,
        Release::Frame { .. } | Release::NoSuch(_) => false,
    }
}

fn lacks(answer: &Release, wanted: usize) -> bool {
    match answer {
        Release::NoSuch(len) => *len == wanted,
        Release::Frame { .. } | Release::NotYet { .. } => false,
    }
}

// Sends, applies and acknowledges so many commands.
fn pass(commit: &mut Commit, count: u32) {
    for _ in 0..count {
        let _ = commit.send_command();
        let _ = commit.next_command();
        let _ = commit.acknowledge();
    }
}

// Whether what is read is what is wanted.
fn shows(commit: &Commit, step: Step) -> bool {
    match step {
        Peeks(kind, object) => is_kind(commit.peek(), kind, object),
        Bit(set) => commit.bit() == set,
        Commands(count) => commit.commands() == count,
        Unapplied(count) => commit.unapplied() == count,
        Visible(version) => commit.visible() == version,
        Acknowledged(version) => commit.acknowledged() == version,
        Quiet(quiet) => commit.is_quiet() == quiet,
        _ => false,
    }
}

// Whether a call answers as is wanted, or else what is read is that.
fn does(commit: &mut Commit, step: Step) -> bool {
    match step {
        Sends(sent) => commit.send_command() == sent,
        Comes(kind, object) => is_kind(commit.next_command(), kind, object),
        Acks(acknowledged) => commit.acknowledge() == acknowledged,
        Goes(place, number) => goes(&commit.release(place), number),
        Waits(place, need, seen) => waits(&commit.release(place), need, seen),
        Lacks(place, len) => lacks(&commit.release(place), len),
        Passes(count) => {
            pass(commit, count);
            true
        }
        _ => shows(commit, step),
    }
}

fn is_done(alloc: Global, commit: &mut Commit, step: Step) -> Result<bool, NoMemory> {
    match step {
        Holds(number, need, objects) => {
            hold(alloc, commit, number, need, objects)?;
            Ok(true)
        }
        _ => Ok(does(commit, step)),
    }
}

// The place of the first step that a new commit, with write-back tables of so many rows, doesn't do as is wanted; or
// how many steps there are.
fn first_missed(alloc: Global, writeback: u32, steps: &[Step]) -> Result<usize, NoMemory> {
    let mut commit = Commit::new(alloc, writeback);
    for (place, step) in steps.iter().enumerate() {
        if !is_done(alloc, &mut commit, *step)? {
            return Ok(place);
        }
    }
    Ok(steps.len())
}

fn all_are_done(
    rt: &impl Abort,
    alloc: Global,
    writeback: u32,
    steps: &[Step],
) -> Result<(), NoMemory> {
    assert_eq!(rt; first_missed(alloc, writeback, steps)?, steps.len());
    Ok(())
}

// One output, which has changed object 3 and needs the version that this makes.
const ONE: [Step; 40] = [
    Holds(5, 1, &[3]),
    Waits(0, 1, 0),
    Commands(5),
    Unapplied(5),
    Sends(true),
    Sends(true),
    Sends(true),
    Sends(true),
    Sends(true),
    Sends(false),
    Acks(false),
    Peeks('S', 3),
    Comes('S', 3),
    Peeks('O', 0),
    Bit(false),
    Comes('O', 0),
    Bit(true),
    Visible(1),
    Acknowledged(0),
    Waits(0, 1, 0),
    Acks(true),
    Waits(0, 1, 0),
    Acks(true),
    Acks(false),
    Acknowledged(1),
    Unapplied(3),
    Goes(0, 5),
    Lacks(0, 0),
    Quiet(false),
    Comes('M', 3),
    Bit(true),
    Acks(true),
    Comes('F', 0),
    Bit(false),
    Acks(true),
    Comes('C', 3),
    Bit(false),
    Acks(true),
    Peeks('-', 0),
    Quiet(true),
];

#[test]
fn an_output_waits_for_its_batch(rt: HostRuntime) -> Result<(), Fail> {
    Ok(all_are_done(&rt, rt.alloc(), 16, &ONE)?)
}

// What changes nothing makes no command, and waits in its turn. The commands come in order.
const THREE: [Step; 26] = [
    Holds(7, 0, &[]),
    Holds(8, 1, &[3, 3]),
    Holds(9, 0, &[]),
    Commands(8),
    Waits(1, 1, 0),
    Goes(2, 9),
    Goes(0, 7),
    Lacks(1, 1),
    Waits(0, 1, 0),
    Sends(true),
    Sends(true),
    Sends(true),
    Sends(true),
    Sends(true),
    Sends(true),
    Sends(true),
    Sends(true),
    Comes('S', 3),
    Comes('S', 3),
    Comes('O', 0),
    Comes('M', 3),
    Comes('M', 3),
    Comes('F', 0),
    Comes('C', 3),
    Comes('C', 3),
    Comes('-', 0),
];

#[test]
fn outputs_go_in_any_order(rt: HostRuntime) -> Result<(), Fail> {
    Ok(all_are_done(&rt, rt.alloc(), 16, &THREE)?)
}

// The first send takes up the batches behind.
const TAKEN_UP: [Step; 31] = [
    Holds(1, 1, &[1]),
    Holds(2, 2, &[2]),
    Holds(3, 3, &[3]),
    Commands(15),
    Sends(true),
    Commands(11),
    Comes('S', 1),
    Sends(true),
    Comes('S', 2),
    Sends(true),
    Comes('S', 3),
    Sends(true),
    Comes('O', 0),
    Sends(true),
    Comes('M', 1),
    Sends(true),
    Comes('M', 2),
    Sends(true),
    Comes('M', 3),
    Sends(true),
    Comes('F', 0),
    Sends(true),
    Comes('C', 1),
    Sends(true),
    Comes('C', 2),
    Sends(true),
    Comes('C', 3),
    Commands(11),
    Sends(false),
    Visible(3),
    Acknowledged(0),
];

#[test]
fn a_batch_takes_up_two(rt: HostRuntime) -> Result<(), Fail> {
    Ok(all_are_done(&rt, rt.alloc(), 1, &TAKEN_UP)?)
}

const SEEN_AT_ONCE: [Step; 15] = [
    Holds(1, 1, &[1]),
    Holds(2, 2, &[2]),
    Holds(3, 3, &[3]),
    Passes(3),
    Visible(0),
    Acknowledged(0),
    Waits(2, 3, 0),
    Passes(1),
    Visible(3),
    Acknowledged(3),
    Goes(2, 3),
    Goes(0, 1),
    Passes(7),
    Unapplied(0),
    Acknowledged(3),
];

#[test]
fn all_versions_of_a_batch_are_seen_at_once(rt: HostRuntime) -> Result<(), Fail> {
    Ok(all_are_done(&rt, rt.alloc(), 1, &SEEN_AT_ONCE)?)
}

// The second finds no room beside the first, so the third isn't asked, and goes with the second.
const STOPPED: [Step; 15] = [
    Holds(1, 1, &[1]),
    Holds(2, 2, &[1]),
    Holds(3, 3, &[2]),
    Passes(1),
    Commands(15),
    Passes(4),
    Visible(1),
    Commands(15),
    Sends(true),
    Comes('S', 1),
    Sends(true),
    Comes('S', 2),
    Commands(13),
    Passes(1),
    Visible(3),
];

#[test]
fn the_first_that_does_not_fit_stops_it(rt: HostRuntime) -> Result<(), Fail> {
    Ok(all_are_done(&rt, rt.alloc(), 1, &STOPPED)?)
}

// After the first command was passed, with room for one key and for two.
const APART: [Step; 4] = [
    Holds(1, 1, &[1]),
    Holds(2, 2, &[1]),
    Passes(1),
    Commands(10),
];

const TOGETHER: [Step; 4] = [Holds(1, 1, &[1]), Holds(2, 2, &[1]), Passes(1), Commands(8)];

#[test]
fn a_key_that_stands_twice_counts_twice(rt: HostRuntime) -> Result<(), Fail> {
    all_are_done(&rt, rt.alloc(), 1, &APART)?;
    Ok(all_are_done(&rt, rt.alloc(), 2, &TOGETHER)?)
}

const BEGUN: [Step; 13] = [
    Holds(1, 1, &[1]),
    Passes(2),
    Holds(2, 2, &[2]),
    Holds(3, 3, &[3]),
    Passes(3),
    Commands(15),
    Visible(1),
    Passes(1),
    Commands(13),
    Unapplied(7),
    Passes(2),
    Visible(3),
    Acknowledged(3),
];

#[test]
fn a_batch_that_was_begun_takes_up_none(rt: HostRuntime) -> Result<(), Fail> {
    Ok(all_are_done(&rt, rt.alloc(), 16, &BEGUN)?)
}
