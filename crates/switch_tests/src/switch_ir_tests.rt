//! Code of a switch, and for how long its values are needed, worked out by hand.
ghost use Rattle.std.specs.Prelude.{◌≤◌};

use crate::samples::{chain, split_of};
use flat_ir::{Flat, RegPlan, Spans};
use gal_bits::Values;
use gal_io::{Bytes, NoMemory};
use packet_fields::Verdict;
use split_model::Layout;
use std::alloc::Global;
use std::test::Fail;
use switch_ir::{
    Call, DownEnd, Entry, Journal, Pass, PassSpans, PortError, Steps, SwitchCode, UpEnd, emit,
    spans_of_passes,
};
use writeback_table::{Command, To, Update};

// A value, the stage that gives it, and the step that reads it last.
type Needed = (u32, u32, u32);

fn are_spans(spans: &Spans, want: &[Needed]) -> bool {
    let mut all = spans.len() == want.len();
    for (span, (value, from, to)) in spans.as_slice().iter().zip(want) {
        all = all && span.value == *value && span.from == *from && span.to == *to;
    }
    all
}

// Of the chain of sums whose stages are all passed as packets arrive.
const ALL_BEFORE: [Needed; 11] = [
    (0, 0, 0),
    (1, 0, 5),
    (2, 0, 0),
    (3, 0, 1),
    (4, 0, 1),
    (5, 1, 2),
    (6, 0, 2),
    (7, 2, 3),
    (8, 0, 3),
    (9, 3, 4),
    (10, 4, 5),
];

// The spans of the values of a program that these limits split.
fn spans_of(
    alloc: Global,
    f: &Flat,
    stages: u32,
    transfer_bytes: u32,
    shrink: bool,
) -> Result<PassSpans, Fail>
    requires stages { stages ≤ 4096 }
    requires least { 2 ≤ transfer_bytes }
    requires most { transfer_bytes ≤ 65535 }
{
    let split = split_of(alloc, f, stages, transfer_bytes, shrink)?;
    Ok(spans_of_passes(alloc, f, &split)?)
}

// The code of a program that these limits split.
fn code_of(
    alloc: Global,
    f: &Flat,
    stages: u32,
    transfer_bytes: u32,
    shrink: bool,
) -> Result<SwitchCode, Fail>
    requires stages { stages ≤ 4096 }
    requires least { 2 ≤ transfer_bytes }
    requires most { transfer_bytes ≤ 65535 }
{
    let split = split_of(alloc, f, stages, transfer_bytes, shrink)?;
    Ok(emit(alloc, f, &split, 4)?)
}

fn is_needed_before(alloc: Global, f: &Flat) -> Result<bool, Fail> {
    let spans = spans_of(alloc, f, 4, 64, false)?;
    Ok(are_spans(&spans.pre, &ALL_BEFORE))
}

fn has_registers_before(alloc: Global, f: &Flat) -> Result<bool, Fail> {
    let code = code_of(alloc, f, 4, 64, false)?;
    Ok(code.pre.plan.count() == 7)
}

fn is_chain_arriving(alloc: Global) -> Result<bool, Fail> {
    let f = chain(alloc)?;
    Ok(is_needed_before(alloc, &f)? && has_registers_before(alloc, &f)?)
}

// Of the same chain, whose last sum comes down and is cut then.
const CUT_BEHIND: [Needed; 3] = [(1, 0, 2), (9, 0, 1), (10, 1, 2)];

fn is_needed_behind(alloc: Global, f: &Flat) -> Result<bool, Fail> {
    let spans = spans_of(alloc, f, 3, 3, true)?;
    Ok(are_spans(&spans.post, &CUT_BEHIND))
}

fn has_registers_behind(alloc: Global, f: &Flat) -> Result<bool, Fail> {
    let code = code_of(alloc, f, 3, 3, true)?;
    Ok(code.post.plan.count() == 2)
}

fn is_chain_coming_down(alloc: Global) -> Result<bool, Fail> {
    let f = chain(alloc)?;
    Ok(is_needed_behind(alloc, &f)? && has_registers_behind(alloc, &f)?)
}

#[test]
fn values_are_needed_until_they_are_read(rt: HostRuntime) -> Result<(), Fail> {
    assert!(rt; is_chain_arriving(rt.alloc())?);
    assert!(rt; is_chain_coming_down(rt.alloc())?);
    Ok(())
}

// The number and the stage of each instruction.
fn are_steps(steps: &Steps, want: &[(u32, u32)]) -> bool {
    let mut all = steps.len() == want.len();
    for (step, (instruction, stage)) in steps.as_slice().iter().zip(want) {
        all = all && step.instruction == *instruction && step.stage == *stage;
    }
    all
}

// The number and the width of each value that crosses.
fn are_crossings(layout: &Layout, want: &[(u32, u32)]) -> bool {
    let mut all = layout.len() == want.len();
    for (crossing, (number, bits)) in layout.as_slice().iter().zip(want) {
        all = all && crossing.number == *number && crossing.width.bits() == *bits;
    }
    all
}

const PRE: [(u32, u32); 10] = [
    (0, 0),
    (1, 0),
    (2, 0),
    (3, 0),
    (4, 0),
    (5, 1),
    (6, 0),
    (7, 2),
    (8, 0),
    (9, 3),
];

// The sums are computed before the server.
fn is_pre(pass: &Pass) -> bool {
    are_steps(&pass.steps, &PRE)
        && pass.given.is_empty()
        && pass.rest.as_slice() == [0].as_slice()
        && pass.highest == 3
}

// The cut is computed behind it.
fn is_post(pass: &Pass) -> bool {
    are_steps(&pass.steps, &[(10, 1)])
        && pass.given.is_empty()
        && pass.rest.is_empty()
        && pass.highest == 1
}

// The last sum crosses.
fn is_chain_code(code: &SwitchCode) -> bool {
    is_pre(&code.pre)
        && is_post(&code.post)
        && are_crossings(&code.up, &[(9, 16)])
        && are_crossings(&code.down, &[(1, 1), (9, 16)])
        && code.tables.is_empty()
        && code.writeback == 4
        && code.values == 11
}

fn is_copied(alloc: Global, code: &SwitchCode) -> Result<bool, NoMemory> {
    let copy = code.copy(alloc)?;
    Ok(is_chain_code(&copy))
}

// The code of the chain, of which all that 3 stages and 3 bytes allow is done on the switch.
fn chain_code(alloc: Global) -> Result<SwitchCode, Fail> {
    let f = chain(alloc)?;
    code_of(alloc, &f, 3, 3, true)
}

fn is_chain_emitted(alloc: Global) -> Result<bool, Fail> {
    let code = chain_code(alloc)?;
    Ok(is_copied(alloc, &code)?)
}

#[test]
fn all_but_the_last_cut_is_done_before_the_server(rt: HostRuntime) -> Result<(), Fail> {
    assert!(rt; is_chain_emitted(rt.alloc())?);
    Ok(())
}

// Whether so many values have the same registers by both plans.
fn are_same_plans(one: &RegPlan, other: &RegPlan, values: u32) -> bool {
    let mut all = one.count() == other.count();
    for value in 0..values {
        all = all && one.register(value) == other.register(value);
    }
    all
}

fn is_copied_the_same(alloc: Global, plan: &RegPlan, values: u32) -> Result<bool, NoMemory> {
    let copy = plan.copy(alloc)?;
    Ok(are_same_plans(&copy, plan, values))
}

fn is_plan_copied(alloc: Global) -> Result<bool, Fail> {
    let code = chain_code(alloc)?;
    Ok(is_copied_the_same(alloc, &code.post.plan, code.values)?)
}

#[test]
fn a_copied_plan_gives_the_same_registers(rt: HostRuntime) -> Result<(), Fail> {
    assert!(rt; is_plan_copied(rt.alloc())?, "of the pass after the server");
    Ok(())
}

fn note_two(journal: &mut Journal) -> Result<(), NoMemory> {
    journal.reserve(1)?;
    journal.push(Entry::Load)?;
    journal.push_command(&Command::Off, Ok(()));
    Ok(())
}

fn are_two_kept(alloc: Global, journal: &Journal) -> Result<bool, NoMemory> {
    let entries = journal.entries(alloc)?;
    let are_there = matches!(
        entries.as_slice(),
        [Entry::Load, Entry::Command(Command::Off, Ok(()))],
    );
    Ok(are_there && journal.spare() == 0)
}

fn is_journal_kept(alloc: Global) -> Result<bool, NoMemory> {
    let mut journal = Journal::new(alloc);
    note_two(&mut journal)?;
    are_two_kept(alloc, &journal)
}

fn two_values(first: u64, second: u64) -> Values {
    let mut values = Values::new();
    values.push(first);
    values.push(second);
    values
}

const STAGED: (u32, u64, u64) = (3, 1, 2);

const GONE: (u32, u64, u64) = (4, 8, 9);

// The command that puts 5 and 7 under a key of two numbers.
fn staged() -> Command {
    Command::Stage(Update {
        object: STAGED.0,
        key: two_values(STAGED.1, STAGED.2),
        to: To::Value(two_values(5, 7)),
    })
}

fn gone() -> Command {
    Command::Main(Update {
        object: GONE.0,
        key: two_values(GONE.1, GONE.2),
        to: To::Gone,
    })
}

// Three commands, with a call that is none between them.
fn note_commands(journal: &mut Journal) -> Result<(), NoMemory> {
    journal.push(Entry::Command(staged(), Ok(())))?;
    journal.push(Entry::Visible(3))?;
    journal.push(Entry::Command(gone(), Err(PortError::Failed)))?;
    journal.push(Entry::Command(Command::Clear(5, two_values(3, 4)), Ok(())))
}

fn is_of(update: &Update, (object, first, second): (u32, u64, u64)) -> bool {
    update.object == object && update.key == two_values(first, second)
}

fn is_staged(entry: &Entry) -> bool {
    match entry {
        Entry::Command(Command::Stage(update), Ok(())) => {
            let is_left = match update.to {
                To::Value(values) => values == two_values(5, 7),
                To::Gone => false,
            };
            is_left && is_of(update, STAGED)
        }
        _ => false,
    }
}

fn is_gone(entry: &Entry) -> bool {
    match entry {
        Entry::Command(Command::Main(update), Err(PortError::Failed)) => {
            matches!(update.to, To::Gone) && is_of(update, GONE)
        }
        _ => false,
    }
}

fn is_cleared(entry: &Entry) -> bool {
    match entry {
        Entry::Command(Command::Clear(5, key), Ok(())) => *key == two_values(3, 4),
        _ => false,
    }
}

fn are_commands(entries: &[Entry]) -> bool {
    match entries {
        [first, Entry::Visible(3), third, last] => {
            is_staged(first) && is_gone(third) && is_cleared(last)
        }
        _ => false,
    }
}

fn are_commands_kept(alloc: Global) -> Result<bool, NoMemory> {
    let mut journal = Journal::new(alloc);
    note_commands(&mut journal)?;
    let entries = journal.entries(alloc)?;
    Ok(are_commands(entries.as_slice()))
}

// The entry of a pass that ends at its stage with a frame that goes up.
fn note_up(alloc: Global, journal: &mut Journal) -> Result<(), NoMemory> {
    let frame = Ok(UpEnd::Up(Bytes::from_slice(alloc, &[7, 8])?));
    journal.note(Call::StageUp(3, &frame))
}

// The entry of a frame whose packet leaves at once.
fn note_down(alloc: Global, journal: &mut Journal) -> Result<(), NoMemory> {
    let sent = Ok(DownEnd::Verdict(Verdict::Send(4, Bytes::from_slice(alloc, &[9])?)));
    journal.note(Call::Down(&[1], &sent))
}

// A pass that goes on and then sends a frame up, and one that ends at once.
fn note_passes(alloc: Global, journal: &mut Journal) -> Result<(), NoMemory> {
    journal.note(Call::BeginUp(3, 2, &[5, 6], &Ok(UpEnd::Going)))?;
    note_up(alloc, journal)?;
    note_down(alloc, journal)
}

// Whether this is the entry of a packet that arrives, whose pass goes on.
fn is_begun(entry: &Entry) -> bool {
    match entry {
        Entry::BeginUp {
            number: 3,
            port: 2,
            packet,
            answer: Ok(UpEnd::Going),
        } => packet.as_slice() == [5, 6].as_slice(),
        _ => false,
    }
}

// Whether this is the entry of a stage that sends the frame up.
fn is_sent_up(entry: &Entry) -> bool {
    match entry {
        Entry::StageUp {
            number: 3,
            answer: Ok(UpEnd::Up(frame)),
        } => frame.as_slice() == [7, 8].as_slice(),
        _ => false,
    }
}

// Whether this is the entry of a frame whose packet leaves by port 4.
fn is_released(entry: &Entry) -> bool {
    match entry {
        Entry::Down {
            frame,
            answer: Ok(DownEnd::Verdict(verdict)),
        } => frame.as_slice() == [1].as_slice() && leaves_by_4(verdict),
        _ => false,
    }
}

fn leaves_by_4(verdict: &Verdict) -> bool {
    match verdict {
        Verdict::Send(4, bytes) => bytes.as_slice() == [9].as_slice(),
        _ => false,
    }
}

fn are_passes(entries: &[Entry]) -> bool {
    match entries {
        [first, second, third] => is_begun(first) && is_sent_up(second) && is_released(third),
        _ => false,
    }
}

fn are_passes_kept(alloc: Global) -> Result<bool, NoMemory> {
    let mut journal = Journal::new(alloc);
    note_passes(alloc, &mut journal)?;
    let entries = journal.entries(alloc)?;
    Ok(are_passes(entries.as_slice()))
}

fn is_up_copied(alloc: Global) -> Result<bool, NoMemory> {
    let copy = UpEnd::Finished(Verdict::Drop).copy(alloc)?;
    Ok(matches!(&copy, UpEnd::Finished(Verdict::Drop)))
}

fn is_down_copied(alloc: Global) -> Result<bool, NoMemory> {
    let copy = DownEnd::Verdict(Verdict::Drop).copy(alloc)?;
    Ok(matches!(&copy, DownEnd::Verdict(Verdict::Drop)))
}

#[test]
fn a_journal_keeps_its_calls(rt: HostRuntime) -> Result<(), Fail> {
    assert!(rt; is_journal_kept(rt.alloc())?);
    assert!(rt; are_commands_kept(rt.alloc())?);
    assert!(rt; are_passes_kept(rt.alloc())?);
    assert!(rt; is_up_copied(rt.alloc())?);
    assert!(rt; is_down_copied(rt.alloc())?);
    Ok(())
}
